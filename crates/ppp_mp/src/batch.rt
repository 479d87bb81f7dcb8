//! Lists of octet strings in memory that is taken once.

ghost use Rattle.std.specs.Prelude.{◌≡◌, ◌+◌, ◌<◌, ◌≤◌, [], ◌∷◌, ◌++◌, length, IfOk, vec_len, vec_capacity, slice_get, Some};
ghost use Rattle.ppp_mp.specs.Batch.{octets_in, packet_seen};

use crate::limits::MOST_HELD;
use ppp_memory::Memory;
use std::alloc::Global;
use std::marker::Model;

/// The place of a packet's octets, and its class.
#[derive(Clone, Copy)]
pub(crate) struct Span {
    pub(crate) class: u8,
    pub(crate) start: usize,
    pub(crate) end: usize,
}

/// A list of at most 256 packets, and the octets of one more that isn't finished.
#[derive(Drop)]
pub(crate) struct Batch {
    room: usize,
    octets: Vec<u8>,
    spans: Vec<Span>,
    /// Where the unfinished packet begins.
    start: usize,
}

impl Model for Batch {
    ghost use Rattle.ppp_mp.specs.Batch.{BatchState, batch_seen, IsBatch};

    ghost Value = { BatchState };

    ghost view = { batch_seen };

    ghost invariant = { IsBatch };
}

impl Batch {
    /// A list without a packet, with room for so many octets.
    pub(crate) fn new(alloc: Global, room: usize) -> Result<Batch, Memory>
        ensures { IfOk result (λ b. b ≡ record { room = room; packets = []; begun = [] }) }
    {
        let (Ok(octets), Ok(spans)) = (
            Vec::with_capacity(alloc, room),
            Vec::with_capacity(alloc, MOST_HELD),
        ) else {
            return Err(Memory);
        };
        Ok(Batch {
            room,
            octets,
            spans,
            start: 0,
        })
    }

    /// Drops all packets.
    pub(crate) fn clear(&mut self)
        ensures { self.new ≡ record { room = self.old.room; packets = []; begun = [] } }
    {
        self.octets.clear();
        self.spans.clear();
        self.start = 0;
    }

    /// Puts octets behind those of the packet that isn't finished.
    pub(crate) fn extend(&mut self, octets: &[u8])
        requires { octets_in self.old + length octets.now ≤ self.old.room }
        ensures { self.new ≡ record self.old { begun = self.old.begun ++ octets.now } }
    {
        put_octets(&mut self.octets, octets);
    }

    /// Finishes the packet, which is of that class.
    pub(crate) fn finish(&mut self, class: u8)
        requires { length self.old.packets < MOST_HELD }
        ensures { self.new ≡ record self.old {
          packets = self.old.packets ++ record { class = class; octets = self.old.begun } ∷ [];
          begun = [];
        } }
    {
        let end = self.octets.len();
        self.spans.push_reserved(Span {
            class,
            start: self.start,
            end,
        });
        self.start = end;
    }

    /// The number of packets.
    pub(crate) fn count(&self) -> usize
        ensures { result ≡ length self.now.packets }
    {
        self.spans.len()
    }

    /// A packet, with its class.
    pub(crate) fn at(&self, i: usize) -> (u8, &[u8])
        requires { i < length self.now.packets }
        ensures { slice_get self.now.packets i ≡ Some (packet_seen result.0 result.1.now) }
    {
        let span = self.spans[i];
        (span.class, &self.octets[span.start..span.end])
    }
}

/// Puts octets behind others, for which room was taken.
fn put_octets(octets: &mut Vec<u8>, more: &[u8])
    requires { vec_len octets.old + length more.now ≤ vec_capacity octets.old }
    ensures items { octets.new.items ≡ octets.old.items ++ more.now }
    ensures capacity { vec_capacity octets.old ≤ vec_capacity octets.new }
{
    octets.extend_from_slice(more).unwrap();
}
