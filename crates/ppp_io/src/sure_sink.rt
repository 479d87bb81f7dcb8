ghost use Rattle.std.specs.Prelude.{◌≡◌, ◌+◌, ◌<◌, ◌≤◌, ◌++◌, ◌||◌, IfOk, [], false, length, nat_lt, take};
ghost use Rattle.ppp_io.specs.Fault.{HasCause};
ghost use Rattle.ppp_io.specs.SureSink.{held_if_told};
ghost use Rattle.ppp_io.specs.Wrote.{WriteWithin, WritePuts};

use crate::octets::keep;
use crate::sink::Sink;
use crate::wrote::Wrote;
use ppp_memory::Memory;
use std::alloc::Global;
use std::marker::Model;

/// A sink in memory that never fails. It takes every piece, holds the first octets of all, as many as it has room for,
/// and tells what it holds as long as no more came.
#[derive(Drop)]
pub struct SureSink {
    octets: Vec<u8>,
    room: usize,
    past_room: bool,
}

impl Model for SureSink {
    ghost use Rattle.std.specs.Prelude.{◌≤◌, vec_len, vec_capacity};
    ghost use Rattle.ppp_io.specs.SureSink.{SureSinkState};

    ghost Value = { SureSinkState };

    ghost view = { λ s. record { held = s.octets.items; room = s.room; past_room = s.past_room } };

    ghost invariant = { λ s. (vec_len s.octets ≤ s.room) × (s.room ≤ vec_capacity s.octets) };
}

impl SureSink {
    /// Has room for `room` octets and holds none. The call is refused for want of memory alone.
    pub fn new(alloc: Global, room: usize) -> Result<SureSink, Memory>
        ensures { IfOk result (λ s. s ≡ record { held = []; room = room; past_room = false }) }
    {
        Ok(SureSink {
            octets: Vec::with_capacity(alloc, room)?,
            room,
            past_room: false,
        })
    }

    /// The octets that it holds.
    pub fn octets(&self) -> &[u8]
        ensures octets { result.now ≡ self.now.held }
        ensures within { length result.now ≤ self.now.room }
    {
        &self.octets
    }

    /// Whether more came than it has room for.
    pub fn is_past_room(&self) -> bool
        ensures { result ≡ self.now.past_room }
    {
        self.past_room
    }
}

impl Sink for SureSink {
    ghost held = { held_if_told };

    ghost faults = { λ _. 0 };

    fn write(&mut self, piece: &[u8]) -> Wrote
        requires { 0 < length piece.now }
        ensures within { WriteWithin result piece.now }
        ensures octets { WritePuts (held_if_told self.old) (held_if_told self.new)
            result piece.now }
        ensures cause { HasCause 0 0 (result ≡ Wrote.Failed) }
        ensures whole { result ≡ Wrote.Took (length piece.now) }
        ensures first { self.new.held ≡ take self.old.room (self.old.held ++ piece.now) }
        ensures past_room { self.new.past_room
            ≡ self.old.past_room || nat_lt self.old.room (length self.old.held + length piece.now) }
        ensures room { self.new.room ≡ self.old.room }
    {
        let kept = keep(&mut self.octets, self.room, piece);
        if kept < piece.len() {
            self.past_room = true;
        }
        Wrote::Took(piece.len())
    }
}
