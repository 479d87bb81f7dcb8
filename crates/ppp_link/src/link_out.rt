//! What a step of a link sends and tells.

ghost use Rattle.std.specs.Prelude.{◌≡◌, ◌+◌, ◌-◌, ◌<◌, ◌≤◌, ℕ, List, [], ◌∷◌, ◌++◌, ⊤, length, vec_len, vec_capacity, map, take, drop, IfOk, MatchOption, Some, slice_get};
ghost use Rattle.std.specs.Option.{option_to_list};
ghost use Rattle.ppp_frame.specs.Frame.{enc};
ghost use Rattle.ppp_packet.specs.Proto.{proto_number};
ghost use Rattle.ppp_auto.specs.declared.outbox.TheConstants.{MOST_OCTETS as MOST_PACKET};
ghost use Rattle.ppp_link.specs.LinkOut.{entry_seen, slot_seen, AreWithin, IsShort, IsWithin};
ghost use Rattle.ppp_link.specs.Steps.{signal_told};
ghost use Rattle.ppp_link.specs.declared.link_out.TheConstants.{MOST_OCTETS, MOST_PUSH, SLOTS};

use arrayvec::ArrayVec;
use ppp_auto::LayerSignal;
use ppp_frame::{Form, FrameBuf, encode};
use ppp_memory::Memory;
use ppp_packet::Proto;
use std::alloc::Global;
use std::marker::Model;

/// The most octets of a frame to send: that of a packet of 1,500 octets, with every octet escaped.
pub const MOST_PUSH: usize = 3014;

/// The most octets of one entry: those of a whole frame that a deframer keeps.
pub const MOST_OCTETS: usize = 8200;

/// The most entries.
pub(crate) const SLOTS: usize = 32;

/// The octets that are taken.
pub(crate) const CAPACITY: usize = SLOTS * MOST_OCTETS;

/// An entry of a link's list.
#[derive(Clone, Copy, Debug, PartialEq, Eq)]
pub enum LinkEntry<'a> {
    /// The octets of a frame to send, flags and all.
    Push(&'a [u8]),
    /// LCP came to be Opened.
    LcpUp,
    /// LCP left Opened.
    LcpDown,
    /// LCP is done with the line (RFC 1661 section 4.4, This-Layer-Finished).
    Finished,
    /// A control protocol came to be Opened.
    NetUp(Proto),
    /// A control protocol left Opened.
    NetDown(Proto),
    /// What a frame carried that is no control protocol's: a datagram, a fragment or a packet of BAP.
    Payload {
        /// The frame's protocol.
        protocol: u16,
        /// The frame's information.
        octets: &'a [u8],
    },
}

/// An entry as it is kept: where its octets begin and end, or its signal.
#[derive(Clone, Copy)]
pub(crate) enum Slot {
    Push(usize, usize),
    LcpUp,
    LcpDown,
    Finished,
    NetUp(Proto),
    NetDown(Proto),
    Payload(u16, usize, usize),
}

impl Default for Slot {
    fn default() -> Slot {
        Slot::LcpUp
    }
}

/// A list of at most 32 entries, which a call of a link fills. It is seen as that list.
#[derive(Drop)]
pub struct LinkOut {
    octets: Vec<u8>,
    slots: ArrayVec<Slot, SLOTS>,
    buffer: FrameBuf,
}

impl Model for LinkOut {
    ghost use Rattle.std.specs.Prelude.{List};
    ghost use Rattle.ppp_link.specs.LinkOut.{Entry, out_seen, IsLinkOut};

    ghost Value = { List Entry };

    ghost view = { out_seen };

    ghost invariant = { IsLinkOut };
}

impl LinkOut {
    ghost use Rattle.ppp_link.specs.LinkOut.{Push, Payload, entry_seen};

    /// A list with no entry. It takes the memory for all that is put into it later.
    pub fn new(alloc: Global) -> Result<LinkOut, Memory>
        ensures { IfOk result (λ out. out ≡ []) }
    {
        let buffer = FrameBuf::new(alloc)?;
        match Vec::with_capacity(alloc, CAPACITY) {
            Ok(octets) => Ok(LinkOut {
                octets,
                slots: ArrayVec::new(),
                buffer,
            }),
            Err(_) => Err(Memory),
        }
    }

    /// How many entries there are.
    pub fn count(&self) -> usize
        ensures count { result ≡ length self.now }
        ensures few { length self.now ≤ SLOTS }
    {
        self.slots.len()
    }

    /// The entry at place `i`, from 0 on.
    pub fn at(&self, i: usize) -> LinkEntry<'_>
        requires { i < length self.now }
        ensures entry { slice_get self.now i ≡ Some (entry_seen result) }
        ensures short { IsShort (entry_seen result) }
    {
        lend(self.octets.as_slice(), self.slots.as_slice(), i)
    }

    /// Takes all entries out.
    pub(crate) fn clear(&mut self)
        ensures { self.new ≡ [] }
    {
        self.octets.clear();
        self.slots.clear();
    }

    /// Puts the frame of a packet of a protocol at the end, written in this form.
    pub(crate) fn push(&mut self, form: Form, proto: Proto, packet: &[u8])
        requires few { length self.old < SLOTS }
        requires size { length packet.now ≤ MOST_PACKET }
        ensures { self.new ≡ self.old ++ Push (enc form (proto_number proto) packet.now) ∷ [] }
    {
        self.push_frame(form, proto.number(), packet);
    }

    /// Puts the frame of a packet of the protocol of that number at the end, written in this form.
    pub(crate) fn push_frame(&mut self, form: Form, protocol: u16, packet: &[u8])
        requires few { length self.old < SLOTS }
        requires size { length packet.now ≤ MOST_PACKET }
        ensures { self.new ≡ self.old ++ Push (enc form protocol packet.now) ∷ [] }
    {
        write_frame(&mut self.buffer, form, protocol, packet);
        let start = self.octets.len();
        put_octets(&mut self.octets, self.buffer.octets());
        self.slots.push(Slot::Push(start, self.octets.len()));
    }

    /// Puts what a frame carries at the end.
    pub(crate) fn hand_up(&mut self, protocol: u16, octets: &[u8])
        requires few { length self.old < SLOTS }
        requires size { length octets.now ≤ MOST_OCTETS }
        ensures { self.new ≡ self.old ++ Payload protocol octets.now ∷ [] }
    {
        let start = self.octets.len();
        put_octets(&mut self.octets, octets);
        self.slots
            .push(Slot::Payload(protocol, start, self.octets.len()));
    }

    /// Puts the signal of a protocol at the end, if it is one that the layers above are told.
    pub(crate) fn tell(&mut self, proto: Proto, signal: LayerSignal)
        requires { length self.old < SLOTS }
        ensures entry { self.new ≡ self.old ++ signal_told proto signal }
        ensures few { length self.new ≤ length self.old + 1 }
    {
        if let Some(slot) = slot_of(proto, signal) {
            self.slots.push(slot);
        }
    }
}

/// Puts octets behind others, for which room was taken.
fn put_octets(octets: &mut Vec<u8>, more: &[u8])
    requires { vec_len octets.old + length more.now ≤ vec_capacity octets.old }
    ensures items { octets.new.items ≡ octets.old.items ++ more.now }
    ensures size { vec_len octets.new ≡ vec_len octets.old + length more.now }
    ensures capacity { vec_capacity octets.old ≤ vec_capacity octets.new }
{
    octets.extend_from_slice(more).unwrap();
}

/// Writes the frame of a packet.
fn write_frame(buffer: &mut FrameBuf, form: Form, protocol: u16, packet: &[u8])
    requires { length packet.now ≤ MOST_PACKET }
    ensures frame { buffer.new ≡ enc form protocol packet.now }
    ensures size { length buffer.new ≤ MOST_PUSH }
{
    encode(buffer, form, protocol, packet).unwrap();
}

/// The slot of a signal of a protocol, if it is one that the layers above are told.
fn slot_of(proto: Proto, signal: LayerSignal) -> Option<Slot>
    ensures told { (octets : List ℕ) → map (slot_seen octets) (option_to_list result)
        ≡ signal_told proto signal }
    ensures within { (octets : List ℕ) → MatchOption result ⊤ (IsWithin octets) }
{
    match (proto, signal) {
        (Proto::Lcp, LayerSignal::Up) => Some(Slot::LcpUp),
        (Proto::Lcp, LayerSignal::Down) => Some(Slot::LcpDown),
        (Proto::Lcp, LayerSignal::Finished) => Some(Slot::Finished),
        (_, LayerSignal::Up) => Some(Slot::NetUp(proto)),
        (_, LayerSignal::Down) => Some(Slot::NetDown(proto)),
        _ => None,
    }
}

/// The entry of the slot at place `i`.
fn lend<'a>(octets: &'a [u8], slots: &[Slot], i: usize) -> LinkEntry<'a>
    requires place { i < length slots.now }
    requires within { AreWithin octets.now slots.now }
    ensures entry { slice_get (map (slot_seen octets.now) slots.now) i ≡ Some (entry_seen result) }
    ensures short { IsShort (entry_seen result) }
{
    lend_slot(octets, slots[i])
}

/// The entry of a slot.
fn lend_slot(octets: &[u8], slot: Slot) -> LinkEntry<'_>
    requires { IsWithin octets.now slot }
    ensures entry { entry_seen result ≡ slot_seen octets.now slot }
    ensures short { IsShort (entry_seen result) }
{
    match slot {
        Slot::Push(start, end) => LinkEntry::Push(part(octets, start, end)),
        Slot::LcpUp => LinkEntry::LcpUp,
        Slot::LcpDown => LinkEntry::LcpDown,
        Slot::Finished => LinkEntry::Finished,
        Slot::NetUp(proto) => LinkEntry::NetUp(proto),
        Slot::NetDown(proto) => LinkEntry::NetDown(proto),
        Slot::Payload(protocol, start, end) => LinkEntry::Payload {
            protocol,
            octets: part(octets, start, end),
        },
    }
}

/// The octets from `start` to before `end`.
fn part(octets: &[u8], start: usize, end: usize) -> &[u8]
    requires order { start ≤ end }
    requires within { end ≤ length octets.now }
    ensures { result.now ≡ take (end - start) (drop start octets.now) }
{
    &octets[start..end]
}
