//! What a step of the automaton sends and tells.

ghost use Rattle.std.specs.Prelude.{◌≡◌, ◌+◌, ◌<◌, ◌≤◌, [], ◌∷◌, ◌++◌, length, vec_len, vec_capacity, map, take, drop, ◌-◌, IfOk, Some, slice_get};
ghost use Rattle.ppp_auto.specs.Packet.{coded_octets};
ghost use Rattle.ppp_auto.specs.Outbox.{entry_seen, slot_seen, AreWithin, IsShort};
ghost use Rattle.ppp_auto.specs.declared.outbox.TheConstants.{MOST_REST, SLOTS};
ghost use Rattle.ppp_packet.specs.declared.packet_ref.TheConstants.{PACKET_HEADER};

use crate::layer_signal::LayerSignal;
use arrayvec::ArrayVec;
use byteorder::{BigEndian, ByteOrder};
use ppp_memory::Memory;
use ppp_packet::{Code, PACKET_HEADER};
use std::alloc::Global;
use std::marker::Model;

/// The most octets that a packet in an outbox has.
pub const MOST_OCTETS: usize = 1500;

/// The most octets that a packet in an outbox has behind its header.
pub(crate) const MOST_REST: usize = MOST_OCTETS - PACKET_HEADER;

/// The octets that an outbox holds: four packets.
pub(crate) const CAPACITY: usize = SLOTS * MOST_OCTETS;

/// The most entries that an outbox has.
pub(crate) const SLOTS: usize = 4;

/// An entry of an outbox: a whole packet to send, or a signal to the layers beside.
#[derive(Clone, Copy)]
pub enum EntryRef<'a> {
    /// A packet to send.
    Send(&'a [u8]),
    /// What the layers beside are told.
    Signal(LayerSignal),
}

/// An entry as it is kept: where its packet begins and ends, or its signal.
#[derive(Clone, Copy)]
pub(crate) enum Slot {
    Packet(usize, usize),
    Told(LayerSignal),
}

impl Default for Slot {
    fn default() -> Slot {
        Slot::Packet(0, 0)
    }
}

/// A list of at most four entries, which a step of the automaton fills. It is seen as that list.
#[derive(Drop)]
pub struct Outbox {
    octets: Vec<u8>,
    slots: ArrayVec<Slot, SLOTS>,
}

impl Model for Outbox {
    ghost use Rattle.std.specs.Prelude.{List};
    ghost use Rattle.ppp_auto.specs.Outbox.{Entry};

    ghost Value = { List Entry };

    ghost use Rattle.ppp_auto.specs.Outbox.{outbox_seen, IsOutbox};

    ghost view = { outbox_seen };

    ghost invariant = { IsOutbox };
}

impl Outbox {
    ghost use Rattle.ppp_auto.specs.Outbox.{Send, Signal, entry_seen, IsShort};

    /// An outbox with no entry. It takes the memory for all that is put into it later.
    pub fn new(alloc: Global) -> Result<Outbox, Memory>
        ensures { IfOk result (λ out. out ≡ []) }
    {
        match Vec::with_capacity(alloc, CAPACITY) {
            Ok(octets) => Ok(Outbox {
                octets,
                slots: ArrayVec::new(),
            }),
            Err(_) => Err(Memory),
        }
    }

    /// How many entries there are.
    pub fn count(&self) -> usize
        ensures count { result ≡ length self.now }
        ensures few { length self.now ≤ SLOTS }
    {
        self.slots.len()
    }

    /// The entry at place `i`, from 0 on.
    pub fn at(&self, i: usize) -> EntryRef<'_>
        requires { i < length self.now }
        ensures entry { slice_get self.now i ≡ Some (entry_seen result) }
        ensures short { IsShort (entry_seen result) }
    {
        lend(self.octets.as_slice(), self.slots.as_slice(), i)
    }

    /// Takes all entries out.
    pub fn clear(&mut self)
        ensures { self.new ≡ [] }
    {
        self.octets.clear();
        self.slots.clear();
    }

    /// Puts a signal at the end.
    pub(crate) fn tell(&mut self, signal: LayerSignal)
        requires { length self.old < SLOTS }
        ensures { self.new ≡ self.old ++ Signal signal ∷ [] }
    {
        self.slots.push(Slot::Told(signal));
    }

    /// Puts a packet at the end.
    pub(crate) fn send(&mut self, code: Code, id: u8, rest: &[u8])
        requires few { length self.old < SLOTS }
        requires size { length rest.now ≤ MOST_REST }
        ensures { self.new ≡ self.old ++ Send (coded_octets code id rest.now) ∷ [] }
    {
        let start = self.octets.len();
        put_packet(&mut self.octets, code, id, rest);
        self.slots.push(Slot::Packet(start, self.octets.len()));
    }
}

/// Puts the octets of a packet behind others, for which room was taken.
fn put_packet(octets: &mut Vec<u8>, code: Code, id: u8, rest: &[u8])
    requires size { length rest.now ≤ MOST_REST }
    requires room { vec_len octets.old + (PACKET_HEADER + length rest.now) ≤ vec_capacity octets.old }
    ensures octets { octets.new.items ≡ octets.old.items ++ coded_octets code id rest.now }
    ensures size { vec_len octets.new ≡ vec_len octets.old + (PACKET_HEADER + length rest.now) }
    ensures capacity { vec_capacity octets.old ≤ vec_capacity octets.new }
{
    let mut header = [code.number(), id, 0, 0];
    BigEndian::write_u16(&mut header[2..], (PACKET_HEADER + rest.len()) as u16);
    octets.extend_from_slice(&header).unwrap();
    octets.extend_from_slice(rest).unwrap();
}

/// The entry of the slot at place `i`.
fn lend<'a>(octets: &'a [u8], slots: &[Slot], i: usize) -> EntryRef<'a>
    requires place { i < length slots.now }
    requires within { AreWithin octets.now slots.now }
    ensures entry { slice_get (map (slot_seen octets.now) slots.now) i ≡ Some (entry_seen result) }
    ensures short { IsShort (entry_seen result) }
{
    match slots[i] {
        Slot::Packet(start, end) => EntryRef::Send(part(octets, start, end)),
        Slot::Told(signal) => EntryRef::Signal(signal),
    }
}

/// The octets from `start` to before `end`.
fn part(octets: &[u8], start: usize, end: usize) -> &[u8]
    requires order { start ≤ end }
    requires within { end ≤ length octets.now }
    ensures { result.now ≡ take (end - start) (drop start octets.now) }
{
    &octets[start..end]
}
