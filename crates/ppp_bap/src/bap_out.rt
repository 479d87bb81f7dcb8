//! What a step of BAP sends and tells.

ghost use Rattle.std.specs.Prelude.{◌≡◌, ◌+◌, ◌<◌, ◌≤◌, [], ◌∷◌, ◌++◌, length, map, Some, slice_get};
ghost use Rattle.ppp_bap.specs.BapOut.{entry_seen, slot_seen, IsShort};
ghost use Rattle.ppp_bap.specs.BapPacket.{bap_octets};
ghost use Rattle.ppp_bap.specs.declared.bap_out.TheConstants.{MOST_PACKET, SLOTS};

use crate::bap_packet::BapPacket;
use arrayvec::ArrayVec;
use ppp_options::octets_u16;
use ppp_packet::{MOST_LIST, PACKET_HEADER};
use std::marker::Model;

/// The most octets of a packet: the header, a response code and the options.
pub const MOST_PACKET: usize = PACKET_HEADER + 1 + MOST_LIST;

/// The most entries.
pub const SLOTS: usize = 3;

/// An entry of BAP's list.
#[derive(Clone, Copy, Debug, PartialEq, Eq)]
pub enum BapEntry<'a> {
    /// A packet to send on the bundle's control link.
    Send(&'a [u8]),
    /// The peer was promised that this link goes.
    Mark(u8),
    /// The peer agreed that this link goes: its LCP is to close.
    CloseLink(u8),
    /// This link is to be brought up.
    Dial(u8),
}

/// An entry as it is kept. No call sends more than one packet, so it stands beside the entries.
#[derive(Clone, Copy)]
pub(crate) enum Slot {
    Send,
    Mark(u8),
    CloseLink(u8),
    Dial(u8),
}

impl Default for Slot {
    fn default() -> Slot {
        Slot::Send
    }
}

/// A list of at most three entries, which a call of a [`crate::Bap`] fills. It is seen as that list, and takes no memory.
#[derive(Drop)]
pub struct BapOut {
    packet: ArrayVec<u8, MOST_PACKET>,
    slots: ArrayVec<Slot, SLOTS>,
}

impl Model for BapOut {
    ghost use Rattle.std.specs.Prelude.{List};
    ghost use Rattle.ppp_bap.specs.BapOut.{Entry};

    ghost Value = { List Entry };

    ghost use Rattle.ppp_bap.specs.BapOut.{out_seen};

    ghost view = { out_seen };
}

impl BapOut {
    ghost use Rattle.ppp_bap.specs.BapOut.{Send, Mark, CloseLink, Dial, entry_seen};

    /// A list with no entry.
    pub fn new() -> BapOut
        ensures { result ≡ [] }
    {
        BapOut {
            packet: ArrayVec::new(),
            slots: ArrayVec::new(),
        }
    }

    /// How many entries there are.
    pub fn count(&self) -> usize
        ensures count { result ≡ length self.now }
        ensures few { length self.now ≤ SLOTS }
    {
        self.slots.len()
    }

    /// The entry at place `i`, from 0 on.
    pub fn at(&self, i: usize) -> BapEntry<'_>
        requires { i < length self.now }
        ensures entry { slice_get self.now i ≡ Some (entry_seen result) }
        ensures short { IsShort (entry_seen result) }
    {
        lend(self.packet.as_slice(), self.slots.as_slice(), i)
    }

    /// Takes all entries out.
    pub(crate) fn clear(&mut self)
        ensures { self.new ≡ [] }
    {
        self.slots.clear();
    }

    /// Takes all entries out, and puts a packet in.
    pub(crate) fn send(&mut self, packet: BapPacket)
        ensures { self.new ≡ Send (bap_octets packet) ∷ [] }
    {
        self.slots.clear();
        self.packet.clear();
        put_packet(&mut self.packet, packet);
        self.slots.push(Slot::Send);
    }

    /// Puts at the end that a link was promised.
    pub(crate) fn mark(&mut self, link: u8)
        requires { length self.old < SLOTS }
        ensures { self.new ≡ self.old ++ Mark link ∷ [] }
    {
        self.slots.push(Slot::Mark(link));
    }

    /// Puts at the end that a link is to close.
    pub(crate) fn close_link(&mut self, link: u8)
        requires { length self.old < SLOTS }
        ensures { self.new ≡ self.old ++ CloseLink link ∷ [] }
    {
        self.slots.push(Slot::CloseLink(link));
    }

    /// Puts at the end that a link is to be brought up.
    pub(crate) fn dial(&mut self, link: u8)
        requires { length self.old < SLOTS }
        ensures { self.new ≡ self.old ++ Dial link ∷ [] }
    {
        self.slots.push(Slot::Dial(link));
    }
}

/// Puts the octets of a packet where there are none.
fn put_packet(octets: &mut ArrayVec<u8, MOST_PACKET>, packet: BapPacket)
    requires { octets.old.items ≡ [] }
    ensures { octets.new.items ≡ bap_octets packet }
{
    let message = packet.message;
    let options = message.options();
    let code = message.code();
    let size = PACKET_HEADER + usize::from(code.is_some()) + options.octets().len();
    let [high, low] = octets_u16(size as u16);
    put(
        octets,
        &[message.packet_type().number(), packet.id, high, low],
    );
    if let Some(code) = code {
        put(octets, &[code.number()]);
    }
    put(octets, options.octets());
}

/// Puts octets behind others.
fn put(octets: &mut ArrayVec<u8, MOST_PACKET>, more: &[u8])
    requires { length octets.old.items + length more.now ≤ MOST_PACKET }
    ensures { octets.new.items ≡ octets.old.items ++ more.now }
{
    octets.try_extend_from_slice(more).unwrap();
}

/// The entry of the slot at place `i`.
fn lend<'a>(packet: &'a [u8], slots: &[Slot], i: usize) -> BapEntry<'a>
    requires place { i < length slots.now }
    requires short { length packet.now ≤ MOST_PACKET }
    ensures entry { slice_get (map (slot_seen packet.now) slots.now) i ≡ Some (entry_seen result) }
    ensures short { IsShort (entry_seen result) }
{
    lend_slot(packet, slots[i])
}

/// The entry of a slot.
fn lend_slot(packet: &[u8], slot: Slot) -> BapEntry<'_>
    ensures { entry_seen result ≡ slot_seen packet.now slot }
{
    match slot {
        Slot::Send => BapEntry::Send(packet),
        Slot::Mark(link) => BapEntry::Mark(link),
        Slot::CloseLink(link) => BapEntry::CloseLink(link),
        Slot::Dial(link) => BapEntry::Dial(link),
    }
}
