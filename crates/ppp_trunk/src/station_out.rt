//! What an event of a trunk sends and tells.

ghost use Rattle.std.specs.Prelude.{◌≡◌, ◌+◌, ◌-◌, ◌<◌, ◌≤◌, [], ◌∷◌, ◌++◌, length, vec_len, vec_capacity, map, take, drop, IfOk, None, Some, slice_get};
ghost use Rattle.ppp_trunk.specs.StationOut.{all_octets, entry_seen, slot_seen, AreShort, AreWithin, IsWithin};
ghost use Rattle.ppp_link.specs.declared.link_out.TheConstants.{MOST_PUSH};
ghost use Rattle.ppp_trunk.specs.declared.station_out.TheConstants.{MOST_ENTRIES, MOST_OCTETS};

use ppp_bap::AskRefused;
use ppp_memory::Memory;
use std::alloc::Global;
use std::marker::Model;

/// The most entries. No event makes as many.
pub const MOST_ENTRIES: usize = 1024;

/// The most octets of all entries together. No event makes as many.
pub const MOST_OCTETS: usize = 1_048_576;

/// An entry of a trunk's list.
#[derive(Clone, Copy, Debug, PartialEq, Eq)]
pub enum StationEntry<'a> {
    /// A frame to send.
    Push {
        /// The link to send it on.
        link: u8,
        /// Its octets, flags and all.
        octets: &'a [u8],
    },
    /// A datagram that came.
    Got {
        /// Its class, where it came in a bundle.
        class: Option<u8>,
        /// Its protocol.
        protocol: u16,
        /// Its octets.
        octets: &'a [u8],
    },
    /// LCP is done with the line of that link.
    Hang(u8),
    /// That link is to be brought up (RFC 2125).
    Dial(u8),
    /// What is answered to one who asks the peer (RFC 2125).
    Asked(Result<(), AskRefused>),
}

/// An entry as it is kept: where its octets begin and end, or its signal.
#[derive(Clone, Copy)]
pub(crate) enum Slot {
    Push(u8, usize, usize),
    Got(u16, usize, usize),
    Hang(u8),
    Dial(u8),
    Asked(Result<(), AskRefused>),
}

/// A list of entries, which an event of a trunk fills, and how many octets the event used. It is seen as these.
#[derive(Drop)]
pub struct StationOut {
    octets: Vec<u8>,
    slots: Vec<Slot>,
    used: usize,
}

impl Model for StationOut {
    ghost use Rattle.ppp_trunk.specs.StationOut.{Out, out_seen, IsStationOut};

    ghost Value = { Out };

    ghost view = { out_seen };

    ghost invariant = { IsStationOut };
}

impl StationOut {
    ghost use Rattle.ppp_trunk.specs.StationOut.{Asked, Dial, Got, Hang, Push, entry_seen};

    /// A list with no entry. It takes the memory for all that is put into it later.
    pub fn new(alloc: Global) -> Result<StationOut, Memory>
        ensures { IfOk result (λ out. out ≡ record { entries = []; used = 0 }) }
    {
        let (Ok(octets), Ok(slots)) = (
            Vec::with_capacity(alloc, MOST_OCTETS),
            Vec::with_capacity(alloc, MOST_ENTRIES),
        ) else {
            return Err(Memory);
        };
        Ok(StationOut {
            octets,
            slots,
            used: 0,
        })
    }

    /// How many entries there are.
    pub fn count(&self) -> usize
        ensures { result ≡ length self.now.entries }
    {
        self.slots.len()
    }

    /// The entry at place `i`, from 0 on.
    pub fn at(&self, i: usize) -> StationEntry<'_>
        requires { i < length self.now.entries }
        ensures { slice_get self.now.entries i ≡ Some (entry_seen result) }
    {
        lend(self.octets.as_slice(), self.slots.as_slice(), i)
    }

    /// How many octets the event used that brought octets, at least one where there is one; 0 for another event.
    pub fn used(&self) -> usize
        ensures { result ≡ self.now.used }
    {
        self.used
    }

    /// Takes all entries out.
    pub fn clear(&mut self)
        ensures { self.new ≡ record { entries = []; used = 0 } }
    {
        self.octets.clear();
        self.slots.clear();
        self.used = 0;
    }

    /// Notes how many octets were used.
    pub fn set_used(&mut self, used: usize)
        ensures out { self.new ≡ record self.old { used = used } }
        ensures short { AreShort self.new.entries }
    {
        self.used = used;
    }

    /// Puts a frame to send at the end.
    pub fn push(&mut self, link: u8, octets: &[u8])
        requires few { length self.old.entries < MOST_ENTRIES }
        requires room { all_octets self.old.entries + length octets.now ≤ MOST_OCTETS }
        requires short { length octets.now ≤ MOST_PUSH }
        ensures out { self.new ≡ record self.old { entries = self.old.entries ++ Push link octets.now ∷ [] } }
        ensures octets { all_octets self.new.entries ≡ all_octets self.old.entries + length octets.now }
    {
        let start = self.octets.len();
        put_octets(&mut self.octets, octets);
        put_slot(&mut self.slots, Slot::Push(link, start, self.octets.len()));
    }

    /// Puts a datagram at the end.
    pub fn hand_up(&mut self, protocol: u16, octets: &[u8])
        requires few { length self.old.entries < MOST_ENTRIES }
        requires room { all_octets self.old.entries + length octets.now ≤ MOST_OCTETS }
        ensures out { self.new ≡ record self.old { entries = self.old.entries ++ Got None protocol octets.now ∷ [] } }
        ensures octets { all_octets self.new.entries ≡ all_octets self.old.entries + length octets.now }
    {
        let start = self.octets.len();
        put_octets(&mut self.octets, octets);
        put_slot(
            &mut self.slots,
            Slot::Got(protocol, start, self.octets.len()),
        );
    }

    /// Puts at the end that LCP is done with a line.
    pub fn hang(&mut self, link: u8)
        requires { length self.old.entries < MOST_ENTRIES }
        ensures out { self.new ≡ record self.old { entries = self.old.entries ++ Hang link ∷ [] } }
        ensures octets { all_octets self.new.entries ≡ all_octets self.old.entries }
    {
        put_slot(&mut self.slots, Slot::Hang(link));
    }

    /// Puts at the end that a link is to be brought up.
    pub fn dial(&mut self, link: u8)
        requires { length self.old.entries < MOST_ENTRIES }
        ensures out { self.new ≡ record self.old { entries = self.old.entries ++ Dial link ∷ [] } }
        ensures octets { all_octets self.new.entries ≡ all_octets self.old.entries }
    {
        put_slot(&mut self.slots, Slot::Dial(link));
    }

    /// Puts at the end what is answered to one who asks.
    pub fn answer(&mut self, answer: Result<(), AskRefused>)
        requires { length self.old.entries < MOST_ENTRIES }
        ensures out { self.new ≡ record self.old { entries = self.old.entries ++ Asked answer ∷ [] } }
        ensures octets { all_octets self.new.entries ≡ all_octets self.old.entries }
    {
        put_slot(&mut self.slots, Slot::Asked(answer));
    }
}

/// Puts octets behind others, for which room was taken.
fn put_octets(octets: &mut Vec<u8>, more: &[u8])
    requires { vec_len octets.old + length more.now ≤ vec_capacity octets.old }
    ensures items { octets.new.items ≡ octets.old.items ++ more.now }
    ensures size { vec_len octets.new ≡ vec_len octets.old + length more.now }
    ensures capacity { vec_capacity octets.old ≤ vec_capacity octets.new }
{
    octets.extend_from_slice(more).unwrap();
}

/// Puts a slot behind others, for which room was taken.
fn put_slot(slots: &mut Vec<Slot>, slot: Slot)
    requires { vec_len slots.old < vec_capacity slots.old }
    ensures items { slots.new.items ≡ slots.old.items ++ slot ∷ [] }
    ensures capacity { vec_capacity slots.old ≤ vec_capacity slots.new }
{
    slots.push_reserved(slot);
}

/// The entry of the slot at place `i`.
fn lend<'a>(octets: &'a [u8], slots: &[Slot], i: usize) -> StationEntry<'a>
    requires place { i < length slots.now }
    requires within { AreWithin octets.now slots.now }
    ensures { slice_get (map (slot_seen octets.now) slots.now) i ≡ Some (entry_seen result) }
{
    lend_slot(octets, slots[i])
}

/// The entry of a slot.
fn lend_slot(octets: &[u8], slot: Slot) -> StationEntry<'_>
    requires { IsWithin octets.now slot }
    ensures { entry_seen result ≡ slot_seen octets.now slot }
{
    match slot {
        Slot::Push(link, start, end) => StationEntry::Push {
            link,
            octets: part(octets, start, end),
        },
        Slot::Got(protocol, start, end) => StationEntry::Got {
            class: None,
            protocol,
            octets: part(octets, start, end),
        },
        Slot::Hang(link) => StationEntry::Hang(link),
        Slot::Dial(link) => StationEntry::Dial(link),
        Slot::Asked(answer) => StationEntry::Asked(answer),
    }
}

/// The octets from `start` to before `end`.
fn part(octets: &[u8], start: usize, end: usize) -> &[u8]
    requires order { start ≤ end }
    requires within { end ≤ length octets.now }
    ensures { result.now ≡ take (end - start) (drop start octets.now) }
{
    &octets[start..end]
}
