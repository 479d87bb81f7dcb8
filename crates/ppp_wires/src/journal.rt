//! The record of a net in memory.

ghost use Rattle.std.specs.Prelude.{◌≡◌, ◌*◌, ◌+◌, ◌-◌, ◌<◌, ◌≤◌, [], ◌∷◌, ◌++◌, IfOk, Some, All, length, map, vec_len, vec_capacity};
ghost use Rattle.ppp_io.specs.Account.{PutsOn};
ghost use Rattle.ppp_wires.specs.Journal.{made_of, made_in, IsInside};

use crate::octets::{count_of, put_all};
use crate::wires::{Polled, Pushed, Wired};
use ppp_memory::Memory;
use std::alloc::Global;
use std::marker::Model;

/// How many calls a record in memory tells.
pub const MOST_CALLS: usize = 65_536;

/// How many times a port's room the octets of all calls of a record in memory may have.
pub const ROOMS: usize = 32;

/// A call and its answer, without its octets.
#[derive(Clone, Copy, Debug, PartialEq, Eq)]
pub(crate) enum Entry {
    /// A port was connected, with a name.
    Connect(u8, bool, Wired),
    /// A link's ports were joined.
    Join(u8, Wired),
    /// A port was polled into a buffer of that length.
    Poll(u8, usize, Polled),
    /// A piece was pushed on a port.
    Push(u8, Pushed),
    /// A port was hung up.
    Hang(u8),
}

/// A call that is kept: its octets stand from `start` to `end` among those of all calls.
#[derive(Clone, Copy, Debug, PartialEq, Eq)]
pub(crate) struct Kept {
    pub(crate) entry: Entry,
    pub(crate) start: usize,
    pub(crate) end: usize,
}

/// The calls that were made, in memory reserved before. It tells them as long as they fit there.
#[derive(Drop)]
pub(crate) struct Journal {
    calls: Vec<Kept>,
    octets: Vec<u8>,
    room: usize,
    told: bool,
}

impl Model for Journal {
    ghost use Rattle.ppp_wires.specs.Journal.{JournalState};

    ghost Value = { JournalState };

    ghost use Rattle.ppp_wires.specs.Journal.{journal_seen, IsJournal};

    ghost view = { journal_seen };

    ghost invariant = { IsJournal };
}

impl Journal {
    /// No calls, with room for so many octets times 32. The call is refused for want of memory alone.
    pub(crate) fn new(alloc: Global, room: usize) -> Result<Journal, Memory>
        ensures { IfOk result (λ s. s ≡ record { made = Some []; room = room * ROOMS }) }
    {
        let room = room.checked_mul(ROOMS).ok_or(Memory)?;
        Ok(Journal {
            calls: Vec::with_capacity(alloc, MOST_CALLS)?,
            octets: Vec::with_capacity(alloc, room)?,
            room,
            told: true,
        })
    }

    /// Puts a call with its octets behind the others, or tells no longer where it finds no room.
    pub(crate) fn note(&mut self, entry: Entry, octets: &[u8])
        ensures told { PutsOn self.old.made self.new.made (made_of entry octets.now ∷ []) }
        ensures room { self.new.room ≡ self.old.room }
    {
        if self.calls.len() >= MOST_CALLS || octets.len() > self.room - self.octets.len() {
            self.told = false;
            return;
        }
        append(&mut self.calls, &mut self.octets, entry, octets);
    }
}

/// Puts a call behind those that are kept.
fn append(calls: &mut Vec<Kept>, all: &mut Vec<u8>, entry: Entry, octets: &[u8])
    requires places { vec_len calls.old < vec_capacity calls.old }
    requires room { vec_len all.old + length octets.now ≤ vec_capacity all.old }
    requires inside { All (IsInside all.old.items) calls.old.items }
    ensures calls { map (made_in all.new.items) calls.new.items
        ≡ map (made_in all.old.items) calls.old.items ++ made_of entry octets.now ∷ [] }
    ensures inside { All (IsInside all.new.items) calls.new.items }
    ensures count { vec_len calls.new ≡ vec_len calls.old + 1 }
    ensures length { vec_len all.new ≡ vec_len all.old + length octets.now }
    ensures places { vec_capacity calls.new ≡ vec_capacity calls.old }
    ensures reserved { vec_capacity all.old ≤ vec_capacity all.new }
{
    let start = count_of(all);
    put_all(all, octets);
    calls.push_reserved(Kept {
        entry,
        start,
        end: start + octets.len(),
    });
}
