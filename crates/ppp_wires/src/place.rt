//! The place of a port of a net in memory.

ghost use Rattle.std.specs.Prelude.{◌≡◌, ◌-◌, ◌≤◌, [], IfOk, Some, option_map, length, min, take};
ghost use Rattle.ppp_wires.specs.Port.{Free, Calls, Joined, calls_as, is_caller, joined_to, held, waiting_at, has_ended, with_more, without_first, left_alone};

use crate::octets::{give, keep, refill};
use crate::wires::MOST_NAME;
use ppp_memory::Memory;
use std::alloc::Global;
use std::marker::Model;

/// What a port is.
#[derive(Clone, Copy, Debug, PartialEq, Eq)]
pub(crate) enum State {
    /// It isn't connected.
    Free,
    /// A caller of its name that isn't taken yet.
    Calls,
    /// It is joined to the port of that number.
    Joined(u8),
    /// The port that it was joined to hung up.
    Left,
}

/// A port with its buffers: at a caller its octets are what it pushed, else they are what waits to be polled.
#[derive(Drop)]
pub(crate) struct Place {
    state: State,
    name: Vec<u8>,
    octets: Vec<u8>,
    room: usize,
}

impl Model for Place {
    ghost use Rattle.ppp_wires.specs.Place.{PlaceState};

    ghost Value = { PlaceState };

    ghost use Rattle.ppp_wires.specs.Place.{place_seen, IsPlace};

    ghost view = { place_seen };

    ghost invariant = { IsPlace };
}

impl Place {
    /// A free port, with room for so many octets. The call is refused for want of memory alone.
    pub(crate) fn new(alloc: Global, room: usize) -> Result<Place, Memory>
        ensures { IfOk result (λ s. s ≡ record { room = room; port = Free }) }
    {
        Ok(Place {
            state: State::Free,
            name: Vec::with_capacity(alloc, MOST_NAME)?,
            octets: Vec::with_capacity(alloc, room)?,
            room,
        })
    }

    /// Makes it a caller of this name, which has pushed nothing.
    pub(crate) fn call(&mut self, name: &[u8])
        requires { length name.now ≤ MOST_NAME }
        ensures { self.new ≡ record self.old { port = Calls name.now [] } }
    {
        self.state = State::Calls;
        refill(&mut self.name, name);
        self.octets.clear();
    }

    /// Whether it is a caller of this name that isn't taken yet.
    pub(crate) fn calls_as(&self, name: &[u8]) -> bool
        ensures { result ≡ calls_as name.now self.now.port }
    {
        match self.state {
            State::Calls => self.name.as_slice() == name,
            State::Free | State::Joined(_) | State::Left => false,
        }
    }

    /// Joins it to another port. Of a caller, what it pushed waits here from now on; of any other port nothing does.
    pub(crate) fn take_over(&mut self, other: u8)
        ensures { self.new ≡ record self.old { port = Joined other (held self.old.port) } }
    {
        if self.state == State::Free {
            self.octets.clear();
        }
        self.state = State::Joined(other);
    }

    /// Joins it to another port. Nothing waits.
    pub(crate) fn join(&mut self, other: u8)
        ensures { self.new ≡ record self.old { port = Joined other [] } }
    {
        self.octets.clear();
        self.state = State::Joined(other);
    }

    /// The port that it is joined to.
    pub(crate) fn joined_to(&self) -> Option<u8>
        ensures { result ≡ joined_to self.now.port }
    {
        match self.state {
            State::Joined(other) => Some(other),
            State::Free | State::Calls | State::Left => None,
        }
    }

    /// Whether it is a caller that isn't taken yet.
    pub(crate) fn is_caller(&self) -> bool
        ensures { result ≡ is_caller self.now.port }
    {
        self.state == State::Calls
    }

    /// How many octets stand at it.
    pub(crate) fn count(&self) -> usize
        ensures count { result ≡ length (held self.now.port) }
        ensures within { result ≤ self.now.room }
    {
        match self.state {
            State::Free => 0,
            State::Calls | State::Joined(_) | State::Left => self.octets.len(),
        }
    }

    /// Puts the first of these octets behind those that stand at it, as many as there is room for.
    pub(crate) fn put(&mut self, piece: &[u8])
        ensures { let fit = min (length piece.now) (self.old.room - length (held self.old.port)) in
            self.new ≡ record self.old { port = with_more (take fit piece.now) self.old.port } }
    {
        if self.state != State::Free {
            keep(&mut self.octets, self.room, piece);
        }
    }

    /// How many octets wait to be polled.
    pub(crate) fn waiting(&self) -> usize
        ensures { result ≡ length (waiting_at self.now.port) }
    {
        match self.state {
            State::Free | State::Calls => 0,
            State::Joined(_) | State::Left => self.octets.len(),
        }
    }

    /// Whether the port that it was joined to hung up.
    pub(crate) fn has_ended(&self) -> bool
        ensures { result ≡ has_ended self.now.port }
    {
        self.state == State::Left
    }

    /// Takes the first of what waits off, as many as there are and `buf` has room for.
    pub(crate) fn give(&mut self, buf: &mut [u8]) -> usize
        ensures count { result ≡ min (length buf.old) (length (waiting_at self.old.port)) }
        ensures octets { take result buf.new ≡ take result (waiting_at self.old.port) }
        ensures after { self.new ≡ record self.old { port = without_first result self.old.port } }
    {
        match self.state {
            State::Free | State::Calls => 0,
            State::Joined(_) | State::Left => give(&mut self.octets, buf),
        }
    }

    /// The port that it is joined to hangs up.
    pub(crate) fn leave_alone(&mut self)
        ensures { self.new ≡ record self.old { port = left_alone self.old.port } }
    {
        if self.joined_to().is_some() {
            self.state = State::Left;
        }
    }

    /// Ends it. What waited for it is dropped.
    pub(crate) fn hang(&mut self)
        ensures { self.new ≡ record self.old { port = Free } }
    {
        self.state = State::Free;
    }
}
