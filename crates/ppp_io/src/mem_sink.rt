ghost use Rattle.std.specs.Prelude.{◌≡◌, ◌-◌, ◌<◌, ◌≤◌, ◌↔◌, ◌⊎◌, Contains, IfOk, [], length, min, Some};
ghost use Rattle.ppp_io.specs.Fault.{HasCause, one_more};
ghost use Rattle.ppp_io.specs.Wrote.{WriteWithin, WritePuts, WriteFits, faults_after_write};

use crate::octets::{is_listed, keep};
use crate::sink::Sink;
use crate::wrote::Wrote;
use ppp_memory::Memory;
use std::alloc::Global;
use std::marker::Model;

/// A sink in memory whose listed writes fail, and every write once it holds as much as it has room for.
#[derive(Drop)]
pub struct MemSink {
    octets: Vec<u8>,
    room: usize,
    failing: Vec<u32>,
    calls: u64,
    faults: u64,
}

impl Model for MemSink {
    ghost use Rattle.std.specs.Prelude.{◌≤◌, vec_len, vec_capacity};
    ghost use Rattle.ppp_io.specs.Fault.{greatest_count};
    ghost use Rattle.ppp_io.specs.MemSink.{MemSinkState};

    ghost Value = { MemSinkState };

    ghost view = { λ s. record {
      held = s.octets.items;
      room = s.room;
      failing = s.failing.items;
      calls = s.calls;
      faults = s.faults;
    } };

    ghost invariant = { λ s. (vec_len s.octets ≤ s.room) × (s.room ≤ vec_capacity s.octets)
        × (s.faults ≤ greatest_count) };
}

impl MemSink {
    /// Has room for `room` octets and holds none. It fails at the writes whose numbers are listed, from 1, and at every
    /// write that finds it full. The call is refused for want of memory alone.
    pub fn new(alloc: Global, room: usize, failing: Vec<u32>) -> Result<MemSink, Memory>
        ensures { IfOk result (λ s. s
            ≡ record { held = []; room = room; failing = failing.items; calls = 0; faults = 0 }) }
    {
        Ok(MemSink {
            octets: Vec::with_capacity(alloc, room)?,
            room,
            failing,
            calls: 0,
            faults: 0,
        })
    }

    /// The octets that it holds.
    pub fn octets(&self) -> &[u8]
        ensures octets { result.now ≡ self.now.held }
        ensures within { length result.now ≤ self.now.room }
    {
        &self.octets
    }

    /// How many writes failed, up to the greatest `u64`.
    pub fn faults(&self) -> u64
        ensures { result ≡ self.now.faults }
    {
        self.faults
    }
}

impl Sink for MemSink {
    ghost held = { λ s. Some s.held };

    ghost faults = { λ s. s.faults };

    fn write(&mut self, piece: &[u8]) -> Wrote
        requires { 0 < length piece.now }
        ensures within { WriteWithin result piece.now }
        ensures octets { WritePuts (Some self.old.held) (Some self.new.held) result piece.now }
        ensures cause { HasCause self.old.faults self.new.faults (result ≡ Wrote.Failed) }

        // This write's number is the new count of calls.
        ensures calls { self.new.calls ≡ one_more self.old.calls }
        ensures fails { (result ≡ Wrote.Failed)
            ↔ (Contains self.old.failing self.new.calls ⊎ (self.old.room ≤ length self.old.held)) }
        ensures fits { WriteFits result
            (min (length piece.now) (self.old.room - length self.old.held)) }
        ensures faults { self.new.faults ≡ faults_after_write result self.old.faults }
        ensures room { self.new.room ≡ self.old.room }
        ensures failing { self.new.failing ≡ self.old.failing }
    {
        self.calls = self.calls.saturating_add(1);
        if is_listed(&self.failing, self.calls) || self.octets.len() >= self.room {
            self.faults = self.faults.saturating_add(1);
            return Wrote::Failed;
        }
        Wrote::Took(keep(&mut self.octets, self.room, piece))
    }
}
