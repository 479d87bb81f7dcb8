ghost use Rattle.std.specs.Prelude.{◌≡◌, ◌<◌, ◌↔◌, Contains, length, min, Some};
ghost use Rattle.ppp_io.specs.Fault.{HasCause, one_more};
ghost use Rattle.ppp_io.specs.ReadGot.{ReadWithin, ReadTakes, ReadGives, faults_after_read};

use crate::octets::is_listed;
use crate::read_got::ReadGot;
use crate::source::Source;
use crate::sure_source::SureSource;
use std::marker::Model;

/// A source in memory whose listed reads fail.
#[derive(Drop)]
pub struct MemSource {
    inner: SureSource,
    failing: Vec<u32>,
    calls: u64,
    faults: u64,
}

impl Model for MemSource {
    ghost use Rattle.std.specs.Prelude.{◌≤◌};
    ghost use Rattle.ppp_io.specs.Fault.{greatest_count};
    ghost use Rattle.ppp_io.specs.MemSource.{MemSourceState};

    ghost Value = { MemSourceState };

    ghost view = { λ s. record {
      left = s.inner.left;
      chunk = s.inner.chunk;
      failing = s.failing.items;
      calls = s.calls;
      faults = s.faults;
    } };

    ghost invariant = { λ s. s.faults ≤ greatest_count };
}

impl MemSource {
    /// Gives these octets, at most `chunk` a read, and fails at the reads whose numbers are listed, from 1. `chunk` isn't 0.
    pub fn new(octets: Vec<u8>, chunk: usize, failing: Vec<u32>) -> MemSource
        requires { 0 < chunk }
        ensures { result ≡ record {
          left = octets.items;
          chunk = chunk;
          failing = failing.items;
          calls = 0;
          faults = 0;
        } }
    {
        MemSource {
            inner: SureSource::new(octets, chunk),
            failing,
            calls: 0,
            faults: 0,
        }
    }

    /// How many reads failed, up to the greatest `u64`.
    pub fn faults(&self) -> u64
        ensures { result ≡ self.now.faults }
    {
        self.faults
    }
}

impl Source for MemSource {
    ghost left = { λ s. Some s.left };

    ghost faults = { λ s. s.faults };

    fn read(&mut self, buf: &mut [u8]) -> ReadGot
        requires { 0 < length buf.old }
        ensures within { ReadWithin result buf.new }
        ensures octets { ReadTakes (Some self.old.left) (Some self.new.left) result buf.new }
        ensures cause { HasCause self.old.faults self.new.faults (result ≡ ReadGot.Failed) }

        // This read's number is the new count of calls.
        ensures calls { self.new.calls ≡ one_more self.old.calls }
        ensures fails { (result ≡ ReadGot.Failed) ↔ Contains self.old.failing self.new.calls }
        ensures gives { ReadGives result
            (min self.old.chunk (min (length buf.old) (length self.old.left))) }
        ensures faults { self.new.faults ≡ faults_after_read result self.old.faults }
        ensures chunk { self.new.chunk ≡ self.old.chunk }
        ensures failing { self.new.failing ≡ self.old.failing }
    {
        self.calls = self.calls.saturating_add(1);
        if is_listed(&self.failing, self.calls) {
            self.faults = self.faults.saturating_add(1);
            return ReadGot::Failed;
        }
        self.inner.read(buf)
    }
}
