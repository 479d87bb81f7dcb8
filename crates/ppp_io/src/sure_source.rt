ghost use Rattle.std.specs.Prelude.{◌≡◌, ◌<◌, length, min, Some};
ghost use Rattle.ppp_io.specs.Fault.{HasCause};
ghost use Rattle.ppp_io.specs.ReadGot.{ReadWithin, ReadTakes, ReadGives};

use crate::octets::give;
use crate::read_got::ReadGot;
use crate::source::Source;
use std::marker::Model;

/// A source in memory that never fails.
#[derive(Drop)]
pub struct SureSource {
    octets: Vec<u8>,
    at: usize,
    chunk: usize,
}

impl Model for SureSource {
    ghost use Rattle.std.specs.Prelude.{◌<◌, ◌≤◌, drop, vec_len};
    ghost use Rattle.ppp_io.specs.SureSource.{SureSourceState};

    ghost Value = { SureSourceState };

    ghost view = { λ s. record { left = drop s.at s.octets.items; chunk = s.chunk } };

    ghost invariant = { λ s. (s.at ≤ vec_len s.octets) × (0 < s.chunk) };
}

impl SureSource {
    /// Gives these octets, at most `chunk` a read. `chunk` isn't 0.
    pub fn new(octets: Vec<u8>, chunk: usize) -> SureSource
        requires { 0 < chunk }
        ensures { result ≡ record { left = octets.items; chunk = chunk } }
    {
        SureSource {
            octets,
            at: 0,
            chunk,
        }
    }
}

impl Source for SureSource {
    ghost left = { λ s. Some s.left };

    ghost faults = { λ _. 0 };

    fn read(&mut self, buf: &mut [u8]) -> ReadGot
        requires { 0 < length buf.old }
        ensures within { ReadWithin result buf.new }
        ensures octets { ReadTakes (Some self.old.left) (Some self.new.left) result buf.new }
        ensures cause { HasCause 0 0 (result ≡ ReadGot.Failed) }
        ensures gives { ReadGives result
            (min self.old.chunk (min (length buf.old) (length self.old.left))) }
        ensures chunk { self.new.chunk ≡ self.old.chunk }
    {
        let left = &self.octets[self.at..];
        if left.is_empty() {
            return ReadGot::End;
        }
        let count = give(left, self.chunk, buf);
        self.at += count;
        ReadGot::Got(count)
    }
}
