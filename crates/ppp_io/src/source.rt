ghost use Rattle.std.specs.Prelude.{◌≡◌, ℕ, ◌<◌, List, Option, length};
ghost use Rattle.ppp_io.specs.Fault.{HasCause};
ghost use Rattle.ppp_io.specs.ReadGot.{ReadWithin, ReadTakes};

use crate::read_got::ReadGot;

/// A source of octets.
pub trait Source {
    // the octets that reads will give from here on, or None where the source doesn't tell
    ghost left: { Self → Option (List ℕ) };

    // how often it failed
    ghost faults: { Self → ℕ };

    /// Reads up to `buf.len()` octets, and at least one unless it ends or fails.
    fn read(&mut self, buf: &mut [u8]) -> ReadGot
        requires { 0 < length buf.old }
        ensures within { ReadWithin result buf.new }
        ensures octets { ReadTakes (left self.old) (left self.new) result buf.new }
        ensures cause { HasCause (faults self.old) (faults self.new) (result ≡ ReadGot.Failed) };
}
