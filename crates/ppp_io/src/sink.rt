ghost use Rattle.std.specs.Prelude.{◌≡◌, ℕ, ◌<◌, List, Option, length};
ghost use Rattle.ppp_io.specs.Fault.{HasCause};
ghost use Rattle.ppp_io.specs.Wrote.{WriteWithin, WritePuts};

use crate::wrote::Wrote;

/// A sink of octets.
pub trait Sink {
    // the octets that it holds, or None where the sink doesn't tell
    ghost held: { Self → Option (List ℕ) };

    // how often it failed
    ghost faults: { Self → ℕ };

    /// Writes up to `piece.len()` octets, and at least one unless it fails.
    fn write(&mut self, piece: &[u8]) -> Wrote
        requires { 0 < length piece.now }
        ensures within { WriteWithin result piece.now }
        ensures octets { WritePuts (held self.old) (held self.new) result piece.now }
        ensures cause { HasCause (faults self.old) (faults self.new) (result ≡ Wrote.Failed) };
}
