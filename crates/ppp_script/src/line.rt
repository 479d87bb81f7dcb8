//! What the lines of a script are.

ghost use Rattle.std.specs.Prelude.{◌≡◌, ◌≤◌, ℕ, IfOk};
ghost use Rattle.ppp_script.specs.declared.field.TheConstants.{MOST_LINKS};
ghost use Rattle.ppp_script.specs.Line.{Form};

use crate::line_why::LineWhy;
use std::alloc::{AllocError, Global};

/// A line of a script that is a step or more. Each command that reads a script has its own.
pub trait Line: Drop {
    // what a line reads as, and how many steps that is
    ghost form: { Form Self };

    // the numbers of a line are within their bounds, where so many links are configured
    ghost IsWithin: { ℕ → Self → Type 0 };

    /// Reads a line without its end, where so many links are configured. Its octets, if it has any, are kept in memory
    /// of `alloc`: an outer Err is a want of memory, and the inner one says why the line is refused.
    fn read(alloc: Global, line: &[u8], links: u8) -> Result<Result<Self, LineWhy>, AllocError>
        ensures value { IfOk result (λ read. read ≡ form.read links line.now) }
        ensures within { IfOk result (λ read. IfOk read (IsWithin links)) }
        ensures bounded { IfOk result (λ read. IfOk read (IsWithin MOST_LINKS)) };

    /// How many steps it is, at most 65,535.
    fn steps(&self) -> u32
        ensures value { result ≡ form.steps self.now }
        ensures few { result ≤ 65535 };
}
