//! The refusal of a step.

ghost use Rattle.std.specs.Prelude.{Some};
ghost use Rattle.ppp_world.specs.Refusal.{refusal_text};

use crate::outstanding::Outstanding;
use std::fmt;

/// A step that would make an end's span too wide. It prints as `outstanding step K end E link L P sent S oldest O`.
#[derive(Clone, Copy, Debug, PartialEq, Eq)]
pub struct Refusal {
    /// The number of the step, from 1 on.
    pub step: u32,
    /// Whose span, and how wide.
    pub fault: Outstanding,
}

impl fmt::Display for Refusal {
    ghost output = { λ r. Some (refusal_text r) };

    fn fmt<W: fmt::Write>(&self, f: &mut fmt::Formatter<W>) -> fmt::Result {
        let step = self.step;
        let fault = self.fault;
        write!(f, "outstanding step {step} {fault}")
    }
}
