//! Why a text of hex lines couldn't be shown.

use ppp_memory::Memory;
use thiserror::Error;

/// A text of hex lines couldn't be shown.
#[derive(Clone, Copy, Debug, PartialEq, Eq, Error)]
pub enum ShowFault {
    /// There wasn't enough memory.
    #[error("out of memory")]
    Memory,
    /// The line of that number, from 1 on, is the first that isn't pairs of hex digits.
    #[error("line {0} isn't pairs of hex digits")]
    Line(u32),
}

impl From<Memory> for ShowFault {
    ghost use Rattle.std.specs.Prelude.{◌≡◌};
    ghost use Rattle.ppp_show.specs.declared.show_fault.ShowFault.TheVariants.{Memory};

    ghost from_gives = { λ want fault. fault ≡ Memory };

    fn from(_want: Memory) -> ShowFault {
        ShowFault::Memory
    }
}
