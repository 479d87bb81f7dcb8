//! The timers that a line names.

ghost use Rattle.std.specs.Prelude.{◌≡◌};
ghost use Rattle.ppp_script.specs.Timer.{last_timer};

use crate::field::{last_field, protocol};
use crate::line_why::LineWhy;
use ppp_packet::Proto;
use ppp_text::Fields;

/// A timer of a link at an end.
#[derive(Clone, Copy, Debug, PartialEq, Eq)]
pub(crate) enum Timer {
    /// `P`: the restart timer of a protocol.
    Restart(Proto),
    /// `bap`: the timer of the request that the link's bundle waits on (RFC 2125).
    Bap,
}

/// Reads `P` or `bap`, and no more.
#[tactic(auto, unfolding(crate::specs::Timer::last_timer))]
pub(crate) fn last_timer(fields: &Fields<'_>) -> Result<Timer, LineWhy>
    ensures { result ≡ last_timer fields.now }
{
    let field = last_field(fields)?;
    if field == b"bap".as_slice() {
        Ok(Timer::Bap)
    } else {
        Ok(Timer::Restart(protocol(field)?))
    }
}
