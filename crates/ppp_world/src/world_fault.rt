//! Why a world refuses a step.

use crate::outstanding::Outstanding;
use thiserror::Error;

/// Why a world refuses a step. It refuses every further one too, with the same.
#[derive(Clone, Copy, Debug, PartialEq, Eq, Error)]
pub enum WorldFault {
    /// There is no memory left. What the step did before it was refused isn't taken back.
    #[error("out of memory")]
    Memory,
    /// The step would make an end's Configure-Requests under way span more than 255 ordinals, so that an Identifier of 8 bits
    /// no longer told them apart (RFC 1661 section 5). The steps before it are done and counted, and it is not.
    #[error("too many requests are under way")]
    Outstanding(Outstanding),
}
