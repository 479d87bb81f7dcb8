//! Why a script couldn't be read.

use crate::line_why::LineWhy;
use thiserror::Error;

/// A script couldn't be read.
#[derive(Debug, Drop, Error)]
pub enum ScriptFault {
    /// There wasn't enough memory.
    #[error("out of memory")]
    Memory,
    /// A line is refused, the first such.
    #[error("line {line} {why}")]
    Refused {
        /// The number of the line, from 1 on.
        line: u32,
        /// Why it is refused.
        why: LineWhy,
    },
}
