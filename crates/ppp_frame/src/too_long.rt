//! Information that is too long for a frame.

use thiserror::Error;

/// The information has more than [`MOST_INFO`](crate::MOST_INFO) octets.
#[derive(Clone, Copy, Debug, PartialEq, Eq, Error)]
#[error("the information is too long for a frame")]
pub struct TooLong;
