//! What a call of `feed` answers.

use crate::why::Why;

/// What a call of [`Deframer::feed`](crate::Deframer::feed) answers.
#[derive(Clone, Copy, Debug, PartialEq, Eq)]
pub struct Fed {
    /// How many octets were used: up to and with the flag that ended something, or all.
    pub used: usize,
    /// What ended.
    pub got: Got,
}

/// What ended in a call of [`Deframer::feed`](crate::Deframer::feed).
#[derive(Clone, Copy, Debug, PartialEq, Eq)]
pub enum Got {
    /// A frame, which the deframer lends until the next call.
    Frame,
    /// A piece that is no frame.
    Discard(Why),
    /// Nothing: more octets are wanted.
    More,
}
