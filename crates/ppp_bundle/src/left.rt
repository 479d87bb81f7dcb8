//! What a link left.

/// What a link left.
#[derive(Clone, Copy, Debug, PartialEq, Eq)]
pub struct Left {
    /// The bundle that it was joined in.
    pub bundle: u8,
    /// Whether no link stays joined in that bundle.
    pub last: bool,
}
