/// What a write answers.
#[derive(Clone, Copy, Debug, PartialEq, Eq)]
pub enum Wrote {
    /// So many octets of the piece were taken, the first of it.
    Took(usize),
    /// The sink failed, and took nothing.
    Failed,
}
