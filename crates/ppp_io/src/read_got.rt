/// What a read answers.
#[derive(Clone, Copy, Debug, PartialEq, Eq)]
pub enum ReadGot {
    /// So many octets stand at the front of the buffer.
    Got(usize),
    /// Nothing is left.
    End,
    /// The source failed, and nothing was taken off.
    Failed,
}
