/// What the automaton tells the layers beside it (RFC 1661 section 4.4).
#[derive(Clone, Copy, Debug, PartialEq, Eq)]
pub enum LayerSignal {
    /// tlu: this layer is up.
    Up,
    /// tld: this layer is down.
    Down,
    /// tls: this layer needs the layer below.
    Started,
    /// tlf: this layer no longer needs the layer below.
    Finished,
    /// The protocol that the peer rejects (RFC 1661 section 5.7).
    ProtocolRejected(u16),
}
