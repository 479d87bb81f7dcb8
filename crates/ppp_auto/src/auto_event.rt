/// What happens at an end without a packet (RFC 1661 section 4.3).
#[derive(Clone, Copy, Debug, PartialEq, Eq)]
pub enum AutoEvent {
    /// Up: the layer below is ready to carry packets.
    Up,
    /// Down: the layer below is no longer ready to carry packets.
    Down,
    /// Open: the administrator allows the link to be opened.
    AdminOpen,
    /// Close: the administrator doesn't allow it.
    AdminClose,
    /// TO+ or TO-: the restart timer fires.
    Timeout,
    /// RXJ+: the peer rejects this protocol or one of its codes, in a way that the automaton can bear.
    RejectedWell,
    /// RXJ-: the peer rejects this protocol or one of its codes, in a way that it can't bear.
    RejectedBadly,
}
