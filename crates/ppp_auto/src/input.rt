/// An event of the event table, by its name in RFC 1661 section 4.3, with the table's short form.
#[derive(Clone, Copy, Debug, PartialEq, Eq)]
pub enum Input {
    /// Up: the layer below is ready to carry packets.
    Up,
    /// Down: the layer below is no longer ready to carry packets.
    Down,
    /// Open: the administrator allows the link to be opened.
    Open,
    /// Close: the administrator doesn't allow it.
    Close,
    /// TO+: Timeout with counter above 0.
    TimeoutAboveZero,
    /// TO-: Timeout with counter expired.
    TimeoutExpired,
    /// RCR+: Receive-Configure-Request, a good one.
    ReceiveConfigureRequestGood,
    /// RCR-: Receive-Configure-Request, a bad one.
    ReceiveConfigureRequestBad,
    /// RCA: Receive-Configure-Ack of the last request.
    ReceiveConfigureAck,
    /// RCN: Receive-Configure-Nak or Receive-Configure-Reject of the last request.
    ReceiveConfigureNak,
    /// RTR: Receive-Terminate-Request.
    ReceiveTerminateRequest,
    /// RTA: Receive-Terminate-Ack.
    ReceiveTerminateAck,
    /// RUC: Receive-Unknown-Code.
    ReceiveUnknownCode,
    /// RXJ+: Receive-Code-Reject or Receive-Protocol-Reject, permitted.
    ReceiveRejectPermitted,
    /// RXJ-: Receive-Code-Reject or Receive-Protocol-Reject, catastrophic.
    ReceiveRejectCatastrophic,
    /// RXR: Receive-Echo-Request, Receive-Echo-Reply or Receive-Discard-Request.
    ReceiveEcho,
}
