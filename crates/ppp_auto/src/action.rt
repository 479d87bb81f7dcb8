/// An action of the event table, by its name in RFC 1661 section 4.4, with the table's short form.
#[derive(Clone, Copy, Debug, PartialEq, Eq)]
pub enum Action {
    /// tlu: This-Layer-Up.
    ThisLayerUp,
    /// tld: This-Layer-Down.
    ThisLayerDown,
    /// tls: This-Layer-Started.
    ThisLayerStarted,
    /// tlf: This-Layer-Finished.
    ThisLayerFinished,
    /// irc: Initialize-Restart-Count.
    InitializeRestartCount,
    /// zrc: Zero-Restart-Count.
    ZeroRestartCount,
    /// scr: Send-Configure-Request, a new one with the next Identifier.
    SendConfigureRequest,
    /// scr: Send-Configure-Request, the last one again with its Identifier.
    RepeatConfigureRequest,
    /// sca: Send-Configure-Ack.
    SendConfigureAck,
    /// scn: Send-Configure-Nak or Send-Configure-Reject.
    SendConfigureNak,
    /// str: Send-Terminate-Request.
    SendTerminateRequest,
    /// sta: Send-Terminate-Ack.
    SendTerminateAck,
    /// scj: Send-Code-Reject.
    SendCodeReject,
    /// ser: Send-Echo-Reply.
    SendEchoReply,
}
