//! The states of the automaton.

ghost use Rattle.std.specs.Prelude.{Some};
ghost use Rattle.ppp_auto.specs.AutoState.{state_name};

use std::fmt;

/// The ten states of the automaton (RFC 1661 section 4.2). A state prints as the standard names it.
#[derive(Clone, Copy, Debug, PartialEq, Eq)]
pub enum AutoState {
    /// State 0: the layer below is down, and no open was asked for.
    Initial,
    /// State 1: as Initial, but an open was asked for.
    Starting,
    /// State 2: the layer below is up, and no open was asked for.
    Closed,
    /// State 3: as Closed, but an open was asked for, and the negotiation failed or ended.
    Stopped,
    /// State 4: a Terminate-Request was sent, and then Closed follows.
    Closing,
    /// State 5: a Terminate-Request was sent, and then Stopped follows.
    Stopping,
    /// State 6: a Configure-Request was sent, and no Configure-Ack was sent or received.
    ReqSent,
    /// State 7: a Configure-Request was sent, and a Configure-Ack received.
    AckRcvd,
    /// State 8: a Configure-Request and a Configure-Ack were sent, and none was received.
    AckSent,
    /// State 9: a Configure-Ack was sent and one received.
    Opened,
}

impl fmt::Display for AutoState {
    ghost output = { λ state. Some (state_name state) };

    fn fmt<W: fmt::Write>(&self, f: &mut fmt::Formatter<W>) -> fmt::Result {
        f.write_str(match self {
            AutoState::Initial => "Initial",
            AutoState::Starting => "Starting",
            AutoState::Closed => "Closed",
            AutoState::Stopped => "Stopped",
            AutoState::Closing => "Closing",
            AutoState::Stopping => "Stopping",
            AutoState::ReqSent => "Req-Sent",
            AutoState::AckRcvd => "Ack-Rcvd",
            AutoState::AckSent => "Ack-Sent",
            AutoState::Opened => "Opened",
        })
    }
}
