//! The event table (RFC 1661 section 4.1).

ghost use Rattle.std.specs.Prelude.{◌≡◌};
ghost use Rattle.ppp_auto.specs.EventTable.{cell_seen, goes, stays, cell_of, on_up, on_down, on_open, on_close, on_timeout_above_zero, on_timeout_expired, on_request_good, on_request_bad, on_ack, on_nak, on_terminate_request, on_terminate_ack, on_unknown_code, on_rejected_well, on_rejected_badly, on_echo, asks, acks, refuses, draws, most_sent, is_drawing, restart_at, restart_after};

use crate::action::Action::{
    self, InitializeRestartCount as Irc, RepeatConfigureRequest as ScrAgain, SendCodeReject as Scj,
    SendConfigureAck as Sca, SendConfigureNak as Scn, SendConfigureRequest as Scr,
    SendEchoReply as Ser, SendTerminateAck as Sta, SendTerminateRequest as Str,
    ThisLayerDown as Tld, ThisLayerFinished as Tlf, ThisLayerStarted as Tls, ThisLayerUp as Tlu,
    ZeroRestartCount as Zrc,
};
use crate::auto_state::AutoState::{
    self, AckRcvd, AckSent, Closed, Closing, Initial, Opened, ReqSent, Starting, Stopped, Stopping,
};
use crate::input::Input;

/// Max-Configure: how often a Configure-Request is sent (RFC 1661 section 4.6).
pub(crate) const MAX_CONFIGURE: u8 = 10;

/// Max-Terminate: how often a Terminate-Request is sent (RFC 1661 section 4.6).
pub(crate) const MAX_TERMINATE: u8 = 2;

/// A cell of the event table: its actions, in order, and the next state.
#[derive(Clone, Copy)]
pub(crate) struct Cell {
    pub(crate) actions: &'static [Action],
    pub(crate) next: AutoState,
}

impl Cell {
    /// The cell of an event and a state.
    pub(crate) fn of(input: Input, state: AutoState) -> Cell
        ensures { cell_seen result ≡ cell_of input state }
    {
        match input {
            Input::Up => at_up(state),
            Input::Down => at_down(state),
            Input::Open => at_open(state),
            Input::Close => at_close(state),
            Input::TimeoutAboveZero => at_timeout_above_zero(state),
            Input::TimeoutExpired => at_timeout_expired(state),
            Input::ReceiveConfigureRequestGood => at_request_good(state),
            Input::ReceiveConfigureRequestBad => at_request_bad(state),
            Input::ReceiveConfigureAck => at_ack(state),
            Input::ReceiveConfigureNak => at_nak(state),
            Input::ReceiveTerminateRequest => at_terminate_request(state),
            Input::ReceiveTerminateAck => at_terminate_ack(state),
            Input::ReceiveUnknownCode => at_unknown_code(state),
            Input::ReceiveRejectPermitted => at_rejected_well(state),
            Input::ReceiveRejectCatastrophic => at_rejected_badly(state),
            Input::ReceiveEcho => at_echo(state),
        }
    }

    /// Whether a new Configure-Request is sent.
    pub(crate) fn asks(&self) -> bool
        ensures { result ≡ asks (cell_seen self.now).actions }
    {
        self.actions.contains(&Scr)
    }

    /// Whether a Configure-Ack is sent.
    pub(crate) fn acks(&self) -> bool
        ensures { result ≡ acks (cell_seen self.now).actions }
    {
        self.actions.contains(&Sca)
    }

    /// Whether a Configure-Nak or Configure-Reject is sent.
    pub(crate) fn refuses(&self) -> bool
        ensures { result ≡ refuses (cell_seen self.now).actions }
    {
        self.actions.contains(&Scn)
    }

    /// Whether a Terminate-Request or a Code-Reject is sent.
    pub(crate) fn draws(&self) -> bool
        ensures { result ≡ draws (cell_seen self.now).actions }
    {
        self.actions.iter().any(|action| is_drawing(*action))
    }

    /// Where the restart counter begins anew: at Max-Terminate where a Terminate-Request is sent, else at Max-Configure.
    fn most(&self) -> u8
        ensures { result ≡ most_sent (cell_seen self.now).actions }
    {
        if self.actions.contains(&Str) {
            MAX_TERMINATE
        } else {
            MAX_CONFIGURE
        }
    }

    /// The restart counter after the actions.
    pub(crate) fn restart_after(&self, restart: u8) -> u8
        ensures { result ≡ restart_after (cell_seen self.now).actions restart }
    {
        let most = self.most();
        self.actions
            .iter()
            .fold(restart, |left, action| restart_at(most, left, *action))
    }
}

/// Whether the counter of the other packets is drawn from.
fn is_drawing(action: Action) -> bool
    ensures { result ≡ is_drawing action }
{
    matches!(action, Str | Scj)
}

/// The restart counter after an action.
fn restart_at(most: u8, restart: u8, action: Action) -> u8
    ensures { result ≡ restart_at most restart action }
{
    match action {
        Irc => most,
        Zrc => 0,
        Scr | ScrAgain | Str => restart.saturating_sub(1),
        _ => restart,
    }
}

/// These actions.
fn goes(actions: &'static [Action], next: AutoState) -> Cell
    ensures { cell_seen result ≡ goes actions.now next }
{
    Cell { actions, next }
}

/// No action, and the same state.
fn stays(state: AutoState) -> Cell
    ensures { cell_seen result ≡ stays state }
{
    goes(&[], state)
}

fn at_up(state: AutoState) -> Cell
    ensures { cell_seen result ≡ on_up state }
{
    match state {
        Initial => goes(&[], Closed),
        Starting => goes(&[Irc, Scr], ReqSent),
        _ => stays(state),
    }
}

fn at_down(state: AutoState) -> Cell
    ensures { cell_seen result ≡ on_down state }
{
    match state {
        Closed => goes(&[], Initial),
        Stopped => goes(&[Tls], Starting),
        Closing => goes(&[], Initial),
        Stopping => goes(&[], Starting),
        ReqSent => goes(&[], Starting),
        AckRcvd => goes(&[], Starting),
        AckSent => goes(&[], Starting),
        Opened => goes(&[Tld], Starting),
        _ => stays(state),
    }
}

fn at_open(state: AutoState) -> Cell
    ensures { cell_seen result ≡ on_open state }
{
    match state {
        Initial => goes(&[Tls], Starting),
        Closed => goes(&[Irc, Scr], ReqSent),
        Closing => goes(&[], Stopping),
        _ => stays(state),
    }
}

fn at_close(state: AutoState) -> Cell
    ensures { cell_seen result ≡ on_close state }
{
    match state {
        Starting => goes(&[Tlf], Initial),
        Stopped => goes(&[], Closed),
        Stopping => goes(&[], Closing),
        ReqSent => goes(&[Irc, Str], Closing),
        AckRcvd => goes(&[Irc, Str], Closing),
        AckSent => goes(&[Irc, Str], Closing),
        Opened => goes(&[Tld, Irc, Str], Closing),
        _ => stays(state),
    }
}

fn at_timeout_above_zero(state: AutoState) -> Cell
    ensures { cell_seen result ≡ on_timeout_above_zero state }
{
    match state {
        Closing => goes(&[Str], Closing),
        Stopping => goes(&[Str], Stopping),
        ReqSent => goes(&[ScrAgain], ReqSent),
        AckRcvd => goes(&[Scr], ReqSent),
        AckSent => goes(&[ScrAgain], AckSent),
        _ => stays(state),
    }
}

fn at_timeout_expired(state: AutoState) -> Cell
    ensures { cell_seen result ≡ on_timeout_expired state }
{
    match state {
        Closing => goes(&[Tlf], Closed),
        Stopping => goes(&[Tlf], Stopped),
        ReqSent => goes(&[Tlf], Stopped),
        AckRcvd => goes(&[Tlf], Stopped),
        AckSent => goes(&[Tlf], Stopped),
        _ => stays(state),
    }
}

fn at_request_good(state: AutoState) -> Cell
    ensures { cell_seen result ≡ on_request_good state }
{
    match state {
        Closed => goes(&[Sta], Closed),
        Stopped => goes(&[Irc, Scr, Sca], AckSent),
        ReqSent => goes(&[Sca], AckSent),
        AckRcvd => goes(&[Sca, Tlu], Opened),
        AckSent => goes(&[Sca], AckSent),
        Opened => goes(&[Tld, Scr, Sca], AckSent),
        _ => stays(state),
    }
}

fn at_request_bad(state: AutoState) -> Cell
    ensures { cell_seen result ≡ on_request_bad state }
{
    match state {
        Closed => goes(&[Sta], Closed),
        Stopped => goes(&[Irc, Scr, Scn], ReqSent),
        ReqSent => goes(&[Scn], ReqSent),
        AckRcvd => goes(&[Scn], AckRcvd),
        AckSent => goes(&[Scn], ReqSent),
        Opened => goes(&[Tld, Scr, Scn], ReqSent),
        _ => stays(state),
    }
}

fn at_ack(state: AutoState) -> Cell
    ensures { cell_seen result ≡ on_ack state }
{
    match state {
        Closed => goes(&[Sta], Closed),
        Stopped => goes(&[Sta], Stopped),
        ReqSent => goes(&[Irc], AckRcvd),
        AckRcvd => goes(&[Scr], ReqSent),
        AckSent => goes(&[Irc, Tlu], Opened),
        Opened => goes(&[Tld, Scr], ReqSent),
        _ => stays(state),
    }
}

fn at_nak(state: AutoState) -> Cell
    ensures { cell_seen result ≡ on_nak state }
{
    match state {
        Closed => goes(&[Sta], Closed),
        Stopped => goes(&[Sta], Stopped),
        ReqSent => goes(&[Irc, Scr], ReqSent),
        AckRcvd => goes(&[Scr], ReqSent),
        AckSent => goes(&[Irc, Scr], AckSent),
        Opened => goes(&[Tld, Scr], ReqSent),
        _ => stays(state),
    }
}

fn at_terminate_request(state: AutoState) -> Cell
    ensures { cell_seen result ≡ on_terminate_request state }
{
    match state {
        Closed => goes(&[Sta], Closed),
        Stopped => goes(&[Sta], Stopped),
        Closing => goes(&[Sta], Closing),
        Stopping => goes(&[Sta], Stopping),
        ReqSent => goes(&[Sta], ReqSent),
        AckRcvd => goes(&[Sta], ReqSent),
        AckSent => goes(&[Sta], ReqSent),
        Opened => goes(&[Tld, Zrc, Sta], Stopping),
        _ => stays(state),
    }
}

fn at_terminate_ack(state: AutoState) -> Cell
    ensures { cell_seen result ≡ on_terminate_ack state }
{
    match state {
        Closing => goes(&[Tlf], Closed),
        Stopping => goes(&[Tlf], Stopped),
        AckRcvd => goes(&[], ReqSent),
        Opened => goes(&[Tld, Scr], ReqSent),
        _ => stays(state),
    }
}

fn at_unknown_code(state: AutoState) -> Cell
    ensures { cell_seen result ≡ on_unknown_code state }
{
    match state {
        Initial => stays(state),
        Starting => stays(state),
        _ => goes(&[Scj], state),
    }
}

fn at_rejected_well(state: AutoState) -> Cell
    ensures { cell_seen result ≡ on_rejected_well state }
{
    match state {
        AckRcvd => goes(&[], ReqSent),
        _ => stays(state),
    }
}

fn at_rejected_badly(state: AutoState) -> Cell
    ensures { cell_seen result ≡ on_rejected_badly state }
{
    match state {
        Closed => goes(&[Tlf], Closed),
        Stopped => goes(&[Tlf], Stopped),
        Closing => goes(&[Tlf], Closed),
        Stopping => goes(&[Tlf], Stopped),
        ReqSent => goes(&[Tlf], Stopped),
        AckRcvd => goes(&[Tlf], Stopped),
        AckSent => goes(&[Tlf], Stopped),
        Opened => goes(&[Tld, Irc, Str], Stopping),
        _ => stays(state),
    }
}

fn at_echo(state: AutoState) -> Cell
    ensures { cell_seen result ≡ on_echo state }
{
    match state {
        Opened => goes(&[Ser], Opened),
        _ => stays(state),
    }
}
