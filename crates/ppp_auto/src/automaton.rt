//! The option negotiation automaton (RFC 1661 section 4).

ghost use Rattle.std.specs.Prelude.{◌≡◌, ◌≤◌, ◌<◌, ◌+◌, ◌++◌, [], length, map, if◌then◌else◌, true, Some, None, Option, IfSome, option_map};
ghost use Rattle.std.specs.Option.{unwrap_or};
ghost use Rattle.ppp_packet.specs.Options.{options_of};
ghost use Rattle.ppp_packet.specs.Packet.{packet_octets};
ghost use Rattle.ppp_packet.specs.PacketRef.{packet_seen};
ghost use Rattle.ppp_auto.specs.Auto.{auto_seen, begun, is_off, is_stopped, is_timed, IsCap, mine_of, peer_of};
ghost use Rattle.ppp_auto.specs.Automaton.{all_entries_by, answering, auto_after, auto_by_options, auto_by_packet, auto_by_row, auto_by_taken, command, entries_after, entries_by, entries_by_options, entries_by_packet, entries_by_row, entries_by_taken, entries_of, tells_rejected};
ghost use Rattle.ppp_auto.specs.Outbox.{entry_of};
ghost use Rattle.ppp_auto.specs.Packet.{packet_with, Request};
ghost use Rattle.ppp_auto.specs.Taken.{input_of, IsFit, judging, taken_as, taken_seen};
ghost use Rattle.ppp_auto.specs.declared.auto.TheConstants.{LEAST_CAP, MOST_CAP};
ghost use Rattle.ppp_auto.specs.declared.outbox.TheConstants.{SLOTS};

use crate::action::Action;
use crate::answer::Answer;
use crate::auto::{Auto, LEAST_CAP, MOST_CAP, next_if};
use crate::auto_event::AutoEvent;
use crate::auto_state::AutoState;
use crate::event_table::Cell;
use crate::input::Input;
use crate::judged::Judged;
use crate::layer_signal::LayerSignal;
use crate::option_table::OptionTable;
use crate::outbox::Outbox;
use crate::reply::is_spent;
use crate::taken::{Taken, cut, input_of, judge_request, packet_taken, request_taken};
use ppp_packet::{Code, OptList, PACKET_HEADER, PacketRef, read_options, read_packet};
use std::marker::Model;

/// One end of the negotiation of a protocol, over a table of its options. It is seen as the table and the definition's
/// automaton.
#[derive(Drop)]
pub struct Automaton<T: OptionTable> {
    table: T,
    auto: Auto,
}

impl<T: OptionTable> Model for Automaton<T> {
    ghost use Rattle.ppp_auto.specs.Auto.{Auto};

    ghost Value = { T × Auto };

    ghost use Rattle.ppp_auto.specs.Auto.{auto_seen, IsAuto};

    ghost view = { λ m. (m.table, auto_seen m.auto) };

    ghost invariant = { λ m. IsAuto (T.sendable m.table) m.auto };
}

impl<T: OptionTable> Automaton<T> {
    /// An automaton in Initial whose Identifiers begin at `first_id`. A Code-Reject or Echo-Reply has at most 1,500
    /// octets.
    pub fn new(table: T, first_id: u8) -> Automaton<T>
        ensures table { result.0 ≡ table }
        ensures auto { result.1 ≡ begun (T.table table) first_id }
    {
        let auto = Auto::begun(&table, first_id);
        Automaton { table, auto }
    }

    /// Is as a new one over the same table, with Identifiers that begin at `first_id`.
    pub fn reset(&mut self, first_id: u8)
        ensures table { self.new.0 ≡ self.old.0 }
        ensures auto { self.new.1 ≡ begun (T.table self.old.0) first_id }
    {
        self.auto = Auto::begun(&self.table, first_id);
    }

    /// Does the row of an event without a packet, and puts what it sends and tells into `out`, which is emptied first.
    /// A word is what a table draws from where a new list is asked for.
    pub fn event(&mut self, ev: AutoEvent, word: u64, out: &mut Outbox)
        ensures table { self.new.0 ≡ self.old.0 }
        ensures auto { self.new.1 ≡ (command (T.table self.old.0) self.old.1 ev word).auto }
        ensures out { out.new ≡ entries_of (command (T.table self.old.0) self.old.1 ev word) }
    {
        out.clear();
        let input = input_of(&self.auto, ev);
        self.do_row(input, &Taken::plain(Some(input), 0), word, out);
    }

    /// Takes in the octets of a packet, and puts what is sent and told into `out`, which is emptied first. Octets that
    /// are no packet of the protocol change nothing, and in Initial and Starting none does.
    pub fn packet(&mut self, bytes: &[u8], word: u64, out: &mut Outbox)
        ensures table { self.new.0 ≡ self.old.0 }
        ensures auto { self.new.1 ≡ auto_after (T.table self.old.0) self.old.1 bytes.now word }
        ensures out { out.new ≡ entries_after (T.table self.old.0) self.old.1 bytes.now word }
        ensures off { is_off self.old.1.state ≡ true → self.new.1 ≡ self.old.1 }
        ensures quiet { is_off self.old.1.state ≡ true → out.new ≡ [] }
    {
        out.clear();
        if is_off(self.auto.state) {
            return;
        }
        if let Some(packet) = read_packet(bytes) {
            let whole = &bytes[..PACKET_HEADER + packet.rest.len()];
            self.take(packet, whole, word, out);
        }
    }

    /// Takes in a packet of these octets. One whose options can't be read changes nothing.
    fn take(&mut self, packet: PacketRef<'_>, whole: &[u8], word: u64, out: &mut Outbox)
        requires empty { out.old ≡ [] }
        requires whole { whole.now ≡ packet_octets packet.code packet.id packet.rest.now }
        ensures table { self.new.0 ≡ self.old.0 }
        ensures auto { self.new.1
            ≡ auto_by_packet (T.table self.old.0) self.old.1 packet.entry word }
        ensures out { out.new
            ≡ entries_by_packet (T.table self.old.0) self.old.1 packet.entry word }
    {
        if packet.code == Code::ConfigureRequest.number() {
            self.take_request(packet.id, packet.rest, word, out);
        } else if let Some(taken) = packet_taken(&self.table, &self.auto, packet, whole, word) {
            self.act(&taken, word, out);
        }
    }

    /// Takes in a Configure-Request. One whose options can't be read changes nothing.
    fn take_request(&mut self, id: u8, rest: &[u8], word: u64, out: &mut Outbox)
        requires { out.old ≡ [] }
        ensures table { self.new.0 ≡ self.old.0 }
        ensures auto { self.new.1
            ≡ auto_by_options (T.table self.old.0) self.old.1 id rest.now word }
        ensures out { out.new
            ≡ entries_by_options (T.table self.old.0) self.old.1 id rest.now word }
    {
        let Some(theirs) = read_options(rest) else {
            return;
        };
        let mut judged = Judged::new(is_spent(self.auto.naks));
        judge_request(&self.table, &self.auto, &mut judged, &theirs, word);
        let taken = request_taken(&self.table, &self.auto, &judged, id, &theirs, rest, word);
        self.act(&taken, word, out);
    }

    /// Does what was taken in: its row, if it is an event of the table.
    fn act(&mut self, taken: &Taken<'_, '_>, word: u64, out: &mut Outbox)
        requires empty { out.old ≡ [] }
        requires fit { IsFit (T.sendable self.old.0) (taken_seen self.old.1.own taken.now) }
        ensures table { self.new.0 ≡ self.old.0 }
        ensures auto { self.new.1 ≡ auto_by_taken (T.table self.old.0) self.old.1 taken.now word }
        ensures out { out.new ≡ entries_by_taken (T.table self.old.0) self.old.1 taken.now word }
    {
        match taken.input {
            Some(input) => self.do_row(input, taken, word, out),
            None => tell_rejected(taken.rejects, out),
        }
    }

    /// Does the row of an event.
    fn do_row(&mut self, input: Input, taken: &Taken<'_, '_>, word: u64, out: &mut Outbox)
        requires empty { out.old ≡ [] }
        requires input { taken.now.input ≡ Some input }
        requires fit { IsFit (T.sendable self.old.0) (taken_seen self.old.1.own taken.now) }
        ensures table { self.new.0 ≡ self.old.0 }
        ensures auto { self.new.1
            ≡ auto_by_row (T.table self.old.0) self.old.1 input taken.now word }
        ensures out { out.new
            ≡ entries_by_row (T.table self.old.0) self.old.1 input taken.now word }
    {
        let cell = Cell::of(input, self.auto.state);
        self.auto.go_on(&self.table, input, &cell, taken, word);
        emit_all(out, cell.actions, &self.auto, taken);
        self.auto.second = next_if(cell.draws(), self.auto.second);
    }

    /// Sets how many octets a Code-Reject or an Echo-Reply may have, from 128 to 1,500.
    pub fn set_cap(&mut self, cap: u16)
        requires low { LEAST_CAP ≤ cap }
        requires high { cap ≤ MOST_CAP }
        ensures table { self.new.0 ≡ self.old.0 }
        ensures auto { self.new.1 ≡ record self.old.1 { cap = cap } }
    {
        self.auto.cap = cap;
    }

    /// The table.
    pub fn table(&self) -> &T
        ensures { result.now ≡ self.now.0 }
    {
        &self.table
    }

    /// The state.
    pub fn state(&self) -> AutoState
        ensures { result ≡ self.now.1.state }
    {
        self.auto.state
    }

    /// Whether the restart timer is on (RFC 1661 section 4.4): exactly in Closing, Stopping, Req-Sent, Ack-Rcvd and
    /// Ack-Sent.
    pub fn timer_on(&self) -> bool
        ensures { result ≡ is_timed self.now.1.state }
    {
        matches!(
            self.auto.state,
            AutoState::Closing
                | AutoState::Stopping
                | AutoState::ReqSent
                | AutoState::AckRcvd
                | AutoState::AckSent
        )
    }

    /// The options of the last request, which the peer acknowledged: None exactly outside Ack-Rcvd and Opened.
    pub fn mine(&self) -> Option<&OptList>
        ensures { option_map (λ list. list.now) result ≡ mine_of self.now.1 }
    {
        match self.auto.state {
            AutoState::AckRcvd | AutoState::Opened => Some(&self.auto.own),
            _ => None,
        }
    }

    /// The options that this end acknowledged last: None exactly outside Ack-Sent and Opened.
    pub fn peer(&self) -> Option<&OptList>
        ensures { option_map (λ list. list.now) result ≡ peer_of self.now.1 }
    {
        match self.auto.state {
            AutoState::AckSent | AutoState::Opened => Some(&self.auto.peer),
            _ => None,
        }
    }
}

/// Whether no packet is taken in.
fn is_off(state: AutoState) -> bool
    ensures { result ≡ is_off state }
{
    matches!(state, AutoState::Initial | AutoState::Starting)
}

/// Tells of the protocol that the peer rejects, if it rejects one.
fn tell_rejected(rejects: Option<u16>, out: &mut Outbox)
    requires { out.old ≡ [] }
    ensures { out.new ≡ map entry_of (tells_rejected rejects) }
{
    if let Some(protocol) = rejects {
        out.tell(LayerSignal::ProtocolRejected(protocol));
    }
}

/// Puts the entries of a cell's actions into an outbox.
fn emit_all(out: &mut Outbox, actions: &[Action], auto: &Auto, taken: &Taken<'_, '_>)
    requires empty { out.old ≡ [] }
    requires few { length actions.now ≤ SLOTS }
    requires cap { IsCap auto.now.cap }
    ensures { out.new ≡ all_entries_by auto.now taken.now actions.now }
{
    'actions: for action in actions {
        emit(out, *action, auto, taken);
    }
}

/// Puts the entry of an action into an outbox, if it has one.
fn emit(out: &mut Outbox, action: Action, auto: &Auto, taken: &Taken<'_, '_>)
    requires few { length out.old < SLOTS }
    requires cap { IsCap auto.now.cap }
    ensures entries { out.new ≡ out.old ++ entries_by auto.now taken.now action }
    ensures few { length out.new ≤ length out.old + 1 }
{
    match action {
        Action::ThisLayerUp => out.tell(LayerSignal::Up),
        Action::ThisLayerDown => out.tell(LayerSignal::Down),
        Action::ThisLayerStarted => out.tell(LayerSignal::Started),
        Action::ThisLayerFinished => out.tell(LayerSignal::Finished),
        Action::InitializeRestartCount | Action::ZeroRestartCount => {}
        Action::SendConfigureRequest | Action::RepeatConfigureRequest => {
            out.send(Code::ConfigureRequest, auto.last_id(), auto.own.octets());
        }
        Action::SendConfigureAck | Action::SendConfigureNak | Action::SendEchoReply => {
            send_answer(out, &taken.answer);
        }
        Action::SendTerminateRequest => out.send(Code::TerminateRequest, auto.second, &[]),
        Action::SendTerminateAck => out.send(Code::TerminateAck, taken.id, &[]),
        Action::SendCodeReject => {
            let data = cut(taken.whole, usize::from(auto.cap) - PACKET_HEADER);
            out.send(Code::CodeReject, auto.second, data);
        }
    }
}

/// Puts an answer into an outbox, if there is one.
fn send_answer(out: &mut Outbox, answer: &Option<Answer<'_>>)
    requires { length out.old < SLOTS }
    ensures entries { out.new ≡ out.old ++ map entry_of (answering answer.now) }
    ensures few { length out.new ≤ length out.old + 1 }
{
    if let Some(answer) = answer {
        answer.send(out);
    }
}
