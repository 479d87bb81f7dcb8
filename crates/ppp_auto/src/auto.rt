//! One automaton without its table, and how a row of the event table changes it (RFC 1661 sections 4.1
//! and 4.6).

ghost use Rattle.std.specs.Prelude.{◌≡◌, ◌+◌, ◌%◌, ◌≤◌, [], length, min, if◌then◌else◌, true, IfSome, Some};
ghost use Rattle.std.specs.Option.{unwrap_or};
ghost use Rattle.ppp_packet.specs.Options.{written};
ghost use Rattle.ppp_auto.specs.Auto.{auto_seen, begins_anew, begun, IsAuto, last_id};
ghost use Rattle.ppp_auto.specs.Automaton.{CanKeep, counts_anew, GoesOn, is_nak, naks_counted, own_renewed};
ghost use Rattle.ppp_auto.specs.EventTable.{acks, cell_seen};
ghost use Rattle.ppp_auto.specs.Taken.{IsFit, taken_seen};
ghost use Rattle.ppp_auto.specs.declared.reply.TheConstants.{MAX_FAILURE};
ghost use Rattle.ppp_packet.specs.declared.opt_list.TheConstants.{MOST_LIST};

use crate::answer::Answer;
use crate::auto_state::AutoState;
use crate::event_table::Cell;
use crate::input::Input;
use crate::option_table::OptionTable;
use crate::reply::MAX_FAILURE;
use crate::taken::Taken;
use ppp_packet::{OptList, Options};

/// The least cap on a Code-Reject or an Echo-Reply, in octets.
pub const LEAST_CAP: u16 = 128;

/// The greatest cap on a Code-Reject or an Echo-Reply, in octets.
pub const MOST_CAP: u16 = 1500;

/// One automaton without its table.
#[derive(Drop)]
pub(crate) struct Auto {
    pub(crate) state: AutoState,
    /// The restart counter.
    pub(crate) restart: u8,
    /// The count of Configure-Naks since the last Configure-Ack.
    pub(crate) naks: u8,
    /// The Identifier of the next Configure-Request.
    pub(crate) next_id: u8,
    /// The Identifier of the next Terminate-Request or Code-Reject.
    pub(crate) second: u8,
    /// The list of the last Configure-Request, or of the first before it was sent.
    pub(crate) own: OptList,
    /// The list that was acknowledged last.
    pub(crate) peer: OptList,
    /// The octets that a Code-Reject or Echo-Reply may have.
    pub(crate) cap: u16,
}

impl Auto {
    /// An automaton in Initial whose Identifiers begin at `first_id`.
    pub(crate) fn begun<T: OptionTable>(table: &T, first_id: u8) -> Auto
        ensures value { auto_seen result ≡ begun (T.table table.now) first_id }
        ensures holds { IsAuto (T.sendable table.now) result }
    {
        Auto {
            state: AutoState::Initial,
            restart: 0,
            naks: 0,
            next_id: first_id,
            second: first_id,
            own: first_list(table, 0),
            peer: OptList::new(),
            cap: MOST_CAP,
        }
    }

    /// The Identifier of the last Configure-Request.
    pub(crate) fn last_id(&self) -> u8
        ensures { result ≡ last_id (auto_seen self.now) }
    {
        self.next_id.wrapping_sub(1)
    }

    /// Goes on by a cell, but for the Identifier of the next Terminate-Request or Code-Reject.
    pub(crate) fn go_on<T: OptionTable>(
        &mut self,
        table: &T,
        input: Input,
        cell: &Cell,
        taken: &Taken<'_, '_>,
        word: u64,
    )
        requires holds { IsAuto (T.sendable table.now) self.old }
        requires adapted { IfSome taken.now.adapted (T.sendable table.now) }
        requires short { CanKeep cell.now taken.now }
        ensures value { GoesOn (T.table table.now) input cell.now taken.now word self.old self.new }
        ensures holds { IsAuto (T.sendable table.now) self.new }
    {
        let asks = cell.asks();
        let anew = begins_anew(self.state);
        self.restart = cell.restart_after(self.restart);
        self.naks = self.count_naks(input, cell, taken);
        self.next_id = next_if(asks, self.next_id);
        renew(&mut self.own, table, asks, anew, &taken.adapted, word);
        keep(&mut self.peer, cell.acks(), &taken.theirs);
        self.state = cell.next;
    }

    /// The count of Configure-Naks after a row: it begins anew where the line came up, and with each Configure-Ack.
    fn count_naks(&self, input: Input, cell: &Cell, taken: &Taken<'_, '_>) -> u8
        ensures { result ≡ naks_counted self.now input cell.now taken.now }
    {
        if counts_anew(input, self.state) || cell.acks() {
            0
        } else if cell.refuses() && is_nak(&taken.answer) {
            one_more(self.naks)
        } else {
            self.naks
        }
    }
}

/// The next Identifier, where one was drawn.
pub(crate) fn next_if(drawn: bool, id: u8) -> u8
    ensures { result ≡ (if drawn then (id + 1) % 256 else id) }
{
    if drawn { id.wrapping_add(1) } else { id }
}

/// Whether Configure-Naks are counted anew.
fn counts_anew(input: Input, state: AutoState) -> bool
    ensures { result ≡ counts_anew input state }
{
    matches!(
        (input, state),
        (Input::Up, AutoState::Initial | AutoState::Starting)
    )
}

/// Whether the answer is a Configure-Nak.
fn is_nak(answer: &Option<Answer<'_>>) -> bool
    ensures { result ≡ is_nak answer.now }
{
    match answer {
        Some(answer) => answer.is_nak(),
        None => false,
    }
}

/// One Configure-Nak more, and no more than Max-Failure.
fn one_more(naks: u8) -> u8
    ensures { result ≡ min (naks + 1) MAX_FAILURE }
{
    if naks < MAX_FAILURE {
        naks + 1
    } else {
        MAX_FAILURE
    }
}

/// Whether a request that is sent begins a negotiation.
fn begins_anew(state: AutoState) -> bool
    ensures { result ≡ begins_anew state }
{
    matches!(
        state,
        AutoState::Starting | AutoState::Closed | AutoState::Stopped
    )
}

/// Makes the own list the one that a row asks for, where it asks for one: the first, or the adapted one.
fn renew<T: OptionTable>(
    own: &mut OptList,
    table: &T,
    asks: bool,
    anew: bool,
    adapted: &Option<OptList>,
    word: u64,
)
    requires own { T.sendable table.now own.old }
    requires adapted { IfSome adapted.now (T.sendable table.now) }
    ensures value { own.new ≡ own_renewed (T.table table.now) asks anew adapted.now own.old word }
    ensures sendable { T.sendable table.now own.new }
{
    if !asks {
        return;
    }
    if anew {
        *own = first_list(table, word);
    } else if let Some(list) = adapted {
        *own = list.copied();
    }
}

/// The list that is asked for first.
pub(crate) fn first_list<T: OptionTable>(table: &T, word: u64) -> OptList
    ensures value { result ≡ (T.table table.now).initial word }
    ensures sendable { T.sendable table.now result }
{
    table.initial(word)
}

/// Keeps the peer's list where it is acknowledged.
fn keep(peer: &mut OptList, acks: bool, theirs: &Option<Options<'_>>)
    requires { acks ≡ true → length (written (unwrap_or theirs.now [])) ≤ MOST_LIST }
    ensures { peer.new ≡ (if acks then unwrap_or theirs.now [] else peer.old) }
{
    if !acks {
        return;
    }
    *peer = match theirs {
        Some(options) => OptList::from_options(options).unwrap(),
        None => OptList::new(),
    };
}
