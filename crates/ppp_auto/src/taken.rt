//! What a packet, or an event without one, is to an automaton (RFC 1661 sections 4.3 and 5).

ghost use Rattle.std.specs.Prelude.{◌≡◌, ◌≢◌, if◌then◌else◌, ◌+◌, ◌-◌, ◌≤◌, List, [], length, take, Some, Option, None, option_map};
ghost use Rattle.ppp_packet.specs.declared.code.Code.TheVariants.{ConfigureRequest};
ghost use Rattle.ppp_packet.specs.Code.{code_number};
ghost use Rattle.ppp_packet.specs.ConfigOption.{ConfigOption};
ghost use Rattle.ppp_packet.specs.Options.{written};
ghost use Rattle.ppp_packet.specs.Packet.{packet_octets};
ghost use Rattle.ppp_packet.specs.PacketRef.{packet_seen};
ghost use Rattle.ppp_packet.specs.OptRef.{option_seen};
ghost use Rattle.ppp_auto.specs.Auto.{auto_seen, is_idle, IsCap};
ghost use Rattle.ppp_auto.specs.Packet.{Request, Nak, Reject};
ghost use Rattle.ppp_auto.specs.Judged.{IsJudged};
ghost use Rattle.ppp_auto.specs.Reply.{is_spent, is_sublist, same_list, same_option, after_one};
ghost use Rattle.ppp_auto.specs.Taken.{ack_taken, AnswersEcho, code_reject_input, input_of, is_ack_of, is_extended_code, is_nak_of, is_reject_of, IsAdapting, IsExtended, IsKind, IsKindOfRaw, IsOther, IsPlain, IsRequestSettled, IsUnknown, rejected_protocol, taken_seen};

use crate::answer::Answer;
use crate::auto::{Auto, first_list};
use crate::auto_event::AutoEvent;
use crate::auto_state::AutoState;
use crate::input::Input;
use crate::judged::Judged;
use crate::option_table::OptionTable;
use crate::reply::reply_to;
use byteorder::{BigEndian, ByteOrder};
use ppp_packet::{Code, OptList, OptRef, Options, PACKET_HEADER, PacketRef, read_options};

/// The octets of a Magic-Number.
pub(crate) const MAGIC: usize = 4;

/// The octets of a protocol's number.
const PROTOCOL: usize = 2;

/// What comes in, to an automaton.
#[derive(Drop)]
pub(crate) struct Taken<'p, 'j> {
    /// The event of the table, if it is one.
    pub(crate) input: Option<Input>,
    /// The Identifier of the packet.
    pub(crate) id: u8,
    /// What answers it, where the row sends an answer.
    pub(crate) answer: Option<Answer<'j>>,
    /// The own list that it leads to, where the row asks anew: None where that is the last one.
    pub(crate) adapted: Option<OptList>,
    /// The options of a Configure-Request.
    pub(crate) theirs: Option<Options<'p>>,
    /// The octets of the packet, for a Code-Reject.
    pub(crate) whole: &'p [u8],
    /// The protocol that the peer rejects.
    pub(crate) rejects: Option<u16>,
}

impl<'p, 'j> Taken<'p, 'j> {
    /// What has no more to it than an Identifier.
    pub(crate) fn plain(input: Option<Input>, id: u8) -> Taken<'p, 'j>
        ensures { IsPlain input id result }
    {
        Taken {
            input,
            id,
            answer: None,
            adapted: None,
            theirs: None,
            whole: &[],
            rejects: None,
        }
    }
}

/// What an event without a packet is.
pub(crate) fn input_of(auto: &Auto, event: AutoEvent) -> Input
    ensures { result ≡ input_of (auto_seen auto.now) event }
{
    match event {
        AutoEvent::Up => Input::Up,
        AutoEvent::Down => Input::Down,
        AutoEvent::AdminOpen => Input::Open,
        AutoEvent::AdminClose => Input::Close,
        AutoEvent::Timeout if 0 < auto.restart => Input::TimeoutAboveZero,
        AutoEvent::Timeout => Input::TimeoutExpired,
        AutoEvent::RejectedWell => Input::ReceiveRejectPermitted,
        AutoEvent::RejectedBadly => Input::ReceiveRejectCatastrophic,
    }
}

/// Judges the options of a Configure-Request.
pub(crate) fn judge_request<T: OptionTable>(
    table: &T,
    auto: &Auto,
    judged: &mut Judged,
    theirs: &Options<'_>,
    word: u64,
)
    requires { IsJudged (is_spent auto.now.naks) [] [] [] judged.old }
    ensures { IsRequestSettled (T.table table.now) auto.now theirs.now word judged.new }
{
    if auto.state == AutoState::Stopped {
        judged.settle(table, &first_list(table, word), theirs, word);
    } else {
        judged.settle(table, &auto.own, theirs, word);
    }
}

/// What a Configure-Request is whose options lie in these octets, once they were judged.
pub(crate) fn request_taken<'p, 'j, T: OptionTable>(
    table: &T,
    auto: &Auto,
    judged: &'j Judged,
    id: u8,
    theirs: &Options<'p>,
    octets: &'j [u8],
    word: u64,
) -> Taken<'p, 'j>
    requires sendable { T.sendable table.now auto.now.own }
    requires octets { octets.now ≡ written theirs.now }
    requires settled { IsRequestSettled (T.table table.now) auto.now theirs.now word judged.now }
    ensures { IsKind (T.table table.now) auto.now (Request id theirs.now) word result }
{
    let reply = reply_to(table, auto, judged, id, theirs, octets, word);
    Taken {
        answer: Some(reply.answer),
        theirs: Some(theirs.copied()),
        ..Taken::plain(Some(reply.input), id)
    }
}

/// What a packet is that is no Configure-Request: None where its options can't be read. `whole` has its octets.
pub(crate) fn packet_taken<'a, T: OptionTable>(
    table: &T,
    auto: &Auto,
    packet: PacketRef<'a>,
    whole: &'a [u8],
    word: u64,
) -> Option<Taken<'a, 'a>>
    requires other { packet.code ≢ code_number ConfigureRequest }
    requires whole { whole.now ≡ packet_octets packet.code packet.id packet.rest.now }
    requires cap { IsCap auto.now.cap }
    ensures { IsKindOfRaw (T.table table.now) auto.now (packet_seen packet.entry) word result }
{
    let code = packet.code;
    if code == Code::ConfigureAck.number() {
        Some(ack_taken(auto, packet.id, &read_options(packet.rest)?))
    } else if code == Code::ConfigureNak.number() {
        Some(nak_taken(table, auto, packet.id, &read_options(packet.rest)?, word))
    } else if code == Code::ConfigureReject.number() {
        Some(reject_taken(table, auto, packet.id, &read_options(packet.rest)?, word))
    } else {
        Some(other_taken(table, auto, packet, whole))
    }
}

/// What a Configure-Ack is.
fn ack_taken<'a>(auto: &Auto, id: u8, options: &Options<'_>) -> Taken<'a, 'a>
    ensures { taken_seen auto.now.own result ≡ ack_taken (auto_seen auto.now) id options.now }
{
    if is_ack_of(auto, id, options) {
        Taken::plain(Some(Input::ReceiveConfigureAck), id)
    } else {
        Taken::plain(None, id)
    }
}

/// What a Configure-Nak is.
fn nak_taken<'a, T: OptionTable>(
    table: &T,
    auto: &Auto,
    id: u8,
    options: &Options<'_>,
    word: u64,
) -> Taken<'a, 'a>
    ensures { IsKind (T.table table.now) auto.now (Nak id options.now) word result }
{
    if !is_nak_of(auto, id, options) {
        return Taken::plain(None, id);
    }
    adapting(id, table.adapt_nak(&auto.own, options, word))
}

/// What a Configure-Reject is.
fn reject_taken<'a, T: OptionTable>(
    table: &T,
    auto: &Auto,
    id: u8,
    options: &Options<'_>,
    word: u64,
) -> Taken<'a, 'a>
    ensures { IsKind (T.table table.now) auto.now (Reject id options.now) word result }
{
    if !is_reject_of(auto, id, options) {
        return Taken::plain(None, id);
    }
    adapting(id, table.adapt_reject(&auto.own, options, word))
}

/// A Configure-Nak or Configure-Reject of the last request, which leads to that own list.
fn adapting<'a>(id: u8, list: OptList) -> Taken<'a, 'a>
    ensures { IsAdapting id list result }
{
    let mut taken = Taken::plain(Some(Input::ReceiveConfigureNak), id);
    taken.adapted = Some(list);
    taken
}

/// Whether no request is under way, so that the last one isn't looked at.
fn is_idle(state: AutoState) -> bool
    ensures { result ≡ is_idle state }
{
    matches!(state, AutoState::Closed | AutoState::Stopped)
}

/// Whether a Configure-Ack repeats the last request.
fn is_ack_of(auto: &Auto, id: u8, options: &Options<'_>) -> bool
    ensures { result ≡ is_ack_of (auto_seen auto.now) id options.now }
{
    is_idle(auto.state) || (id == auto.last_id() && is_same_list(options, &auto.own))
}

/// Whether a list is the own list.
fn is_same_list(options: &Options<'_>, own: &OptList) -> bool
    ensures { result ≡ same_list options.now own.now }
{
    own.same_as(options)
}

/// Whether a Configure-Nak answers the last request.
fn is_nak_of(auto: &Auto, id: u8, options: &Options<'_>) -> bool
    ensures { result ≡ is_nak_of (auto_seen auto.now) id options.now }
{
    !options.is_empty() && (is_idle(auto.state) || id == auto.last_id())
}

/// Whether a Configure-Reject answers the last request.
fn is_reject_of(auto: &Auto, id: u8, options: &Options<'_>) -> bool
    ensures { result ≡ is_reject_of (auto_seen auto.now) id options.now }
{
    !options.is_empty()
        && (is_idle(auto.state)
            || (id == auto.last_id() && is_sublist(options, &auto.own.options())))
}

/// Whether the first list is a sublist of the second, in order.
fn is_sublist(part: &Options<'_>, list: &Options<'_>) -> bool
    ensures { result ≡ is_sublist part.now list.now }
{
    let mut wanted = part.copied();
    let mut left = list.copied();
    'options: while let Some((option, behind)) = left.split_first() {
        wanted = without_first(&wanted, &option);
        left = behind;
    }
    wanted.is_empty()
}

/// A list without its first option, where that is this one.
fn without_first<'a>(list: &Options<'a>, option: &OptRef<'_>) -> Options<'a>
    ensures { result ≡ after_one list.now (option_seen option.now) }
{
    match list.split_first() {
        Some((first, behind)) if is_same(&first, option) => behind,
        _ => list.copied(),
    }
}

/// Whether two options are the same.
fn is_same(one: &OptRef<'_>, other: &OptRef<'_>) -> bool
    ensures { result ≡ same_option (option_seen one.now) (option_seen other.now) }
{
    one.kind == other.kind && one.body == other.body
}

/// What a packet is that carries no options.
fn other_taken<'a, T: OptionTable>(
    table: &T,
    auto: &Auto,
    packet: PacketRef<'a>,
    whole: &'a [u8],
) -> Taken<'a, 'a>
    requires whole { whole.now ≡ packet_octets packet.code packet.id packet.rest.now }
    requires cap { IsCap auto.now.cap }
    ensures { IsOther (T.table table.now) auto.now (packet_seen packet.entry) result }
{
    let code = packet.code;
    if code == Code::TerminateRequest.number() {
        Taken::plain(Some(Input::ReceiveTerminateRequest), packet.id)
    } else if code == Code::TerminateAck.number() {
        Taken::plain(Some(Input::ReceiveTerminateAck), packet.id)
    } else if code == Code::CodeReject.number() {
        Taken::plain(code_reject_input(packet.rest), packet.id)
    } else if T::EXTENDED && is_extended_code(code) {
        extended_taken(table, auto, packet)
    } else {
        unknown_taken(packet.id, whole)
    }
}

/// What a Code-Reject is, by its data: None where it has none.
fn code_reject_input(rest: &[u8]) -> Option<Input>
    ensures { result ≡ code_reject_input rest.now }
{
    let code = *rest.first()?;
    if Code::ConfigureRequest.number() <= code && code <= Code::CodeReject.number() {
        Some(Input::ReceiveRejectCatastrophic)
    } else {
        Some(Input::ReceiveRejectPermitted)
    }
}

/// Whether the code is one that only some tables know.
fn is_extended_code(code: u8) -> bool
    ensures { result ≡ is_extended_code code }
{
    Code::ProtocolReject.number() <= code && code <= Code::DiscardRequest.number()
}

/// What a packet is with a code that isn't known.
fn unknown_taken<'a>(id: u8, whole: &'a [u8]) -> Taken<'a, 'a>
    ensures { IsUnknown id whole.now result }
{
    let mut taken = Taken::plain(Some(Input::ReceiveUnknownCode), id);
    taken.whole = whole;
    taken
}

/// What a packet of codes 8 to 11 is.
fn extended_taken<'a, T: OptionTable>(
    table: &T,
    auto: &Auto,
    packet: PacketRef<'a>,
) -> Taken<'a, 'a>
    requires { IsCap auto.now.cap }
    ensures { IsExtended (T.table table.now) auto.now (packet_seen packet.entry) result }
{
    if packet.code == Code::ProtocolReject.number() {
        let mut taken = Taken::plain(None, packet.id);
        taken.rejects = rejected_protocol(auto.state, packet.rest);
        return taken;
    }
    if packet.rest.len() < MAGIC {
        return Taken::plain(None, packet.id);
    }
    let mut taken = Taken::plain(Some(Input::ReceiveEcho), packet.id);
    taken.answer = echo_answer(table, auto, packet);
    taken
}

/// The protocol that the peer rejects.
fn rejected_protocol(state: AutoState, rest: &[u8]) -> Option<u16>
    ensures { result ≡ rejected_protocol state rest.now }
{
    if state == AutoState::Opened && PROTOCOL <= rest.len() {
        Some(BigEndian::read_u16(rest))
    } else {
        None
    }
}

/// What answers a packet of codes 9 to 11.
fn echo_answer<'a, T: OptionTable>(
    table: &T,
    auto: &Auto,
    packet: PacketRef<'a>,
) -> Option<Answer<'a>>
    requires cap { IsCap auto.now.cap }
    requires magic { MAGIC ≤ length packet.rest.now }
    ensures { AnswersEcho (T.table table.now) auto.now (packet_seen packet.entry) result }
{
    if packet.code != Code::EchoRequest.number() {
        return None;
    }
    let (_, behind) = packet.rest.split_at(MAGIC);
    let kept = cut(behind, usize::from(auto.cap) - PACKET_HEADER - MAGIC);
    Some(Answer::echo(packet.id, table.magic(&auto.own), kept))
}

/// As many octets from the front as there is room for.
pub(crate) fn cut(octets: &[u8], room: usize) -> &[u8]
    ensures octets { result.now ≡ take room octets.now }
    ensures size { length result.now ≤ room }
{
    if octets.len() <= room {
        octets
    } else {
        &octets[..room]
    }
}
