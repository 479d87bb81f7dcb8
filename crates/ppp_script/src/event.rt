//! The events of a replay, and the lines that read as them.

ghost use Rattle.std.specs.Prelude.{◌≡◌, ◌≤◌, IfOk, Some};
ghost use Rattle.ppp_script.specs.declared.event.TheConstants.{MOST_PLACE, MOST_SETTLED, MOST_STATUS};
ghost use Rattle.ppp_script.specs.Event.{steps_in, IsWithin, event_text, place_in, placed, last_number, last_end, timeout, bap_rows, event_in, event_of, event_form};
ghost use Rattle.ppp_script.specs.Field.{no_more, last_protocol, IsLink};
ghost use Rattle.ppp_script.specs.Results.{Gives};
ghost use Rattle.ppp_script.specs.Row.{read_by};
ghost use Rattle.ppp_script.specs.Timer.{last_timer};

use crate::end::End;
use crate::field::{end, last_protocol, link, next_field, no_more, number_field};
use crate::line::Line;
use crate::line_why::LineWhy;
use crate::timer::{Timer, last_timer};
use ppp_packet::Proto;
use ppp_text::Fields;
use std::alloc::{AllocError, Global};
use std::fmt;

/// The last place of a queue at which a frame can be lost.
pub const MOST_PLACE: u16 = 1024;

/// The most steps of one Settle.
pub const MOST_SETTLED: u16 = 1000;

/// The greatest number of a Status.
pub const MOST_STATUS: u16 = 255;

/// An event of a replay. It prints as its line.
#[derive(Clone, Debug, PartialEq, Eq, Drop)]
pub enum Event {
    /// `up E L`: the line below the link comes up at that end.
    Up(End, u8),
    /// `down E L`: the line below the link goes down at that end.
    Down(End, u8),
    /// `open E L P`: the administrator of that end opens a protocol on the link.
    AdminOpen(End, u8, Proto),
    /// `close E L P`: the administrator of that end closes a protocol on the link.
    AdminClose(End, u8, Proto),
    /// `timeout E L P`: the restart timer of a protocol on the link fires at that end.
    Timeout(End, u8, Proto),
    /// `timeout E L bap`: the timer of the request that the link's bundle waits on fires at that end.
    BapTimeout(End, u8),
    /// `deliver E L`: that end takes the front frame of its incoming queue of the link.
    Deliver(End, u8),
    /// `lose E L K`: the frame of place K from the front, 1 to 1,024, of that end's incoming queue is lost.
    Lose(End, u8, u16),
    /// `settle N`: so many steps, 1 to 1,000, each of which delivers the front frame of the first queue that isn't empty.
    Settle(u16),
    /// `reboot E`: all queues are emptied, that end begins anew, and the other end's lines go down.
    Reboot(End),
    /// `call E L`: that end asks its peer to let it call one link more for the bundle of the link (RFC 2125).
    Call(End, u8),
    /// `callback E L`: that end asks its peer to call it on one link more for the bundle of the link.
    Callback(End, u8),
    /// `drop E L`: that end asks its peer to let it drop the link from its bundle.
    Drop(End, u8),
    /// `status E L N`: that end tells its peer how a call for the bundle of the link went, by a number from 0 to 255.
    Status(End, u8, u8),
    /// `show`: the states are reported.
    Show,
}

impl fmt::Display for Event {
    ghost output = { λ event. Some (event_text event) };

    fn fmt<W: fmt::Write>(&self, f: &mut fmt::Formatter<W>) -> fmt::Result {
        match self {
            Event::Up(end, link) => write!(f, "up {end} {link}"),
            Event::Down(end, link) => write!(f, "down {end} {link}"),
            Event::AdminOpen(end, link, protocol) => write!(f, "open {end} {link} {protocol}"),
            Event::AdminClose(end, link, protocol) => write!(f, "close {end} {link} {protocol}"),
            Event::Timeout(end, link, protocol) => write!(f, "timeout {end} {link} {protocol}"),
            Event::BapTimeout(end, link) => write!(f, "timeout {end} {link} bap"),
            Event::Deliver(end, link) => write!(f, "deliver {end} {link}"),
            Event::Lose(end, link, place) => write!(f, "lose {end} {link} {place}"),
            Event::Settle(count) => write!(f, "settle {count}"),
            Event::Reboot(end) => write!(f, "reboot {end}"),
            Event::Call(end, link) => write!(f, "call {end} {link}"),
            Event::Callback(end, link) => write!(f, "callback {end} {link}"),
            Event::Drop(end, link) => write!(f, "drop {end} {link}"),
            Event::Status(end, link, status) => write!(f, "status {end} {link} {status}"),
            Event::Show => write!(f, "show"),
        }
    }
}

impl Line for Event {
    ghost form = { event_form };

    ghost IsWithin = { IsWithin };

    fn read(_alloc: Global, line: &[u8], links: u8) -> Result<Result<Event, LineWhy>, AllocError> {
        Ok(read_event(line, links))
    }

    fn steps(&self) -> u32 {
        steps_of(self)
    }
}

/// How many steps an event is: one, but for those of a Settle.
pub fn steps_of(event: &Event) -> u32
    ensures value { result ≡ steps_in event.now }
    ensures few { result ≤ 65535 }
{
    match event {
        Event::Settle(count) => u32::from(*count),
        _ => 1,
    }
}

/// Reads `E L`, and answers the fields behind it too.
#[tactic(auto, unfolding(crate::specs::Event::place_in))]
fn place<'a>(fields: &Fields<'a>, links: u8) -> Result<(End, u8, Fields<'a>), LineWhy>
    ensures value { result ≡ place_in links fields.now }
    ensures within { IfOk result (λ x. IsLink links x.1) }
{
    let (first, fields) = next_field(fields)?;
    let end = end(first)?;
    let (second, fields) = next_field(&fields)?;
    let link = link(second, links)?;
    Ok((end, link, fields))
}

/// Reads `E L`.
#[tactic(auto, unfolding(crate::specs::Event::placed))]
fn read_link(fields: &Fields<'_>, links: u8) -> Result<(End, u8), LineWhy>
    ensures value { Gives (λ x. (x.0, x.1, tt)) result (placed links no_more fields.now) }
    ensures within { IfOk result (λ x. IsLink links x.1) }
{
    let (end, link, fields) = place(fields, links)?;
    no_more(&fields)?;
    Ok((end, link))
}

/// Reads `E L P`.
#[tactic(auto, unfolding(crate::specs::Event::placed))]
fn read_protocol(fields: &Fields<'_>, links: u8) -> Result<(End, u8, Proto), LineWhy>
    ensures value { result ≡ placed links last_protocol fields.now }
    ensures within { IfOk result (λ x. IsLink links x.1) }
{
    let (end, link, fields) = place(fields, links)?;
    let protocol = last_protocol(&fields)?;
    Ok((end, link, protocol))
}

/// Reads `E L` and the name of a timer.
#[tactic(auto, unfolding(crate::specs::Event::placed))]
fn read_timer(fields: &Fields<'_>, links: u8) -> Result<(End, u8, Timer), LineWhy>
    ensures value { result ≡ placed links last_timer fields.now }
    ensures within { IfOk result (λ x. IsLink links x.1) }
{
    let (end, link, fields) = place(fields, links)?;
    let timer = last_timer(&fields)?;
    Ok((end, link, timer))
}

/// That a timer fires.
fn timeout(end: End, link: u8, timer: Timer) -> Event
    ensures { result ≡ timeout end link timer }
{
    match timer {
        Timer::Restart(protocol) => Event::Timeout(end, link, protocol),
        Timer::Bap => Event::BapTimeout(end, link),
    }
}

/// Reads `E L` and a number within these bounds.
#[tactic(auto, unfolding(crate::specs::Event::placed))]
fn read_number(
    fields: &Fields<'_>,
    links: u8,
    least: u16,
    most: u16,
) -> Result<(End, u8, u16), LineWhy>
    ensures value { result ≡ placed links (last_number least most) fields.now }
    ensures within { IfOk result (λ x. IsLink links x.1 × ((least ≤ x.2) × (x.2 ≤ most))) }
{
    let (end, link, fields) = place(fields, links)?;
    let number = last_number(&fields, least, most)?;
    Ok((end, link, number))
}

/// Reads a number within these bounds, and no more.
#[tactic(auto, unfolding(crate::specs::Event::last_number))]
fn last_number(fields: &Fields<'_>, least: u16, most: u16) -> Result<u16, LineWhy>
    ensures value { result ≡ last_number least most fields.now }
    ensures within { IfOk result (λ n. (least ≤ n) × (n ≤ most)) }
{
    let (first, fields) = next_field(fields)?;
    let number = number_field(first, least, most)?;
    no_more(&fields)?;
    Ok(number)
}

/// Reads `E`, and no more.
#[tactic(auto, unfolding(crate::specs::Event::last_end))]
fn last_end(fields: &Fields<'_>) -> Result<End, LineWhy>
    ensures { result ≡ last_end fields.now }
{
    let (first, fields) = next_field(fields)?;
    let end = end(first)?;
    no_more(&fields)?;
    Ok(end)
}

/// The event of a line with this first field, and these behind it.
#[tactic(auto, unfolding(crate::specs::Event::event_in))]
fn read_fields(word: &[u8], fields: &Fields<'_>, links: u8) -> Result<Event, LineWhy>
    ensures value { result ≡ event_in links word.now fields.now }
    ensures within { IfOk result (IsWithin links) }
{
    if word == b"up".as_slice() {
        let (end, link) = read_link(fields, links)?;
        Ok(Event::Up(end, link))
    } else if word == b"down".as_slice() {
        let (end, link) = read_link(fields, links)?;
        Ok(Event::Down(end, link))
    } else if word == b"open".as_slice() {
        let (end, link, protocol) = read_protocol(fields, links)?;
        Ok(Event::AdminOpen(end, link, protocol))
    } else if word == b"close".as_slice() {
        let (end, link, protocol) = read_protocol(fields, links)?;
        Ok(Event::AdminClose(end, link, protocol))
    } else if word == b"timeout".as_slice() {
        let (end, link, timer) = read_timer(fields, links)?;
        Ok(timeout(end, link, timer))
    } else if word == b"deliver".as_slice() {
        let (end, link) = read_link(fields, links)?;
        Ok(Event::Deliver(end, link))
    } else if word == b"lose".as_slice() {
        let (end, link, place) = read_number(fields, links, 1, MOST_PLACE)?;
        Ok(Event::Lose(end, link, place))
    } else if word == b"settle".as_slice() {
        Ok(Event::Settle(last_number(fields, 1, MOST_SETTLED)?))
    } else if word == b"reboot".as_slice() {
        Ok(Event::Reboot(last_end(fields)?))
    } else if word == b"show".as_slice() {
        no_more(fields)?;
        Ok(Event::Show)
    } else {
        read_bap(word, fields, links)
    }
}

/// The event of a line of BAP with this first field, and these behind it.
fn read_bap(word: &[u8], fields: &Fields<'_>, links: u8) -> Result<Event, LineWhy>
    ensures value { result ≡ read_by (bap_rows links) word.now fields.now }
    ensures within { IfOk result (IsWithin links) }
{
    if word == b"call".as_slice() {
        let (end, link) = read_link(fields, links)?;
        Ok(Event::Call(end, link))
    } else if word == b"callback".as_slice() {
        let (end, link) = read_link(fields, links)?;
        Ok(Event::Callback(end, link))
    } else if word == b"drop".as_slice() {
        let (end, link) = read_link(fields, links)?;
        Ok(Event::Drop(end, link))
    } else if word == b"status".as_slice() {
        let (end, link, status) = read_number(fields, links, 0, MOST_STATUS)?;
        Ok(Event::Status(end, link, status as u8))
    } else {
        Err(LineWhy::Event)
    }
}

/// The event of a line.
#[tactic(auto, unfolding(crate::specs::Event::event_of))]
fn read_event(line: &[u8], links: u8) -> Result<Event, LineWhy>
    ensures value { result ≡ event_of links line.now }
    ensures within { IfOk result (IsWithin links) }
{
    let (word, fields) = next_field(&Fields::of(line))?;
    read_fields(word, &fields, links)
}
