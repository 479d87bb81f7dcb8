//! The events of a feed, and the lines that read as them.

ghost use Rattle.std.specs.Prelude.{◌≡◌, ◌-◌, ◌^◌, ◌<◌, IfOk, IfErr, All, Ok, Some, length};
ghost use Rattle.ppp_script.specs.FeedEvent.{IsWithin, feed_text, linked, timeout, plain_rows, bytes_row, feed_of, feed_form};
ghost use Rattle.ppp_script.specs.Field.{no_more, last_field, last_protocol, IsLink};
ghost use Rattle.ppp_script.specs.Results.{Gives};
ghost use Rattle.ppp_script.specs.Row.{read_by};
ghost use Rattle.ppp_script.specs.Script.{events_of};
ghost use Rattle.ppp_script.specs.ScriptFault.{IsRefusal};
ghost use Rattle.ppp_script.specs.Timer.{last_timer};

use crate::field::{last_field, last_protocol, next_field, next_link, no_more};
use crate::line::Line;
use crate::line_why::LineWhy;
use crate::octets::Octets;
use crate::script::{Script, read_script};
use crate::script_fault::ScriptFault;
use crate::timer::{Timer, last_timer};
use ppp_packet::Proto;
use ppp_text::Fields;
use std::alloc::{AllocError, Global};
use std::fmt;

/// An event of a feed, which happens to one end. It prints as its line.
#[derive(Debug, Drop)]
pub enum FeedEvent {
    /// `up L`: the line below the link comes up.
    Up(u8),
    /// `down L`: the line below the link goes down.
    Down(u8),
    /// `open L P`: the administrator opens a protocol on the link.
    AdminOpen(u8, Proto),
    /// `close L P`: the administrator closes a protocol on the link.
    AdminClose(u8, Proto),
    /// `timeout L P`: the restart timer of a protocol on the link fires.
    Timeout(u8, Proto),
    /// `timeout L bap`: the timer of the request that the link's bundle waits on fires.
    BapTimeout(u8),
    /// `bytes L HEX`: octets come on the link, 1 to 65,536.
    Bytes(u8, Octets),
}

impl fmt::Display for FeedEvent {
    ghost output = { λ event. Some (feed_text event) };

    fn fmt<W: fmt::Write>(&self, f: &mut fmt::Formatter<W>) -> fmt::Result {
        match self {
            FeedEvent::Up(link) => write!(f, "up {link}"),
            FeedEvent::Down(link) => write!(f, "down {link}"),
            FeedEvent::AdminOpen(link, protocol) => write!(f, "open {link} {protocol}"),
            FeedEvent::AdminClose(link, protocol) => write!(f, "close {link} {protocol}"),
            FeedEvent::Timeout(link, protocol) => write!(f, "timeout {link} {protocol}"),
            FeedEvent::BapTimeout(link) => write!(f, "timeout {link} bap"),
            FeedEvent::Bytes(link, octets) => write!(f, "bytes {link} {octets}"),
        }
    }
}

impl Line for FeedEvent {
    ghost form = { feed_form };

    ghost IsWithin = { IsWithin };

    fn read(
        alloc: Global,
        line: &[u8],
        links: u8,
    ) -> Result<Result<FeedEvent, LineWhy>, AllocError> {
        read_line(alloc, line, links)
    }

    fn steps(&self) -> u32 {
        1
    }
}

/// Reads the lines of a feed, by the rules of [`read_script`]. Each line is one step. `links` is the number of links that
/// are configured: with 0 each line that names one is refused.
///
/// The first line is refused that isn't of the form, with [`LineWhy::Link`] where a link from 1 to 255 isn't configured
/// and [`LineWhy::Event`] for any other deviation, or that is one more than 100,000, with [`LineWhy::Steps`]. Of two
/// deviations in a line the earlier one decides.
pub fn read_feed(alloc: Global, text: &[u8], links: u8) -> Result<Script<FeedEvent>, ScriptFault>
    requires { length text.now < 2 ^ 32 - 1 }
    ensures ok { IfOk result (λ script. events_of feed_form links text.now ≡ Ok script) }
    ensures refused { IfErr result (IsRefusal (events_of feed_form links text.now)) }
    ensures within { IfOk result (All (IsWithin links)) }
{
    read_script(alloc, text, links)
}

/// The event of a line.
#[tactic(auto, unfolding(crate::specs::FeedEvent::feed_of, crate::specs::FeedEvent::feed_in))]
fn read_line(
    alloc: Global,
    line: &[u8],
    links: u8,
) -> Result<Result<FeedEvent, LineWhy>, AllocError>
    ensures value { IfOk result (λ read. read ≡ feed_of links line.now) }
    ensures within { IfOk result (λ read. IfOk read (IsWithin links)) }
{
    match next_field(&Fields::of(line)) {
        Ok((word, fields)) if word == b"bytes".as_slice() => read_bytes(alloc, &fields, links),
        Ok((word, fields)) => Ok(read_fields(word, &fields, links)),
        Err(why) => Ok(Err(why)),
    }
}

/// The event of a line with this first field, which isn't `bytes`, and these behind it.
fn read_fields(word: &[u8], fields: &Fields<'_>, links: u8) -> Result<FeedEvent, LineWhy>
    ensures value { result ≡ read_by (plain_rows links) word.now fields.now }
    ensures within { IfOk result (IsWithin links) }
{
    if word == b"up".as_slice() {
        Ok(FeedEvent::Up(read_link(fields, links)?))
    } else if word == b"down".as_slice() {
        Ok(FeedEvent::Down(read_link(fields, links)?))
    } else if word == b"open".as_slice() {
        let (link, protocol) = read_protocol(fields, links)?;
        Ok(FeedEvent::AdminOpen(link, protocol))
    } else if word == b"close".as_slice() {
        let (link, protocol) = read_protocol(fields, links)?;
        Ok(FeedEvent::AdminClose(link, protocol))
    } else if word == b"timeout".as_slice() {
        let (link, timer) = read_timer(fields, links)?;
        Ok(timeout(link, timer))
    } else {
        Err(LineWhy::Event)
    }
}

/// Reads `L`.
#[tactic(auto, unfolding(crate::specs::FeedEvent::linked))]
fn read_link(fields: &Fields<'_>, links: u8) -> Result<u8, LineWhy>
    ensures value { Gives (λ link. (link, tt)) result (linked links no_more fields.now) }
    ensures within { IfOk result (IsLink links) }
{
    let (link, fields) = next_link(fields, links)?;
    no_more(&fields)?;
    Ok(link)
}

/// Reads `L P`.
#[tactic(auto, unfolding(crate::specs::FeedEvent::linked))]
fn read_protocol(fields: &Fields<'_>, links: u8) -> Result<(u8, Proto), LineWhy>
    ensures value { result ≡ linked links last_protocol fields.now }
    ensures within { IfOk result (λ x. IsLink links x.0) }
{
    let (link, fields) = next_link(fields, links)?;
    let protocol = last_protocol(&fields)?;
    Ok((link, protocol))
}

/// Reads `L` and the name of a timer.
#[tactic(auto, unfolding(crate::specs::FeedEvent::linked))]
fn read_timer(fields: &Fields<'_>, links: u8) -> Result<(u8, Timer), LineWhy>
    ensures value { result ≡ linked links last_timer fields.now }
    ensures within { IfOk result (λ x. IsLink links x.0) }
{
    let (link, fields) = next_link(fields, links)?;
    let timer = last_timer(&fields)?;
    Ok((link, timer))
}

/// That a timer fires.
fn timeout(link: u8, timer: Timer) -> FeedEvent
    ensures { result ≡ timeout link timer }
{
    match timer {
        Timer::Restart(protocol) => FeedEvent::Timeout(link, protocol),
        Timer::Bap => FeedEvent::BapTimeout(link),
    }
}

/// Reads `L HEX`.
#[tactic(auto, unfolding(crate::specs::FeedEvent::linked, crate::specs::FeedEvent::last_octets))]
fn read_bytes(
    alloc: Global,
    fields: &Fields<'_>,
    links: u8,
) -> Result<Result<FeedEvent, LineWhy>, AllocError>
    ensures value { IfOk result (λ read. read ≡ (bytes_row links).reads fields.now) }
    ensures within { IfOk result (λ read. IfOk read (IsWithin links)) }
{
    match read_digits(fields, links) {
        Ok((link, digits)) => match Octets::read(alloc, digits)? {
            Ok(octets) => Ok(Ok(FeedEvent::Bytes(link, octets))),
            Err(why) => Ok(Err(why)),
        },
        Err(why) => Ok(Err(why)),
    }
}

/// Reads `L` and one field more.
#[tactic(auto, unfolding(crate::specs::FeedEvent::linked))]
fn read_digits<'a>(fields: &Fields<'a>, links: u8) -> Result<(u8, &'a [u8]), LineWhy>
    ensures value { Gives (λ x. (x.0, x.1.now)) result (linked links last_field fields.now) }
    ensures within { IfOk result (λ x. IsLink links x.0) }
{
    let (link, fields) = next_link(fields, links)?;
    let digits = last_field(&fields)?;
    Ok((link, digits))
}
