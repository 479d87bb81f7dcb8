//! Two links that talk, for tests: steps, and the text that comes of them.

ghost use Rattle.std.specs.Prelude.{◌≤◌};

use crate::{Link, LinkEntry, LinkOut, MOST_INNER};
use ppp_conf::{EndConfig, read_config};
use ppp_frame::{Deframer, Form, FrameBuf, encode};
use ppp_packet::{OptList, Proto};
use std::alloc::Global;
use std::mem;
use std::process::Abort;
use std::test::Fail;

/// One end: its link, the word that it takes, what its last call made, and the octets on the line to it.
#[derive(Drop)]
pub(crate) struct End {
    pub(crate) link: Link,
    pub(crate) word: u64,
    pub(crate) out: LinkOut,
    pub(crate) line: Vec<u8>,
}

/// Two ends, and what came of the steps so far.
#[derive(Drop)]
pub(crate) struct Pair {
    pub(crate) a: End,
    pub(crate) b: End,
    pub(crate) text: String,
}

/// A call of a link.
#[derive(Clone, Copy)]
pub(crate) enum Call {
    Up,
    Down,
    Open(Proto),
    Close(Proto),
    Timeout(Proto),
    Run(bool),
    /// The same with BACP.
    RunAll(bool),
}

/// A step: what it makes is written into the text, each entry with `; ` behind it.
#[derive(Clone, Copy)]
pub(crate) enum Step<'a> {
    /// A call at an end, which writes the signals.
    A(Call),
    B(Call),
    /// Each end takes what the other sent, until both are quiet, and writes the signals.
    Settle,
    /// Octets come to end a, which writes all entries, frames by protocol and information.
    Octets(&'a [u8]),
    /// A frame with whole headers comes.
    Frame(u16, &'a [u8]),
    /// A packet comes inside multilink.
    Inner(u16, &'a [u8]),
    /// Frames of LCP come, one after another.
    Frames(&'a [&'a [u8]]),
    /// A datagram of IPv4 comes, 45 and 00, without address and control or with a short protocol.
    Datagram(bool, bool),
    /// Writes the frames of a's last call as they are.
    Raw,
    /// Writes the states of LCP and of the control protocols at an end.
    StatesA,
    StatesB,
    /// Writes the own lists of a protocol at both ends, each with the other end's of the peer.
    Lists(Proto),
    /// Writes how many octets a holds of an unfinished frame, and the frame that its deframer lends.
    Deframer,
    /// Writes whether b's timer of a protocol is on.
    Timer(Proto),
    /// End a is as new.
    Reset,
}

/// An end of these settings with the link of that number, 1 to 16.
pub(crate) fn make_end(
    alloc: Global,
    config: &EndConfig,
    number: u8,
    word: u64,
) -> Result<End, Fail>
    requires least { 1 ≤ number }
    requires most { number ≤ 16 }
{
    Ok(End {
        link: Link::new(alloc, config, number)?,
        word,
        out: LinkOut::new(alloc)?,
        line: Vec::new(alloc),
    })
}

/// Two ends of these settings.
pub(crate) fn make_pair(alloc: Global, settings: &str) -> Result<Pair, Fail> {
    let text = format!(in alloc; "version = 2\n{settings}")?;
    let config = read_config(alloc, text.as_bytes())?;
    Ok(Pair {
        a: make_end(alloc, &config.a, 1, 4)?,
        b: make_end(alloc, &config.b, 1, 9)?,
        text: String::new(alloc),
    })
}

/// Writes the signals of a list, and puts its frames on a line.
pub(crate) fn post(
    name: &str,
    out: &LinkOut,
    line: &mut Vec<u8>,
    text: &mut String,
) -> Result<(), Fail> {
    for i in 0..out.count() {
        match out.at(i) {
            LinkEntry::Push(octets) => line.extend_from_slice(octets)?,
            entry => write!(text, "{name} {entry:?}; ")?,
        }
    }
    Ok(())
}

/// Does a call.
pub(crate) fn act(end: &mut End, call: Call) {
    let word = end.word;
    match call {
        Call::Up => end.link.up(word, &mut end.out),
        Call::Down => end.link.down(word, &mut end.out),
        Call::Open(proto) => end.link.admin_open(proto, word, &mut end.out),
        Call::Close(proto) => end.link.admin_close(proto, word, &mut end.out),
        Call::Timeout(proto) => end.link.timeout(proto, word, &mut end.out),
        Call::Run(on) => end.link.run_ncps(on, false, word, &mut end.out),
        Call::RunAll(on) => end.link.run_ncps(on, true, word, &mut end.out),
    }
}

/// An end takes octets, and posts what comes of each frame.
pub(crate) fn take(
    name: &str,
    end: &mut End,
    octets: &[u8],
    line: &mut Vec<u8>,
    text: &mut String,
) -> Result<(), Fail> {
    let mut rest = octets;
    for _ in 0..octets.len() {
        if rest.is_empty() {
            break;
        }
        let used = end.link.bytes(rest, end.word, &mut end.out);
        post(name, &end.out, line, text)?;
        rest = &rest[used..];
    }
    Ok(())
}

/// An end takes what is on the line to it.
pub(crate) fn take_line(
    alloc: Global,
    name: &str,
    end: &mut End,
    line: &mut Vec<u8>,
    text: &mut String,
) -> Result<(), Fail> {
    let octets = mem::replace(&mut end.line, Vec::new(alloc));
    take(name, end, octets.as_slice(), line, text)
}

/// Each end takes what is on the line to it, b first, until both are quiet.
pub(crate) fn settle(alloc: Global, pair: &mut Pair) -> Result<(), Fail> {
    for _ in 0..4 {
        take_line(alloc, "b", &mut pair.b, &mut pair.a.line, &mut pair.text)?;
        take_line(alloc, "a", &mut pair.a, &mut pair.b.line, &mut pair.text)?;
    }
    Ok(())
}

/// Writes octets in hex.
pub(crate) fn write_hex(text: &mut String, octets: &[u8]) -> Result<(), Fail> {
    for octet in octets {
        write!(text, "{octet:02x}")?;
    }
    text.push_str("; ")?;
    Ok(())
}

/// Writes the frame that a deframer lends.
pub(crate) fn write_lent(text: &mut String, reader: &Deframer) -> Result<(), Fail> {
    if !reader.has_frame() {
        text.push_str("no frame; ")?;
        return Ok(());
    }
    let frame = reader.frame();
    let protocol = frame.protocol;
    write!(text, "{protocol:04x} ")?;
    write_hex(text, frame.info)
}

/// Writes an entry.
pub(crate) fn write_entry(
    text: &mut String,
    entry: LinkEntry<'_>,
    reader: &mut Deframer,
) -> Result<(), Fail> {
    match entry {
        LinkEntry::Push(octets) => {
            reader.feed(octets);
            write_lent(text, reader)
        }
        LinkEntry::Payload { protocol, octets } => {
            write!(text, "got {protocol:04x} ")?;
            write_hex(text, octets)
        }
        entry => {
            write!(text, "{entry:?}; ")?;
            Ok(())
        }
    }
}

/// Writes the entries of a list.
pub(crate) fn write_out(alloc: Global, text: &mut String, out: &LinkOut) -> Result<(), Fail> {
    let mut reader = Deframer::new(alloc, 8200)?;
    for i in 0..out.count() {
        write_entry(text, out.at(i), &mut reader)?;
    }
    Ok(())
}

/// Octets come to an end, and the entries of the last call are written.
pub(crate) fn hear(
    alloc: Global,
    end: &mut End,
    octets: &[u8],
    text: &mut String,
) -> Result<(), Fail> {
    let mut line = Vec::new(alloc);
    let mut signals = String::new(alloc);
    take("", end, octets, &mut line, &mut signals)?;
    write_out(alloc, text, &end.out)
}

/// A frame comes to an end, and the entries are written.
pub(crate) fn hear_frame(
    alloc: Global,
    end: &mut End,
    form: Form,
    protocol: u16,
    info: &[u8],
    text: &mut String,
) -> Result<(), Fail> {
    let mut buffer = FrameBuf::new(alloc)?;
    encode(&mut buffer, form, protocol, info)?;
    hear(alloc, end, buffer.octets(), text)
}

/// A packet comes to an end inside multilink, and the entries are written.
pub(crate) fn hear_inner(
    alloc: Global,
    end: &mut End,
    protocol: u16,
    octets: &[u8],
    text: &mut String,
) -> Result<(), Fail> {
    if octets.len() <= MOST_INNER {
        end.link.inner(protocol, octets, end.word, &mut end.out);
    }
    write_out(alloc, text, &end.out)
}

/// Writes the frames of a list as they are.
pub(crate) fn write_raw(text: &mut String, out: &LinkOut) -> Result<(), Fail> {
    for i in 0..out.count() {
        if let LinkEntry::Push(octets) = out.at(i) {
            write_hex(text, octets)?;
        }
    }
    Ok(())
}

/// Writes the states of a link.
pub(crate) fn write_states(text: &mut String, link: &Link) -> Result<(), Fail> {
    let protos = [
        Proto::Lcp,
        Proto::Ip,
        Proto::Ipv6,
        Proto::Osi,
        Proto::Mpls,
        Proto::Bacp,
    ];
    for proto in protos {
        match link.state(proto) {
            Some(state) => write!(text, "{state} ")?,
            None => text.push_str("- ")?,
        }
    }
    text.push_str("; ")?;
    Ok(())
}

/// Writes a list.
pub(crate) fn write_list(text: &mut String, list: Option<&OptList>) -> Result<(), Fail> {
    match list {
        Some(list) => write_hex(text, list.octets()),
        None => {
            text.push_str("-; ")?;
            Ok(())
        }
    }
}

/// Writes the lists of a protocol.
pub(crate) fn write_lists(text: &mut String, a: &Link, b: &Link, proto: Proto) -> Result<(), Fail> {
    write_list(text, a.mine(proto))?;
    write_list(text, b.peer(proto))?;
    write_list(text, b.mine(proto))?;
    write_list(text, a.peer(proto))
}

/// Writes what a link's deframer holds and lends.
pub(crate) fn write_deframer(text: &mut String, link: &Link) -> Result<(), Fail> {
    let held = link.held();
    write!(text, "held {held}; ")?;
    write_lent(text, link.deframer())
}

/// Writes whether a timer is on.
pub(crate) fn write_timer(text: &mut String, link: &Link, proto: Proto) -> Result<(), Fail> {
    let is_on = link.timer_on(proto);
    write!(text, "timer {is_on}; ")?;
    Ok(())
}

/// Frames in which each octet below 20 is escaped.
pub(crate) fn escaped(ac: bool, pf: bool) -> Form {
    Form {
        map: 0xffff_ffff,
        ac,
        pf,
    }
}

/// Frames of LCP come to an end, and the entries of each are written.
pub(crate) fn hear_frames(
    alloc: Global,
    end: &mut End,
    packets: &[&[u8]],
    text: &mut String,
) -> Result<(), Fail> {
    for packet in packets {
        hear_frame(alloc, end, escaped(false, false), 0xc021, *packet, text)?;
    }
    Ok(())
}

/// Does a step.
pub(crate) fn do_step(alloc: Global, pair: &mut Pair, step: Step<'_>) -> Result<(), Fail> {
    let text = &mut pair.text;
    match step {
        Step::A(call) => {
            act(&mut pair.a, call);
            post("a", &pair.a.out, &mut pair.b.line, text)
        }
        Step::B(call) => {
            act(&mut pair.b, call);
            post("b", &pair.b.out, &mut pair.a.line, text)
        }
        Step::Settle => settle(alloc, pair),
        Step::Octets(octets) => hear(alloc, &mut pair.a, octets, text),
        Step::Frame(protocol, info) => {
            hear_frame(
                alloc,
                &mut pair.a,
                escaped(false, false),
                protocol,
                info,
                text,
            )
        }
        Step::Inner(protocol, octets) => hear_inner(alloc, &mut pair.a, protocol, octets, text),
        Step::Frames(packets) => hear_frames(alloc, &mut pair.a, packets, text),
        Step::Datagram(ac, pf) => {
            hear_frame(
                alloc,
                &mut pair.a,
                escaped(ac, pf),
                0x0021,
                &[0x45, 0],
                text,
            )
        }
        Step::Raw => write_raw(text, &pair.a.out),
        Step::StatesA => write_states(text, &pair.a.link),
        Step::StatesB => write_states(text, &pair.b.link),
        Step::Lists(proto) => write_lists(text, &pair.a.link, &pair.b.link, proto),
        Step::Deframer => write_deframer(text, &pair.a.link),
        Step::Timer(proto) => write_timer(text, &pair.b.link, proto),
        Step::Reset => {
            pair.a.link.reset();
            Ok(())
        }
    }
}

/// Does steps in turn.
pub(crate) fn step_all(alloc: Global, pair: &mut Pair, steps: &[Step<'_>]) -> Result<(), Fail> {
    for what in steps {
        do_step(alloc, pair, *what)?;
    }
    Ok(())
}

/// What comes of steps at ends of these settings, behind steps of which nothing is written.
pub(crate) fn shown(
    alloc: Global,
    settings: &str,
    before: &[Step<'_>],
    steps: &[Step<'_>],
) -> Result<String, Fail> {
    let mut pair = make_pair(alloc, settings)?;
    step_all(alloc, &mut pair, before)?;
    pair.text.clear();
    step_all(alloc, &mut pair, steps)?;
    Ok(pair.text)
}

/// The first request of the link of that number, 1 to 16, at end a of these settings.
pub(crate) fn first_request(alloc: Global, settings: &str, number: u8) -> Result<String, Fail>
    requires least { 1 ≤ number }
    requires most { number ≤ 16 }
{
    let settings = format!(in alloc; "version = 2\n{settings}")?;
    let config = read_config(alloc, settings.as_bytes())?;
    let mut end = make_end(alloc, &config.a, number, 4)?;
    let mut text = String::new(alloc);
    act(&mut end, Call::Open(Proto::Lcp));
    act(&mut end, Call::Up);
    write_out(alloc, &mut text, &end.out)?;
    Ok(text)
}

/// Looks at cases, each with its settings, steps, and what comes of them.
pub(crate) fn check(
    alloc: Global,
    rt: &impl Abort,
    before: &[Step<'_>],
    cases: &[(&str, &[Step<'_>], &str)],
) -> Result<(), Fail> {
    for (settings, steps, wanted) in cases {
        let text = shown(alloc, settings, before, steps)?;
        assert_eq!(rt; text.as_str(), *wanted, "at {settings}");
    }
    Ok(())
}
