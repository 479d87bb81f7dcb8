//! Two trunks that talk, for tests: steps, and the text that comes of them.

ghost use Rattle.std.specs.Prelude.{IsTrue};
ghost use Rattle.ppp_trunk.specs.Trunk.{IsOfLinks};

use crate::{StationEntry, StationOut, Trunk, TrunkEvent};
use ppp_bundle::MOST_BUNDLES;
use ppp_conf::{EndConfig, read_config};
use ppp_frame::{Deframer, Form, FrameBuf, encode};
use ppp_packet::Proto;
use std::alloc::Global;
use std::mem;
use std::process::Abort;
use std::test::Fail;

/// One end: its trunk, the word that it takes, what its last event made, and the octets on the line to it of each link.
#[derive(Drop)]
pub(crate) struct End {
    pub(crate) trunk: Trunk,
    pub(crate) word: u64,
    pub(crate) out: StationOut,
    pub(crate) lines: Vec<Vec<u8>>,
}

/// Two ends, and what came of the steps so far.
#[derive(Drop)]
pub(crate) struct Pair {
    pub(crate) a: End,
    pub(crate) b: End,
    pub(crate) text: String,
}

/// A step: what it makes is written into the text, each entry with `; ` behind it.
#[derive(Clone, Copy)]
pub(crate) enum Step<'a> {
    /// An event of an end, which writes what is handed up and the lines that are done with.
    A(TrunkEvent<'a>),
    B(TrunkEvent<'a>),
    /// An event of end a, which writes all entries, frames by protocol and information.
    All(TrunkEvent<'a>),
    /// An event of end a, which writes its frames as they are.
    Raw(TrunkEvent<'a>),
    /// A frame with whole headers comes on a link of end a, which writes all entries.
    Frame(u8, u16, &'a [u8]),
    /// Each end takes what the other sent, until both are quiet.
    Settle,
    /// Writes the states of LCP and of the control protocols on a link, of both ends.
    States(u8),
    /// Writes the control links of the bundles of both ends.
    Controls,
    /// Writes how many links a has, how many octets its last event used, and how many it holds of unfinished frames.
    Counts,
}

/// An end of these settings.
pub(crate) fn make_end(alloc: Global, config: &EndConfig, word: u64) -> Result<End, Fail> {
    let trunk = Trunk::new(alloc, config)?;
    let mut lines = Vec::new(alloc);
    for _ in 0..usize::from(trunk.links()) + 1 {
        lines.push(Vec::new(alloc))?;
    }
    Ok(End {
        trunk,
        word,
        out: StationOut::new(alloc)?,
        lines,
    })
}

/// Two ends of these settings.
pub(crate) fn make_pair(alloc: Global, settings: &str) -> Result<Pair, Fail> {
    let text = format!(in alloc; "version = 2\n{settings}")?;
    let config = read_config(alloc, text.as_bytes())?;
    Ok(Pair {
        a: make_end(alloc, &config.a, 4)?,
        b: make_end(alloc, &config.b, 9)?,
        text: String::new(alloc),
    })
}

/// Writes octets in hex.
pub(crate) fn write_hex(text: &mut String, octets: &[u8]) -> Result<(), Fail> {
    for octet in octets {
        write!(text, "{octet:02x}")?;
    }
    text.push_str("; ")?;
    Ok(())
}

/// Writes an entry that is no frame.
pub(crate) fn write_other(
    name: &str,
    entry: StationEntry<'_>,
    text: &mut String,
) -> Result<(), Fail> {
    match entry {
        StationEntry::Push { .. } => Ok(()),
        StationEntry::Got {
            class,
            protocol,
            octets,
        } => {
            write!(text, "{name}got {class:?} {protocol:04x} ")?;
            write_hex(text, octets)
        }
        StationEntry::Hang(link) => {
            write!(text, "{name}hang {link}; ")?;
            Ok(())
        }
        StationEntry::Dial(link) => {
            write!(text, "{name}dial {link}; ")?;
            Ok(())
        }
        StationEntry::Asked(answer) => {
            write!(text, "{name}asked {answer:?}; ")?;
            Ok(())
        }
    }
}

/// Puts octets on the line of a link.
pub(crate) fn put(lines: &mut Vec<Vec<u8>>, link: u8, octets: &[u8]) -> Result<(), Fail> {
    if let Some(line) = lines.get_mut(usize::from(link)) {
        line.extend_from_slice(octets)?;
    }
    Ok(())
}

/// Writes what an event made, and puts its frames on the lines.
pub(crate) fn post(
    name: &str,
    out: &StationOut,
    lines: &mut Vec<Vec<u8>>,
    text: &mut String,
) -> Result<(), Fail> {
    for i in 0..out.count() {
        let entry = out.at(i);
        match entry {
            StationEntry::Push { link, octets } => put(lines, link, octets)?,
            entry => write_other(name, entry, text)?,
        }
    }
    Ok(())
}

/// Writes a frame by its protocol and information.
pub(crate) fn write_frame(
    link: u8,
    octets: &[u8],
    reader: &mut Deframer,
    text: &mut String,
) -> Result<(), Fail> {
    reader.feed(octets);
    if !reader.has_frame() {
        text.push_str("no frame; ")?;
        return Ok(());
    }
    let frame = reader.frame();
    let protocol = frame.protocol;
    write!(text, "push {link} {protocol:04x} ")?;
    write_hex(text, frame.info)
}

/// Writes all that an event made.
pub(crate) fn write_all(alloc: Global, out: &StationOut, text: &mut String) -> Result<(), Fail> {
    let mut reader = Deframer::new(alloc, 8200)?;
    for i in 0..out.count() {
        let entry = out.at(i);
        if let StationEntry::Push { link, octets } = entry {
            write_frame(link, octets, &mut reader, text)?;
        }
        write_other("", entry, text)?;
    }
    Ok(())
}

/// Writes the frames that an event made as they are.
pub(crate) fn write_raw(out: &StationOut, text: &mut String) -> Result<(), Fail> {
    for i in 0..out.count() {
        if let StationEntry::Push { link, octets } = out.at(i) {
            write!(text, "{link} ")?;
            write_hex(text, octets)?;
        }
    }
    Ok(())
}

/// Whether an event is of one of so many links.
pub(crate) fn is_of(event: TrunkEvent<'_>, links: u8) -> bool
    ensures { IsTrue result → IsOfLinks event.entry links }
{
    match event {
        TrunkEvent::Up(link)
        | TrunkEvent::Down(link)
        | TrunkEvent::AdminOpen(link, _)
        | TrunkEvent::AdminClose(link, _)
        | TrunkEvent::Timeout(link, _)
        | TrunkEvent::Bytes(link, _) => 1 <= link && link <= links,
        TrunkEvent::Reset => true,
    }
}

/// Does an event of an end, if it is of one of its links.
pub(crate) fn happen(end: &mut End, event: TrunkEvent<'_>) {
    if is_of(event, end.trunk.links()) {
        end.trunk.event(event, end.word, &mut end.out);
    }
}

/// An end takes what is on the line of a link, frame by frame.
pub(crate) fn take_line(
    alloc: Global,
    name: &str,
    end: &mut End,
    link: u8,
    lines: &mut Vec<Vec<u8>>,
    text: &mut String,
) -> Result<(), Fail> {
    let Some(line) = end.lines.get_mut(usize::from(link)) else {
        return Ok(());
    };
    let octets = mem::replace(line, Vec::new(alloc));
    let mut rest = octets.as_slice();
    for _ in 0..octets.len() {
        if rest.is_empty() {
            break;
        }
        happen(end, TrunkEvent::Bytes(link, rest));
        post(name, &end.out, lines, text)?;
        rest = rest.get(end.out.used()..).unwrap_or(&[]);
    }
    Ok(())
}

/// Each end takes what the other sent, b first, until both are quiet.
pub(crate) fn settle(alloc: Global, pair: &mut Pair) -> Result<(), Fail> {
    for _ in 0..8 {
        for link in 0..pair.a.trunk.links() + 1 {
            take_line(
                alloc,
                "b ",
                &mut pair.b,
                link,
                &mut pair.a.lines,
                &mut pair.text,
            )?;
            take_line(
                alloc,
                "a ",
                &mut pair.a,
                link,
                &mut pair.b.lines,
                &mut pair.text,
            )?;
        }
    }
    Ok(())
}

/// Writes the states of a link.
pub(crate) fn write_states(trunk: &Trunk, link: u8, text: &mut String) -> Result<(), Fail> {
    let protos = [
        Proto::Lcp,
        Proto::Ip,
        Proto::Ipv6,
        Proto::Osi,
        Proto::Mpls,
        Proto::Bacp,
    ];
    if link == 0 || link > trunk.links() {
        return Ok(());
    }
    for proto in protos {
        match trunk.link(link).state(proto) {
            Some(state) => write!(text, "{state} ")?,
            None => text.push_str("- ")?,
        }
    }
    text.push_str("; ")?;
    Ok(())
}

/// Writes the control link of each bundle of a trunk.
pub(crate) fn write_controls(trunk: &Trunk, text: &mut String) -> Result<(), Fail> {
    for bundle in 0..MOST_BUNDLES {
        if let Some(link) = control_in(trunk, bundle) {
            write!(text, "{bundle} by {link} ")?;
        }
    }
    text.push_str("; ")?;
    Ok(())
}

/// The control link of a bundle of a trunk, which has 8.
fn control_in(trunk: &Trunk, bundle: u8) -> Option<u8> {
    let bundles = trunk.bundles();
    if bundle < bundles.limits().bundles {
        bundles.control(bundle)
    } else {
        None
    }
}

/// A frame comes on a link of an end.
pub(crate) fn hear_frame(
    alloc: Global,
    end: &mut End,
    link: u8,
    protocol: u16,
    info: &[u8],
) -> Result<(), Fail> {
    let form = Form {
        map: 0xffff_ffff,
        ac: false,
        pf: false,
    };
    let mut buffer = FrameBuf::new(alloc)?;
    encode(&mut buffer, form, protocol, info)?;
    happen(end, TrunkEvent::Bytes(link, buffer.octets()));
    Ok(())
}

/// Does a step.
pub(crate) fn do_step(alloc: Global, pair: &mut Pair, step: Step<'_>) -> Result<(), Fail> {
    let text = &mut pair.text;
    match step {
        Step::A(event) => {
            happen(&mut pair.a, event);
            post("a ", &pair.a.out, &mut pair.b.lines, text)
        }
        Step::B(event) => {
            happen(&mut pair.b, event);
            post("b ", &pair.b.out, &mut pair.a.lines, text)
        }
        Step::All(event) => {
            happen(&mut pair.a, event);
            write_all(alloc, &pair.a.out, text)
        }
        Step::Raw(event) => {
            happen(&mut pair.a, event);
            write_raw(&pair.a.out, text)
        }
        Step::Frame(link, protocol, info) => {
            hear_frame(alloc, &mut pair.a, link, protocol, info)?;
            write_all(alloc, &pair.a.out, text)
        }
        Step::Settle => settle(alloc, pair),
        Step::States(link) => {
            write_states(&pair.a.trunk, link, text)?;
            write_states(&pair.b.trunk, link, text)
        }
        Step::Controls => {
            write_controls(&pair.a.trunk, text)?;
            write_controls(&pair.b.trunk, text)
        }
        Step::Counts => {
            let (links, used, held) = (
                pair.a.trunk.links(),
                pair.a.out.used(),
                pair.a.trunk.held(),
            );
            write!(text, "links {links} used {used} held {held}; ")?;
            Ok(())
        }
    }
}

/// Does steps in turn.
pub(crate) fn step_all(alloc: Global, pair: &mut Pair, steps: &[Step<'_>]) -> Result<(), Fail> {
    for what in steps {
        do_step(alloc, pair, *what)?;
    }
    Ok(())
}

/// Looks at cases at ends of these settings: the text of some steps, behind steps of which nothing is written.
pub(crate) fn check(
    alloc: Global,
    rt: &impl Abort,
    settings: &str,
    before: &[Step<'_>],
    cases: &[(&[Step<'_>], &str)],
) -> Result<(), Fail> {
    for (steps, wanted) in cases {
        let mut pair = make_pair(alloc, settings)?;
        step_all(alloc, &mut pair, before)?;
        pair.text.clear();
        step_all(alloc, &mut pair, steps)?;
        assert_eq!(rt; pair.text.as_str(), *wanted, "at {wanted}");
    }
    Ok(())
}
