//! Two stations that talk, for tests: steps, and the text that comes of them.

ghost use Rattle.std.specs.Prelude.{IsTrue};
ghost use Rattle.ppp_station.specs.Station.{IsOfAsk, IsOfLinks};
ghost use Rattle.ppp_trunk.specs.Trunk.{IsOfLink};

use crate::{BapAsk, CallAsk, Policy, Station, StationEntry, StationEvent, StationOut};
use ppp_bundle::MOST_BUNDLES;
use ppp_conf::{Config, EndConfig, read_config};
use ppp_frame::Deframer;
use ppp_trunk::BAP;
use std::alloc::Global;
use std::mem;
use std::process::Abort;
use std::test::Fail;

/// One end: its station, the word that it takes, what its last event made, and the octets on the line to it of each link.
#[derive(Drop)]
struct End<F: Policy> {
    station: Station<F>,
    word: u64,
    out: StationOut,
    lines: Vec<Vec<u8>>,
}

/// Two ends, what reads the frames between them, and what came of the steps so far.
#[derive(Drop)]
struct Pair<F: Policy, G: Policy> {
    a: End<F>,
    b: End<G>,
    reader: Deframer,
    text: String,
}

/// A step: what it makes is written into the text, each entry with `; ` behind it, and of frames those of BAP.
#[derive(Clone, Copy)]
pub(crate) enum Step<'a> {
    /// An event of end a, or of end b.
    A(StationEvent<'a>),
    B(StationEvent<'a>),
    /// Each end takes what the other sent, b first, until both are quiet.
    Settle,
    /// What is on the lines is lost.
    Lose,
    /// Writes the bundles of both ends: which links are joined and marked in it, and whether a request waits.
    Bundles,
}

/// An end of these settings.
fn make_end<F: Policy + Drop>(
    alloc: Global,
    config: &EndConfig,
    policy: F,
    word: u64,
) -> Result<End<F>, Fail>
    requires { F.may policy }
{
    let station = Station::new(alloc, config, policy)?;
    Ok(End {
        lines: make_lines(alloc, station.links())?,
        station,
        word,
        out: StationOut::new(alloc)?,
    })
}

/// A line for each link and one that no link has.
fn make_lines(alloc: Global, links: u8) -> Result<Vec<Vec<u8>>, Fail> {
    let mut lines = Vec::new(alloc);
    for _ in 0..usize::from(links) + 1 {
        lines.push(Vec::new(alloc))?;
    }
    Ok(lines)
}

/// Whether there is a link of that number.
fn is_link(link: u8, links: u8) -> bool
    ensures { IsTrue result → IsOfLink links link }
{
    1 <= link && link <= links
}

/// Whether a link that is to be dropped is one of so many.
fn is_of_ask(what: BapAsk, links: u8) -> bool
    ensures { IsTrue result → IsOfAsk what links }
{
    match what {
        BapAsk::Drop(link) => is_link(link, links),
        BapAsk::Call | BapAsk::Callback => true,
    }
}

/// Whether an event is of one of so many links.
fn is_of(event: StationEvent<'_>, links: u8) -> bool
    ensures { IsTrue result → IsOfLinks event.entry links }
{
    match event {
        StationEvent::Up(link)
        | StationEvent::Down(link)
        | StationEvent::AdminOpen(link, _)
        | StationEvent::AdminClose(link, _)
        | StationEvent::Timeout(link, _)
        | StationEvent::BapTimeout(link)
        | StationEvent::Bytes(link, _)
        | StationEvent::Status(link, _) => is_link(link, links),
        StationEvent::Ask(link, what) => is_link(link, links) && is_of_ask(what, links),
        StationEvent::Reset => true,
    }
}

/// Does an event of an end, if it is of its links.
fn happen<F: Policy>(end: &mut End<F>, event: StationEvent<'_>) {
    if is_of(event, end.station.links()) {
        end.station.event(event, end.word, &mut end.out);
    }
}

/// Writes octets in hex.
fn write_hex(text: &mut String, octets: &[u8]) -> Result<(), Fail> {
    for octet in octets {
        write!(text, "{octet:02x}")?;
    }
    text.push_str("; ")?;
    Ok(())
}

/// Puts octets on the line of a link.
fn put(lines: &mut Vec<Vec<u8>>, link: u8, octets: &[u8]) -> Result<(), Fail> {
    if let Some(line) = lines.get_mut(usize::from(link)) {
        line.extend_from_slice(octets)?;
    }
    Ok(())
}

/// Writes a frame, if it is one of BAP.
fn write_frame(
    name: &str,
    link: u8,
    octets: &[u8],
    reader: &mut Deframer,
    text: &mut String,
) -> Result<(), Fail> {
    reader.feed(octets);
    if !reader.has_frame() {
        return Ok(());
    }
    let frame = reader.frame();
    if frame.protocol != BAP {
        return Ok(());
    }
    write!(text, "{name} send {link} ")?;
    write_hex(text, frame.info)
}

/// Writes an entry that is no frame.
fn write_other(name: &str, entry: StationEntry<'_>, text: &mut String) -> Result<(), Fail> {
    match entry {
        StationEntry::Push { .. } => {}
        StationEntry::Got { protocol, .. } => write!(text, "{name} got {protocol:04x}; ")?,
        StationEntry::Hang(link) => write!(text, "{name} hang {link}; ")?,
        StationEntry::Dial(link) => write!(text, "{name} dial {link}; ")?,
        StationEntry::Asked(Ok(())) => write!(text, "{name} sent; ")?,
        StationEntry::Asked(Err(why)) => write!(text, "{name} {why:?}; ")?,
    }
    Ok(())
}

/// Writes what an event made, and puts its frames on the lines.
fn post(
    name: &str,
    out: &StationOut,
    reader: &mut Deframer,
    lines: &mut Vec<Vec<u8>>,
    text: &mut String,
) -> Result<(), Fail> {
    for i in 0..out.count() {
        let entry = out.at(i);
        if let StationEntry::Push { link, octets } = entry {
            put(lines, link, octets)?;
            write_frame(name, link, octets, reader, text)?;
        }
        write_other(name, entry, text)?;
    }
    Ok(())
}

/// An end takes what is on the line of a link, frame by frame.
fn take_line<F: Policy>(
    alloc: Global,
    name: &str,
    end: &mut End<F>,
    link: u8,
    reader: &mut Deframer,
    lines: &mut Vec<Vec<u8>>,
    text: &mut String,
) -> Result<(), Fail> {
    let Some(line) = end.lines.get_mut(usize::from(link)) else {
        return Ok(());
    };
    let octets = mem::replace(line, Vec::new(alloc));
    let mut rest = octets.as_slice();
    for _ in 0..octets.len() {
        if rest.is_empty() {
            break;
        }
        happen(end, StationEvent::Bytes(link, rest));
        post(name, &end.out, reader, lines, text)?;
        rest = rest.get(end.out.used()..).unwrap_or(&[]);
    }
    Ok(())
}

/// Each end takes what the other sent on a link, b first.
fn take_both<F: Policy, G: Policy>(
    alloc: Global,
    pair: &mut Pair<F, G>,
    link: u8,
) -> Result<(), Fail> {
    take_line(
        alloc,
        "b",
        &mut pair.b,
        link,
        &mut pair.reader,
        &mut pair.a.lines,
        &mut pair.text,
    )?;
    take_line(
        alloc,
        "a",
        &mut pair.a,
        link,
        &mut pair.reader,
        &mut pair.b.lines,
        &mut pair.text,
    )
}

/// Each end takes what the other sent, until both are quiet.
fn settle<F: Policy, G: Policy>(alloc: Global, pair: &mut Pair<F, G>) -> Result<(), Fail> {
    for _ in 0..8 {
        for link in 0..pair.a.station.links() + 1 {
            take_both(alloc, pair, link)?;
        }
    }
    Ok(())
}

/// Loses what is on the lines.
fn lose(lines: &mut Vec<Vec<u8>>) {
    for i in 0..lines.len() {
        lines[i].clear();
    }
}

/// Writes the bundles of a station.
fn write_bundles<F: Policy>(
    name: &str,
    station: &Station<F>,
    text: &mut String,
) -> Result<(), Fail> {
    for bundle in 0..MOST_BUNDLES {
        write_bundle(name, station, bundle, text)?;
    }
    Ok(())
}

/// Writes the links of a bundle as bits, the lowest for link 1, the marked ones likewise, and what waits.
fn write_bundle<F: Policy>(
    name: &str,
    station: &Station<F>,
    bundle: u8,
    text: &mut String,
) -> Result<(), Fail> {
    let bundles = station.bundles();
    if bundle >= bundles.limits().bundles || bundle >= MOST_BUNDLES {
        return Ok(());
    }
    let (joined, marked) = (bundles.joined(bundle), bundles.marked(bundle));
    if joined == 0 {
        return Ok(());
    }
    write!(text, "{name} joined {joined:b} marked {marked:b} ")?;
    match station.waiting(bundle) {
        Some(what) => write!(text, "waits {what:?}; ")?,
        None => text.push_str("waits -; ")?,
    }
    Ok(())
}

/// Does a step.
fn do_step<F: Policy, G: Policy>(
    alloc: Global,
    pair: &mut Pair<F, G>,
    step: Step<'_>,
) -> Result<(), Fail> {
    let (text, reader) = (&mut pair.text, &mut pair.reader);
    match step {
        Step::A(event) => {
            happen(&mut pair.a, event);
            post("a", &pair.a.out, reader, &mut pair.b.lines, text)
        }
        Step::B(event) => {
            happen(&mut pair.b, event);
            post("b", &pair.b.out, reader, &mut pair.a.lines, text)
        }
        Step::Settle => settle(alloc, pair),
        Step::Lose => {
            lose(&mut pair.a.lines);
            lose(&mut pair.b.lines);
            Ok(())
        }
        Step::Bundles => {
            write_bundles("a", &pair.a.station, text)?;
            write_bundles("b", &pair.b.station, text)
        }
    }
}

/// Does steps in turn.
fn step_all<F: Policy, G: Policy>(
    alloc: Global,
    pair: &mut Pair<F, G>,
    steps: &[Step<'_>],
) -> Result<(), Fail> {
    for step in steps {
        do_step(alloc, pair, *step)?;
    }
    Ok(())
}

/// What comes of steps behind others of which nothing is written.
fn written<F: Policy + Drop, G: Policy + Drop>(
    alloc: Global,
    config: &Config,
    policy_a: F,
    policy_b: G,
    before: &[Step<'_>],
    steps: &[Step<'_>],
) -> Result<String, Fail>
    requires a { F.may policy_a }
    requires b { G.may policy_b }
{
    let mut pair = Pair {
        a: make_end(alloc, &config.a, policy_a, 4)?,
        b: make_end(alloc, &config.b, policy_b, 9)?,
        reader: Deframer::new(alloc, 8200)?,
        text: String::new(alloc),
    };
    step_all(alloc, &mut pair, before)?;
    pair.text.clear();
    step_all(alloc, &mut pair, steps)?;
    Ok(pair.text)
}

/// Looks at cases at ends of these settings, whose policies say yes to links of at most 64: the text of some steps, behind steps of
/// which nothing is written.
pub(crate) fn check(
    alloc: Global,
    rt: &impl Abort,
    settings: &str,
    before: &[Step<'_>],
    cases: &[(&[Step<'_>], &str)],
) -> Result<(), Fail> {
    let config = read_config(alloc, settings.as_bytes())?;
    for (steps, wanted) in cases {
        let text = written(
            alloc,
            &config,
            |call: &CallAsk| call.speed <= 64,
            |call: &CallAsk| call.speed <= 64,
            before,
            steps,
        )?;
        assert_eq!(rt; text.as_str(), *wanted, "at {wanted}");
    }
    Ok(())
}
