//! The blocks of a report.

ghost use Rattle.std.specs.Prelude.{◌≡◌, ◌++◌, length, OnOk, Some, is_some, option_map, ◌||◌};
ghost use Rattle.std.specs.String.{string_bytes};
ghost use Rattle.ppp_link.specs.Automata.{auto_at};
ghost use Rattle.ppp_trunk.specs.Trunk.{IsOfLink};
ghost use Rattle.ppp_world.specs.Agreement.{opened_on};
ghost use Rattle.ppp_world.specs.Report.{agree_text, list_text, both_states, granted_text, line, line_on, link_lines, links_block, show_block, state_text, terms_text};

use crate::agreement::{agree, link_of};
use crate::bundle_lines::write_bundles;
use crate::outstanding::PROTOCOLS;
use ppp_auto::AutoState;
use ppp_link::Link;
use ppp_memory::Memory;
use ppp_packet::{OptList, Proto};
use ppp_script::End;
use ppp_station::{Policy, Station};
use ppp_text::HexText;
use ppp_trunk::Trunk;
use std::fmt;

/// Writes the block of a `show` at a step, of two ends with the same number of links.
pub(crate) fn write_show<F: Policy, G: Policy>(
    report: &mut String,
    step: u32,
    a: &Station<F>,
    b: &Station<G>,
) -> Result<(), Memory>
    requires { length a.now.station.trunk.links ≡ length b.now.station.trunk.links }
    ensures { OnOk result (string_bytes report.new
        ≡ string_bytes report.old ++ show_block step a.now.station b.now.station) }
{
    write_links(report, step, a.trunk(), b.trunk())?;
    write_bundles(report, End::A, a)?;
    write_bundles(report, End::B, b)
}

/// Writes what is said of the links.
fn write_links(report: &mut String, step: u32, a: &Trunk, b: &Trunk) -> Result<(), Memory>
    requires { length a.now.links ≡ length b.now.links }
    ensures { OnOk result (string_bytes report.new ≡ string_bytes report.old
        ++ links_block (λ m p. opened_on m p a.now.links b.now.links) step a.now b.now) }
{
    write!(report, "show {step}\n").map_err(|_| Memory)?;
    for i in 0..a.links() {
        write_link(report, i + 1, a, b)?;
    }
    Ok(())
}

/// Writes the lines of a link.
fn write_link(report: &mut String, link: u8, a: &Trunk, b: &Trunk) -> Result<(), Memory>
    requires of_a { IsOfLink (length a.now.links) link }
    requires of_b { IsOfLink (length b.now.links) link }
    ensures { OnOk result (string_bytes report.new ≡ string_bytes report.old
        ++ link_lines (λ m p. opened_on m p a.now.links b.now.links) link a.now.links b.now.links) }
{
    for i in 0..PROTOCOLS.len() {
        write_proto(report, link, PROTOCOLS[i], a, b)?;
    }
    Ok(())
}

/// Writes the line of a protocol on a link, if an end has it.
fn write_proto(
    report: &mut String,
    link: u8,
    proto: Proto,
    a: &Trunk,
    b: &Trunk,
) -> Result<(), Memory>
    requires of_a { IsOfLink (length a.now.links) link }
    requires of_b { IsOfLink (length b.now.links) link }
    ensures { OnOk result (string_bytes report.new ≡ string_bytes report.old
        ++ line_on (λ m p. opened_on m p a.now.links b.now.links) link a.now.links b.now.links proto) }
{
    let line = Line {
        number: link,
        proto,
        a: link_of(a, link),
        b: link_of(b, link),
        agree: agree(a, b, link, proto),
    };
    if !line.is_there() {
        return Ok(());
    }
    write!(report, "{line}").map_err(|_| Memory)
}

/// A protocol on a link, at both ends.
#[derive(Clone, Copy)]
struct Line<'a> {
    number: u8,
    proto: Proto,
    a: &'a Link,
    b: &'a Link,
    agree: Option<bool>,
}

impl Line<'_> {
    /// Whether one of the ends has the protocol.
    fn is_there(&self) -> bool
        ensures { result ≡ (is_some (auto_at self.now.a.now.automata self.now.proto)
            || is_some (auto_at self.now.b.now.automata self.now.proto)) }
    {
        self.a.state(self.proto).is_some() || self.b.state(self.proto).is_some()
    }
}

impl fmt::Display for Line<'_> {
    ghost output = { λ l. Some (line l.number l.proto
        (auto_at l.a.now.automata l.proto) (auto_at l.b.now.automata l.proto) l.agree) };

    fn fmt<W: fmt::Write>(&self, f: &mut fmt::Formatter<W>) -> fmt::Result {
        let number = self.number;
        let proto = self.proto;
        let states = BothStates {
            a: self.a.state(proto),
            b: self.b.state(proto),
        };
        let terms = Terms {
            proto,
            a: self.a,
            b: self.b,
            agree: self.agree,
        };
        write!(f, "{number} {proto} {states} {terms}\n")
    }
}

/// The states at both ends.
#[derive(Clone, Copy)]
struct BothStates {
    a: Option<AutoState>,
    b: Option<AutoState>,
}

impl fmt::Display for BothStates {
    ghost output = { λ s. Some (both_states s.a s.b) };

    #[tactic(auto, unfolding(crate::specs::Report::both_states))]
    fn fmt<W: fmt::Write>(&self, f: &mut fmt::Formatter<W>) -> fmt::Result {
        let a = OneState { state: self.a };
        let b = OneState { state: self.b };
        write!(f, "{a} {b}")
    }
}

/// The state of an end, where it has the protocol.
#[derive(Clone, Copy)]
struct OneState {
    state: Option<AutoState>,
}

impl fmt::Display for OneState {
    ghost output = { λ s. Some (state_text s.state) };

    fn fmt<W: fmt::Write>(&self, f: &mut fmt::Formatter<W>) -> fmt::Result {
        match self.state {
            None => f.write_str("Absent"),
            Some(state) => write!(f, "{state}"),
        }
    }
}

/// What is granted to each end and to its peer, and whether they agree.
#[derive(Clone, Copy)]
struct Terms<'a> {
    proto: Proto,
    a: &'a Link,
    b: &'a Link,
    agree: Option<bool>,
}

impl fmt::Display for Terms<'_> {
    ghost output = { λ t. Some (terms_text (auto_at t.a.now.automata t.proto)
        (auto_at t.b.now.automata t.proto) t.agree) };

    #[tactic(auto, unfolding(crate::specs::Report::terms_text))]
    fn fmt<W: fmt::Write>(&self, f: &mut fmt::Formatter<W>) -> fmt::Result {
        let a = Granted {
            proto: self.proto,
            link: self.a,
        };
        let b = Granted {
            proto: self.proto,
            link: self.b,
        };
        let agree = agree_text(self.agree);
        write!(f, "{a} {b} agree {agree}")
    }
}

/// The lists that are granted to an end and to its peer.
#[derive(Clone, Copy)]
struct Granted<'a> {
    proto: Proto,
    link: &'a Link,
}

impl fmt::Display for Granted<'_> {
    ghost output = { λ g. Some (granted_text (auto_at g.link.now.automata g.proto)) };

    #[tactic(auto, unfolding(crate::specs::Report::granted_text))]
    fn fmt<W: fmt::Write>(&self, f: &mut fmt::Formatter<W>) -> fmt::Result {
        let mine = OneList {
            list: self.link.mine(self.proto),
        };
        let peer = OneList {
            list: self.link.peer(self.proto),
        };
        write!(f, "{mine} {peer}")
    }
}

/// A list, if it is granted.
#[derive(Clone, Copy)]
struct OneList<'a> {
    list: Option<&'a OptList>,
}

impl fmt::Display for OneList<'_> {
    ghost output = { λ l. Some (list_text (option_map (λ list. list.now) l.list)) };

    fn fmt<W: fmt::Write>(&self, f: &mut fmt::Formatter<W>) -> fmt::Result {
        let Some(list) = self.list else {
            return f.write_str("-");
        };
        if list.is_empty() {
            return f.write_str("empty");
        }
        let octets = HexText {
            octets: list.octets(),
        };
        write!(f, "{octets}")
    }
}

/// Whether the ends agree, as a report says it.
fn agree_text(agree: Option<bool>) -> &'static str
    ensures { result.now ≡ agree_text agree }
{
    match agree {
        None => "-",
        Some(true) => "yes",
        Some(false) => "no",
    }
}
