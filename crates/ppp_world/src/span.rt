//! Where a span is too wide.

ghost use Rattle.std.specs.Prelude.{◌≡◌, ◌≤◌, false, length};
ghost use Rattle.ppp_trunk.specs.Trunk.{IsOfLink};
ghost use Rattle.ppp_world.specs.Ordinals.{AreOrdinals, AreOrdinalsFor, AreOrdinalsOf, MayWiden, NoneRose, QuietElsewhere, QuietEverywhere, WidensWhere};
ghost use Rattle.ppp_world.specs.Outstanding.{calls_outstanding, control_outstanding, ends_of, if_on_link, outstanding_from, outstanding_in, outstanding_on};

use crate::outstanding::{Outstanding, PROTOCOLS};
use crate::step::Step;
use crate::two_ends::TwoEnds;
use ppp_packet::Proto;
use ppp_party::Party;
use ppp_script::End;
use ppp_station::Policy;
use ppp_trunk::BAP;

/// The widest span: an Identifier of 8 bits tells that many requests apart.
const WIDEST: u64 = 255;

/// The ordinals of the last Configure-Request of each protocol, at an end on a link.
#[derive(Clone, Copy)]
pub(crate) struct LinkOrdinals {
    lcp: u64,
    ip: u64,
    ipv6: u64,
    osi: u64,
    mpls: u64,
    bacp: u64,
}

impl LinkOrdinals {
    /// None was sent.
    fn zero() -> LinkOrdinals {
        LinkOrdinals {
            lcp: 0,
            ip: 0,
            ipv6: 0,
            osi: 0,
            mpls: 0,
            bacp: 0,
        }
    }

    /// Those of an end on a link.
    fn on<F: Policy>(party: &Party<F>, link: u8) -> LinkOrdinals
        requires { IsOfLink (length party.now.party.trunk.links) link }
        ensures { AreOrdinals link party.now.party result }
    {
        LinkOrdinals {
            lcp: party.sent(link, Proto::Lcp),
            ip: party.sent(link, Proto::Ip),
            ipv6: party.sent(link, Proto::Ipv6),
            osi: party.sent(link, Proto::Osi),
            mpls: party.sent(link, Proto::Mpls),
            bacp: party.sent(link, Proto::Bacp),
        }
    }

    /// Whether one of an end's on a link is higher.
    fn rose<F: Policy>(&self, party: &Party<F>, link: u8) -> bool
        requires { IsOfLink (length party.now.party.trunk.links) link }
        ensures { result ≡ false → NoneRose link party.now.party self.now }
    {
        self.lcp < party.sent(link, Proto::Lcp)
            || self.ip < party.sent(link, Proto::Ip)
            || self.ipv6 < party.sent(link, Proto::Ipv6)
            || self.osi < party.sent(link, Proto::Osi)
            || self.mpls < party.sent(link, Proto::Mpls)
            || self.bacp < party.sent(link, Proto::Bacp)
    }
}

/// The ordinals of an end on each of its links.
#[derive(Clone, Copy)]
pub(crate) struct Ordinals {
    links: [LinkOrdinals; 16],
}

impl Ordinals {
    /// Those of an end.
    fn of<F: Policy>(party: &Party<F>) -> Ordinals
        ensures { AreOrdinalsOf party.now.party result }
    {
        let mut links = [LinkOrdinals::zero(); 16];
        for i in 0..party.station().links() {
            links[usize::from(i)] = LinkOrdinals::on(party, i + 1);
        }
        Ordinals { links }
    }

    /// Those that a step may raise: of its end, if it is of one.
    pub(crate) fn before<F: Policy, G: Policy>(ends: &TwoEnds<F, G>, step: Step) -> Ordinals
        ensures { AreOrdinalsFor step ends.now.ends result }
    {
        match step {
            Step::Happens(at, _, _)
            | Step::Delivers(at, _)
            | Step::Asks(at, _, _)
            | Step::Tells(at, _, _)
            | Step::Tries(at, _) => match at {
                End::A => Ordinals::of(ends.a()),
                End::B => Ordinals::of(ends.b()),
            },
            Step::Loses(_, _, _) | Step::Reboots(_) | Step::Reports | Step::Rests => Ordinals {
                links: [LinkOrdinals::zero(); 16],
            },
        }
    }
}

/// The first span that is too wide after a step, before which those were the ordinals: end a's before end b's, then of the
/// least link, then of the first protocol, and BAP's behind them. A control protocol's is looked for only where the step can have
/// made one wider.
pub(crate) fn wider_since<F: Policy, G: Policy>(
    ends: &TwoEnds<F, G>,
    step: Step,
    before: &Ordinals,
) -> Option<Outstanding>
    requires some { 1 ≤ length ends.now.ends.own.trunk.links }
    requires alike { length ends.now.ends.other.trunk.links ≡ length ends.now.ends.own.trunk.links }
    requires widens { MayWiden step before.now ends.now.ends }
    ensures { result ≡ outstanding_in ends.now.ends }
{
    match step {
        Step::Happens(at, _, _)
        | Step::Delivers(at, _)
        | Step::Asks(at, _, _)
        | Step::Tells(at, _, _)
        | Step::Tries(at, _) => match at {
            End::A => wider_where(ends, ends.a(), before),
            End::B => wider_where(ends, ends.b(), before),
        },
        Step::Reboots(_) => wider_anywhere(ends),
        Step::Loses(_, _, _) | Step::Reports | Step::Rests => wider_calls(ends),
    }
}

/// The first span of BAP that is too wide.
fn wider_calls<F: Policy, G: Policy>(ends: &TwoEnds<F, G>) -> Option<Outstanding>
    requires some { 1 ≤ length ends.now.ends.own.trunk.links }
    requires alike { length ends.now.ends.other.trunk.links ≡ length ends.now.ends.own.trunk.links }
    requires quiet { QuietEverywhere ends.now.ends }
    ensures { result ≡ outstanding_in ends.now.ends }
{
    match calls(End::A, ends.a(), ends.b()) {
        Some(fault) => Some(fault),
        None => calls(End::B, ends.b(), ends.a()),
    }
}

/// The first span that is too wide, of a control protocol on links where an ordinal of that end rose, or of BAP.
fn wider_where<F: Policy, G: Policy, H: Policy>(
    ends: &TwoEnds<F, G>,
    party: &Party<H>,
    before: &Ordinals,
) -> Option<Outstanding>
    requires links { length party.now.party.trunk.links ≡ length ends.now.ends.own.trunk.links }
    requires alike { length ends.now.ends.other.trunk.links ≡ length ends.now.ends.own.trunk.links }
    requires widens { WidensWhere party.now.party before.now ends.now.ends }
    ensures { result ≡ outstanding_in ends.now.ends }
{
    match wider_among_risen(End::A, ends.a(), ends.b(), party, before) {
        Some(fault) => Some(fault),
        None => wider_among_risen(End::B, ends.b(), ends.a(), party, before),
    }
}

/// The first span of an end that is too wide, of the links where an ordinal of the other party rose, or of BAP.
fn wider_among_risen<F: Policy, G: Policy, H: Policy>(
    name: End,
    own: &Party<F>,
    other: &Party<G>,
    party: &Party<H>,
    before: &Ordinals,
) -> Option<Outstanding>
    requires alike { length other.now.party.trunk.links ≡ length own.now.party.trunk.links }
    requires links { length party.now.party.trunk.links ≡ length own.now.party.trunk.links }
    requires quiet { QuietElsewhere name party.now.party before.now (ends_of own.now.party other.now.party) }
    ensures { result ≡ outstanding_from name (length own.now.party.trunk.links) 1 (ends_of own.now.party other.now.party) }
{
    let calls = calls(name, own, other);
    for i in 0..own.station().links() {
        if before.links[usize::from(i)].rose(party, i + 1) {
            if let Some(fault) = wider_at(name, own, other, i + 1) {
                return Some(fault);
            }
        }
        if let Some(fault) = on_link(i + 1, calls) {
            return Some(fault);
        }
    }
    None
}

/// The first span that is too wide on any link.
fn wider_anywhere<F: Policy, G: Policy>(ends: &TwoEnds<F, G>) -> Option<Outstanding>
    requires { length ends.now.ends.other.trunk.links ≡ length ends.now.ends.own.trunk.links }
    ensures { result ≡ outstanding_in ends.now.ends }
{
    match wider_among(End::A, ends.a(), ends.b()) {
        Some(fault) => Some(fault),
        None => wider_among(End::B, ends.b(), ends.a()),
    }
}

/// The first span of an end that is too wide, of all its links.
fn wider_among<F: Policy, G: Policy>(
    name: End,
    own: &Party<F>,
    other: &Party<G>,
) -> Option<Outstanding>
    requires { length other.now.party.trunk.links ≡ length own.now.party.trunk.links }
    ensures { result ≡ outstanding_from name (length own.now.party.trunk.links) 1 (ends_of own.now.party other.now.party) }
{
    let calls = calls(name, own, other);
    for i in 0..own.station().links() {
        if let Some(fault) = wider_at(name, own, other, i + 1) {
            return Some(fault);
        }
        if let Some(fault) = on_link(i + 1, calls) {
            return Some(fault);
        }
    }
    None
}

/// The first span of an end's control protocols that is too wide on a link.
fn wider_at<F: Policy, G: Policy>(
    name: End,
    own: &Party<F>,
    other: &Party<G>,
    link: u8,
) -> Option<Outstanding>
    requires own { IsOfLink (length own.now.party.trunk.links) link }
    requires other { IsOfLink (length other.now.party.trunk.links) link }
    ensures { result ≡ control_outstanding name link (ends_of own.now.party other.now.party) }
{
    for i in 0..PROTOCOLS.len() {
        if let Some(fault) = wider(name, own, other, link, PROTOCOLS[i]) {
            return Some(fault);
        }
    }
    None
}

/// An end's span of a protocol on a link, if it is too wide.
fn wider<F: Policy, G: Policy>(
    name: End,
    own: &Party<F>,
    other: &Party<G>,
    link: u8,
    proto: Proto,
) -> Option<Outstanding>
    requires own { IsOfLink (length own.now.party.trunk.links) link }
    requires other { IsOfLink (length other.now.party.trunk.links) link }
    ensures { result ≡ outstanding_on name link (ends_of own.now.party other.now.party) proto }
{
    let sent = own.sent(link, proto);
    if sent <= WIDEST {
        return None;
    }
    let oldest = own.oldest(other, link, proto);
    if sent.saturating_sub(oldest) <= WIDEST {
        return None;
    }
    Some(Outstanding {
        end: name,
        link,
        protocol: proto.number(),
        sent,
        oldest,
    })
}

/// An end's span of BAP, if it is too wide.
fn calls<F: Policy, G: Policy>(name: End, own: &Party<F>, other: &Party<G>) -> Option<Outstanding>
    requires { length other.now.party.trunk.links ≡ length own.now.party.trunk.links }
    ensures { result ≡ calls_outstanding name (ends_of own.now.party other.now.party) }
{
    let sent = own.drawn();
    if sent <= WIDEST {
        return None;
    }
    let oldest = own.oldest_call(other);
    if sent.saturating_sub(oldest.mark) <= WIDEST {
        return None;
    }
    Some(Outstanding {
        end: name,
        link: oldest.link,
        protocol: BAP,
        sent,
        oldest: oldest.mark,
    })
}

/// A span that is too wide, if it is on that link.
fn on_link(link: u8, fault: Option<Outstanding>) -> Option<Outstanding>
    ensures { result ≡ if_on_link link fault }
{
    match fault {
        Some(fault) if fault.link == link => Some(fault),
        _ => None,
    }
}
