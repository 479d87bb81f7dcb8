//! A trunk.

ghost use Rattle.std.specs.Prelude.{◌≡◌, ◌+◌, ◌*◌, ◌-◌, ◌<◌, ◌≤◌, ◌++◌, ◌∷◌, [], length, map, IfOk, OnOk, Some, slice_get};
ghost use Rattle.ppp_conf.specs.EndConfig.{end_seen};
ghost use Rattle.ppp_link.specs.LinkSettings.{settings_of};
ghost use Rattle.ppp_link.specs.LinkTables.{tables_seen};
ghost use Rattle.std.specs.List.{AllByRecursion};
ghost use Rattle.ppp_trunk.specs.Moves.{AreLinked};
ghost use Rattle.ppp_trunk.specs.Trunk.{all_settings, held_in, limits_of, link_ready, on_link, opens_all, settings_in, trunk_anew, trunk_does, IsBegun, IsOfLink, IsOfLinks, IsReady, IsUsedOf};
ghost use Rattle.ppp_trunk.specs.StationOut.{all_octets, AreShort};
ghost use Rattle.ppp_trunk.specs.Steps.{frame_on, happening_seen, IsUsed};
ghost use Rattle.ppp_link.specs.declared.link.TheConstants.{MOST_FRAME};
ghost use Rattle.ppp_auto.specs.declared.outbox.TheConstants.{MOST_OCTETS as MOST_PACKET};
ghost use Rattle.ppp_bundle.specs.Bundles.{bundle_at, marked_at};
ghost use Rattle.ppp_bundle.specs.declared.limits.TheConstants.{MOST_LINKS};
ghost use Rattle.ppp_link.specs.declared.link_out.TheConstants.{MOST_PUSH};
ghost use Rattle.ppp_trunk.specs.declared.trunk.TheConstants.{CONTROLS};
ghost use Rattle.ppp_trunk.specs.declared.steps.TheConstants.{BAP, MOST_MADE, MOST_MADE_OCTETS};
ghost use Rattle.ppp_trunk.specs.declared.station_out.TheConstants.{MOST_ENTRIES, MOST_OCTETS};

use crate::happening::{Happening, happen};
use crate::station_out::StationOut;
use crate::steps::{send_on, work};
use crate::trunk_event::TrunkEvent;
use ppp_bundle::{BundleTable, Limits, MOST_BUNDLES, MOST_LINKS, MOST_PEERS};
use ppp_conf::EndConfig;
use ppp_link::{Link, LinkOut};
use ppp_memory::Memory;
use ppp_packet::Proto;
use std::alloc::Global;
use std::marker::Model;

/// The control protocols above LCP, in order.
const CONTROLS: [Proto; 5] = [Proto::Ip, Proto::Ipv6, Proto::Osi, Proto::Mpls, Proto::Bacp];

/// One whole end.
#[derive(Drop)]
pub struct Trunk {
    links: Vec<Link>,
    bundles: BundleTable,
    told: LinkOut,
    nets: LinkOut,
}

impl Model for Trunk {
    ghost use Rattle.ppp_trunk.specs.Phases.{IsTrunk};
    ghost use Rattle.ppp_trunk.specs.Trunk as spec;

    ghost Value = { spec.Trunk };

    ghost view = { λ s. record { links = s.links.items; bundles = s.bundles } };

    ghost invariant = { λ s. IsTrunk (record { links = s.links.items; bundles = s.bundles }) };
}

impl Trunk {
    /// A trunk of these settings. Every control protocol that is configured above LCP is to be opened, so it is in
    /// Starting; LCP is in Initial, no link is joined, and no peer is remembered. It takes the memory for all that it holds
    /// later.
    pub fn new(alloc: Global, config: &EndConfig) -> Result<Trunk, Memory>
        ensures begun { IfOk result (λ s. IsBegun s) }
        ensures settings { IfOk result (λ s. settings_in s.links ≡ all_settings config.now.links 1 (end_seen config.now)) }
    {
        let mut told = LinkOut::new(alloc)?;
        let links = ready_links(alloc, config, &mut told)?;
        let bundles = BundleTable::new(alloc, limits_of(config.links))?;
        let nets = LinkOut::new(alloc)?;
        Ok(Trunk {
            links,
            bundles,
            told,
            nets,
        })
    }

    /// Does an event, whose link is one of the trunk's, and puts what it sends and tells into `out`. A word is what a
    /// table draws from where a new list is asked for. It takes no memory.
    pub fn event(&mut self, ev: TrunkEvent<'_>, word: u64, out: &mut StationOut)
        requires { IsOfLinks ev (length self.old.links) }
        ensures trunk { self.new ≡ (trunk_does ev.entry self.old word).trunk }
        ensures out { out.new ≡ (trunk_does ev.entry self.old word).out }
        ensures short { AreShort out.new.entries }
        ensures used { IsUsedOf ev.entry out.new.used }
        ensures few { length out.new.entries ≤ MOST_MADE }
        ensures room { all_octets out.new.entries ≤ MOST_MADE_OCTETS }
        ensures linked { AreLinked (length self.new.links) out.new.entries }
    {
        match ev {
            TrunkEvent::Up(link) => self.happens(link, Happening::LineUp, word, out),
            TrunkEvent::Down(link) => self.happens(link, Happening::LineDown, word, out),
            TrunkEvent::AdminOpen(link, proto) => {
                self.happens(link, Happening::Opens(proto), word, out);
            }
            TrunkEvent::AdminClose(link, proto) => {
                self.happens(link, Happening::Closes(proto), word, out);
            }
            TrunkEvent::Timeout(link, proto) => {
                self.happens(link, Happening::TimesOut(proto), word, out);
            }
            TrunkEvent::Bytes(link, octets) => {
                self.happens(link, Happening::Takes(octets), word, out);
            }
            TrunkEvent::Reset => {
                out.clear();
                self.reset();
            }
        }
    }

    /// How many links there are.
    pub fn links(&self) -> u8
        ensures count { result ≡ length self.now.links }
        ensures most { result ≤ MOST_LINKS }
    {
        self.links.len() as u8
    }

    /// The link of that number, from 1 on.
    pub fn link(&self, link: u8) -> &Link
        requires { IsOfLink (length self.now.links) link }
        ensures { slice_get self.now.links (link - 1) ≡ Some result.now }
    {
        &self.links[usize::from(link) - 1]
    }

    /// Its bundles: which links are joined in which (RFC 1990).
    pub fn bundles(&self) -> &BundleTable
        ensures value { result.now ≡ self.now.bundles }
        ensures limits { result.now.limits ≡ limits_of (length self.now.links) }
    {
        &self.bundles
    }

    /// Marks a link that is joined in that bundle.
    pub fn mark(&mut self, bundle: u8, link: u8)
        requires link { IsOfLink (length self.old.links) link }
        requires joined { bundle_at link self.old.bundles ≡ Some bundle }
        ensures { self.new ≡ record self.old { bundles = marked_at link self.old.bundles } }
    {
        self.bundles.mark(bundle, link);
    }

    /// Sends a packet of at most 1,500 octets of a protocol above LCP that has no automaton on a link, in the form that the peer
    /// asked for.
    pub fn send(&mut self, link: u8, protocol: u16, packet: &[u8], out: &mut StationOut)
        requires link { IsOfLink (length self.old.links) link }
        requires size { length packet.now ≤ MOST_PACKET }
        requires few { length out.old.entries < MOST_ENTRIES }
        requires room { all_octets out.old.entries + MOST_PUSH ≤ MOST_OCTETS }
        ensures trunk { self.new ≡ self.old }
        ensures out { out.new ≡ record out.old {
          entries = out.old.entries ++ frame_on (slice_get self.old.links (link - 1)) link protocol packet.now;
        } }
        ensures octets { all_octets out.new.entries ≤ all_octets out.old.entries + MOST_PUSH }
    {
        send_on(
            &self.links[usize::from(link) - 1],
            link,
            protocol,
            packet,
            &mut self.told,
            out,
        );
    }

    /// The octets that are kept of unfinished frames, escapes undone.
    pub fn held(&self) -> usize
        ensures value { result ≡ held_in self.now.links }
        ensures limit { result ≤ length self.now.links * MOST_FRAME }
    {
        let mut held = 0;
        for i in 0..self.links.len() {
            held += self.links[i].held();
        }
        held
    }

    /// Something happens to a link, and what follows from it.
    fn happens(&mut self, number: u8, what: Happening<'_>, word: u64, out: &mut StationOut)
        requires { IsOfLink (length self.old.links) number }
        ensures trunk { self.new ≡ (on_link (happening_seen what.entry) number self.old word).trunk }
        ensures out { out.new ≡ (on_link (happening_seen what.entry) number self.old word).out }
        ensures short { AreShort out.new.entries }
        ensures used { IsUsed (happening_seen what.entry) out.new.used }
        ensures few { length out.new.entries ≤ MOST_MADE }
        ensures room { all_octets out.new.entries ≤ MOST_MADE_OCTETS }
        ensures linked { AreLinked (length self.new.links) out.new.entries }
    {
        out.clear();
        let link = &mut self.links[usize::from(number) - 1];
        let used = happen(link, what, word, &mut self.told);
        work(
            &mut self.links,
            &mut self.bundles,
            number,
            word,
            &self.told,
            &mut self.nets,
            out,
        );
        out.set_used(used);
    }

    /// Is as a new trunk.
    fn reset(&mut self)
        ensures { self.new ≡ trunk_anew self.old }
    {
        reset_links(&mut self.links, &mut self.told);
        self.bundles.reset();
    }
}

/// The links of an end of these settings, as a trunk begins with them.
fn ready_links(alloc: Global, config: &EndConfig, told: &mut LinkOut) -> Result<Vec<Link>, Memory>
    ensures count { IfOk result (λ ks. length ks.items ≡ config.now.links) }
    ensures ready { IfOk result (λ ks. AllByRecursion IsReady ks.items) }
    ensures settings { IfOk result (λ ks. settings_in ks.items ≡ all_settings config.now.links 1 (end_seen config.now)) }
{
    let mut links = Vec::new(alloc);
    for i in 0..config.links {
        let link = ready_link(alloc, config, i + 1, told)?;
        put(&mut links, link)?;
    }
    Ok(links)
}

/// Each link is as a trunk begins with it.
fn reset_links(links: &mut Vec<Link>, told: &mut LinkOut)
    ensures { links.new.items ≡ map (λ k. link_ready k.tables) links.old.items }
{
    for i in 0..links.len() {
        let link = &mut links[i];
        link.reset();
        open_all(link, &CONTROLS, told);
    }
}

/// How much the bundles of so many links hold: 8 bundles, and 256 peers that are remembered.
fn limits_of(links: u8) -> Limits
    ensures { result ≡ limits_of links }
{
    Limits {
        links,
        bundles: MOST_BUNDLES,
        peers: MOST_PEERS,
    }
}

/// Puts a link behind others.
fn put(links: &mut Vec<Link>, link: Link) -> Result<(), Memory>
    ensures { OnOk result (links.new.items ≡ links.old.items ++ link ∷ []) }
{
    links.push(link).map_err(|_| Memory)
}

/// A link of an end of these settings, as a trunk begins with it.
#[tactic(auto, using(crate::proofs::TrunkLemmas::ready_from, crate::proofs::TrunkLemmas::tables_from))]
fn ready_link(
    alloc: Global,
    config: &EndConfig,
    number: u8,
    told: &mut LinkOut,
) -> Result<Link, Memory>
    requires least { 1 ≤ number }
    requires most { number ≤ MOST_LINKS }
    ensures ready { IfOk result (λ k. k ≡ link_ready k.tables) }
    ensures settings { IfOk result (λ k. tables_seen k.tables ≡ settings_of number (end_seen config.now)) }
{
    let mut link = Link::new(alloc, config, number)?;
    open_all(&mut link, &CONTROLS, told);
    Ok(link)
}

/// Protocols of a link are to be opened.
#[tactic(auto, unfolding(crate::specs::Trunk::opens_all))]
fn open_all(link: &mut Link, protos: &[Proto], told: &mut LinkOut)
    ensures { link.new ≡ opens_all protos.now link.old }
{
    for i in 0..protos.len() {
        link.admin_open(protos[i], 0, told);
    }
}
