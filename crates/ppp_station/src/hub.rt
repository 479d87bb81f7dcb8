//! The links of a station and what its BAP waits for, step by step.

ghost use Rattle.std.specs.Prelude.{◌≡◌, ◌+◌, ◌<◌, ◌≤◌, [], ◌++◌, length, option_map, IfSome};
ghost use Rattle.ppp_bap.specs.BapOut.{entry_seen as brought_seen};
ghost use Rattle.ppp_bap.specs.Requests.{requests_begun};
ghost use Rattle.ppp_bundle.specs.Bundles.{bundle_at};
ghost use Rattle.ppp_bundle.specs.declared.limits.TheConstants.{MOST_BUNDLES};
ghost use Rattle.ppp_trunk.specs.Phases.{IsTrunk};
ghost use Rattle.ppp_trunk.specs.StationOut.{all_octets, entry_seen, octets_of, AreShort, IsShortFrame};
ghost use Rattle.ppp_trunk.specs.Steps.{Takes, IsUsed};
ghost use Rattle.ppp_trunk.specs.Trunk.{on_link, trunk_anew, trunk_does, IsOfLink, IsOfLinks, IsUsedOf};
ghost use Rattle.ppp_trunk.specs.declared.station_out.TheConstants.{MOST_ENTRIES, MOST_OCTETS};
ghost use Rattle.ppp_trunk.specs.declared.steps.TheConstants.{BAP, MOST_MADE, MOST_MADE_OCTETS};
ghost use Rattle.ppp_station.specs.Brought.{made_by, made_by_all, octets_by, octets_by_all, AreBrought, IsBrought};
ghost use Rattle.ppp_station.specs.Station as station;
ghost use Rattle.ppp_station.specs.Station.{station_at, IsOfAsk, IsStation, Steps, TakesBap};
ghost use Rattle.ppp_station.specs.Steps.{asks, bap_in, bap_packet, brings, brings_one, bundle_timed, follows, links_do, passed, passed_on, so_far, tells, times};
ghost use Rattle.ppp_station.specs.Heard.{AreBare, IsBare, IsHeard};

use crate::bap_terms::BapTerms;
use crate::station_event::StationEvent;
use crate::view::view_of;
use crate::waits::{controls_of, settle};
use ppp_bap::{AskRefused, Bap, BapAsk, BapEntry, BapOut, Policy};
use ppp_packet::Proto;
use ppp_trunk::{BAP, StationEntry, StationOut, Trunk, TrunkEvent};

/// The links, BAP with its policy, and the list that a step of the links fills.
#[derive(Drop)]
pub(crate) struct Hub<F: Policy> {
    pub(crate) trunk: Trunk,
    pub(crate) bap: Bap<F>,
    pub(crate) terms: BapTerms,
    pub(crate) told: StationOut,
}

impl<F: Policy> Hub<F> {
    /// Does an event, whose link is one of the station's, where nothing was put into `out` yet. It answers how many octets it used.
    pub(crate) fn step(
        &mut self,
        ev: StationEvent<'_>,
        word: u64,
        brought: &mut BapOut,
        out: &mut StationOut,
    ) -> usize
        requires links { station.IsOfLinks ev (length self.old.trunk.links) }
        requires sound { IsStation (station_at self.old.trunk self.old.bap.requests self.old.terms) }
        requires empty { out.old.entries ≡ [] }
        ensures steps { Steps (F.says self.old.bap.policy) ev.entry word
            (station_at self.old.trunk self.old.bap.requests self.old.terms)
            (station_at self.new.trunk self.new.bap.requests self.new.terms)
            (record { entries = out.new.entries; used = result }) }
        ensures used { station.IsUsedOf ev.entry result }
        ensures few { length out.new.entries ≤ MOST_ENTRIES }
        ensures room { all_octets out.new.entries ≤ MOST_OCTETS }
        ensures policy { self.new.bap.policy ≡ self.old.bap.policy }
    {
        match ev {
            StationEvent::Up(link) => self.moves(TrunkEvent::Up(link), word, out),
            StationEvent::Down(link) => self.moves(TrunkEvent::Down(link), word, out),
            StationEvent::AdminOpen(link, proto) => {
                self.moves(TrunkEvent::AdminOpen(link, proto), word, out);
            }
            StationEvent::AdminClose(link, proto) => {
                self.moves(TrunkEvent::AdminClose(link, proto), word, out);
            }
            StationEvent::Timeout(link, proto) => {
                self.moves(TrunkEvent::Timeout(link, proto), word, out);
            }
            StationEvent::BapTimeout(link) => self.times_out(link, word, brought, out),
            StationEvent::Bytes(link, octets) => {
                return self.hear(link, octets, word, brought, out);
            }
            StationEvent::Ask(link, request) => self.ask(link, request, word, brought, out),
            StationEvent::Status(link, status) => self.tell(link, status, word, brought, out),
            StationEvent::Reset => self.reset(word),
        }
        0
    }

    /// The links do a step, waits end that end by it, and what it tells is passed on, but for a packet of BAP.
    fn moves(&mut self, ev: TrunkEvent<'_>, word: u64, out: &mut StationOut)
        requires link { IsOfLinks ev (length self.old.trunk.links) }
        requires trunk { IsTrunk self.old.trunk }
        requires few { length out.old.entries + MOST_MADE ≤ MOST_ENTRIES }
        requires room { all_octets out.old.entries + MOST_MADE_OCTETS ≤ MOST_OCTETS }
        ensures done { so_far self.new.trunk self.new.bap.requests out.new.entries
            ≡ follows (trunk_does ev.entry self.old.trunk word) (so_far self.old.trunk self.old.bap.requests out.old.entries) }
        ensures told { self.new.told ≡ (trunk_does ev.entry self.old.trunk word).out }
        ensures used { IsUsedOf ev.entry self.new.told.used }
        ensures few { length out.new.entries ≤ length out.old.entries + MOST_MADE }
        ensures octets { all_octets out.new.entries ≤ all_octets out.old.entries + MOST_MADE_OCTETS }
        ensures terms { self.new.terms ≡ self.old.terms }
        ensures policy { self.new.bap.policy ≡ self.old.bap.policy }
    {
        let before = controls_of(self.trunk.bundles());
        self.trunk.event(ev, word, &mut self.told);
        settle(&before, &self.trunk, &mut self.bap);
        pass_on(&self.told, out);
    }

    /// Octets come on a link: the links do a step, and then a packet of BAP is taken that came by it. It answers how many octets
    /// it used.
    fn hear(
        &mut self,
        link: u8,
        octets: &[u8],
        word: u64,
        brought: &mut BapOut,
        out: &mut StationOut,
    ) -> usize
        requires link { IsOfLink (length self.old.trunk.links) link }
        requires sound { IsStation (station_at self.old.trunk self.old.bap.requests self.old.terms) }
        requires empty { out.old.entries ≡ [] }
        ensures takes { TakesBap (F.says self.old.bap.policy) self.old.terms link word
            (bap_packet (on_link (Takes octets.now) link self.old.trunk word).out.entries)
            (links_do (Takes octets.now) link word (so_far self.old.trunk self.old.bap.requests []))
            (so_far self.new.trunk self.new.bap.requests out.new.entries) }
        ensures used { result ≡ (on_link (Takes octets.now) link self.old.trunk word).out.used }
        ensures within { IsUsed (Takes octets.now) result }
        ensures few { length out.new.entries ≤ MOST_ENTRIES }
        ensures room { all_octets out.new.entries ≤ MOST_OCTETS }
        ensures terms { self.new.terms ≡ self.old.terms }
        ensures policy { self.new.bap.policy ≡ self.old.bap.policy }
    {
        self.moves(TrunkEvent::Bytes(link, octets), word, out);
        let used = self.told.used();
        self.take_bap(link, word, brought, out);
        used
    }

    /// A packet of BAP is taken that came on a link.
    fn take_bap(&mut self, link: u8, word: u64, brought: &mut BapOut, out: &mut StationOut)
        requires link { IsOfLink (length self.old.trunk.links) link }
        requires sound { IsStation (station_at self.old.trunk self.old.bap.requests self.old.terms) }
        requires live { IsHeard link (bap_packet self.old.told.entries) self.old.trunk }
        requires few { length out.old.entries + MOST_MADE ≤ MOST_ENTRIES }
        requires room { all_octets out.old.entries + MOST_MADE_OCTETS ≤ MOST_OCTETS }
        ensures takes { TakesBap (F.says self.old.bap.policy) self.old.terms link word (bap_packet self.old.told.entries)
            (so_far self.old.trunk self.old.bap.requests out.old.entries)
            (so_far self.new.trunk self.new.bap.requests out.new.entries) }
        ensures few { length out.new.entries ≤ length out.old.entries + MOST_MADE }
        ensures octets { all_octets out.new.entries ≤ all_octets out.old.entries + MOST_MADE_OCTETS }
        ensures terms { self.new.terms ≡ self.old.terms }
        ensures policy { self.new.bap.policy ≡ self.old.bap.policy }
    {
        let Some(packet) = bap_packet(&self.told) else {
            return;
        };
        let Some(bundle) = self.trunk.bundles().bundle_of(link) else {
            return;
        };
        let view = view_of(bundle, &self.terms, &self.trunk);
        self.bap.receive(packet, &view, brought);
        self.bring(bundle, word, brought, out);
    }

    /// The peer of a link's bundle is asked, or one is told why not.
    fn ask(
        &mut self,
        link: u8,
        request: BapAsk,
        word: u64,
        brought: &mut BapOut,
        out: &mut StationOut,
    )
        requires link { IsOfLink (length self.old.trunk.links) link }
        requires asked { IsOfAsk request (length self.old.trunk.links) }
        requires sound { IsStation (station_at self.old.trunk self.old.bap.requests self.old.terms) }
        requires empty { out.old.entries ≡ [] }
        ensures done { so_far self.new.trunk self.new.bap.requests out.new.entries
            ≡ asks self.old.terms (bundle_at link self.old.trunk.bundles) request word
            (so_far self.old.trunk self.old.bap.requests []) }
        ensures few { length out.new.entries ≤ MOST_ENTRIES }
        ensures room { all_octets out.new.entries ≤ MOST_OCTETS }
        ensures terms { self.new.terms ≡ self.old.terms }
        ensures policy { self.new.bap.policy ≡ self.old.bap.policy }
    {
        let Some(bundle) = self.trunk.bundles().bundle_of(link) else {
            out.answer(Err(AskRefused::NotOpen));
            return;
        };
        let view = view_of(bundle, &self.terms, &self.trunk);
        match self.bap.ask(request, &view, brought) {
            Ok(()) => {
                self.bring(bundle, word, brought, out);
                out.answer(Ok(()));
            }
            Err(why) => out.answer(Err(why)),
        }
    }

    /// The peer of a link's bundle is told how a call went.
    fn tell(&mut self, link: u8, status: u8, word: u64, brought: &mut BapOut, out: &mut StationOut)
        requires link { IsOfLink (length self.old.trunk.links) link }
        requires sound { IsStation (station_at self.old.trunk self.old.bap.requests self.old.terms) }
        requires empty { out.old.entries ≡ [] }
        ensures done { so_far self.new.trunk self.new.bap.requests out.new.entries
            ≡ tells self.old.terms (bundle_at link self.old.trunk.bundles) status word
            (so_far self.old.trunk self.old.bap.requests []) }
        ensures few { length out.new.entries ≤ MOST_ENTRIES }
        ensures room { all_octets out.new.entries ≤ MOST_OCTETS }
        ensures terms { self.new.terms ≡ self.old.terms }
        ensures policy { self.new.bap.policy ≡ self.old.bap.policy }
    {
        if let Some(bundle) = self.trunk.bundles().bundle_of(link) {
            let view = view_of(bundle, &self.terms, &self.trunk);
            self.bap.status(status, &view, brought);
            self.bring(bundle, word, brought, out);
        }
    }

    /// BAP's timer fires at the bundle whose control link that is.
    fn times_out(&mut self, link: u8, word: u64, brought: &mut BapOut, out: &mut StationOut)
        requires link { IsOfLink (length self.old.trunk.links) link }
        requires sound { IsStation (station_at self.old.trunk self.old.bap.requests self.old.terms) }
        requires empty { out.old.entries ≡ [] }
        ensures done { so_far self.new.trunk self.new.bap.requests out.new.entries
            ≡ times (bundle_timed link self.old.trunk) word (so_far self.old.trunk self.old.bap.requests []) }
        ensures few { length out.new.entries ≤ MOST_ENTRIES }
        ensures room { all_octets out.new.entries ≤ MOST_OCTETS }
        ensures terms { self.new.terms ≡ self.old.terms }
        ensures policy { self.new.bap.policy ≡ self.old.bap.policy }
    {
        if let Some(bundle) = timed_bundle(link, &self.trunk) {
            self.bap.timeout(bundle, brought);
            self.bring(bundle, word, brought, out);
        }
    }

    /// Is as a new one.
    fn reset(&mut self, word: u64)
        ensures trunk { self.new.trunk ≡ trunk_anew self.old.trunk }
        ensures requests { self.new.bap.requests ≡ requests_begun }
        ensures terms { self.new.terms ≡ self.old.terms }
        ensures policy { self.new.bap.policy ≡ self.old.bap.policy }
    {
        self.trunk.event(TrunkEvent::Reset, word, &mut self.told);
        self.bap.restart();
    }

    /// Does what BAP brings, in order.
    fn bring(&mut self, bundle: u8, word: u64, brought: &BapOut, out: &mut StationOut)
        requires bundle { bundle < MOST_BUNDLES }
        requires trunk { IsTrunk self.old.trunk }
        requires brought { AreBrought bundle word brought.now
            (so_far self.old.trunk self.old.bap.requests out.old.entries) }
        requires few { length out.old.entries + made_by_all brought.now ≤ MOST_ENTRIES }
        requires room { all_octets out.old.entries + octets_by_all brought.now ≤ MOST_OCTETS }
        ensures done { so_far self.new.trunk self.new.bap.requests out.new.entries
            ≡ brings bundle word brought.now (so_far self.old.trunk self.old.bap.requests out.old.entries) }
        ensures few { length out.new.entries ≤ length out.old.entries + made_by_all brought.now }
        ensures octets { all_octets out.new.entries ≤ all_octets out.old.entries + octets_by_all brought.now }
        ensures terms { self.new.terms ≡ self.old.terms }
        ensures policy { self.new.bap.policy ≡ self.old.bap.policy }
    {
        for i in 0..brought.count() {
            self.bring_one(bundle, brought.at(i), word, out);
        }
    }

    /// Does what BAP brings: a packet goes out on the control link, a link is marked, LCP of a link closes, or a link is dialled.
    fn bring_one(&mut self, bundle: u8, entry: BapEntry<'_>, word: u64, out: &mut StationOut)
        requires bundle { bundle < MOST_BUNDLES }
        requires trunk { IsTrunk self.old.trunk }
        requires brought { IsBrought bundle self.old.trunk (brought_seen entry) }
        requires few { length out.old.entries + made_by (brought_seen entry) ≤ MOST_ENTRIES }
        requires room { all_octets out.old.entries + octets_by (brought_seen entry) ≤ MOST_OCTETS }
        ensures done { so_far self.new.trunk self.new.bap.requests out.new.entries
            ≡ brings_one bundle word (brought_seen entry.entry) (so_far self.old.trunk self.old.bap.requests out.old.entries) }
        ensures few { length out.new.entries ≤ length out.old.entries + made_by (brought_seen entry.entry) }
        ensures octets { all_octets out.new.entries ≤ all_octets out.old.entries + octets_by (brought_seen entry.entry) }
        ensures terms { self.new.terms ≡ self.old.terms }
        ensures policy { self.new.bap.policy ≡ self.old.bap.policy }
    {
        match entry {
            BapEntry::Send(octets) => {
                if let Some(control) = self.trunk.bundles().control(bundle) {
                    self.trunk.send(control, BAP, octets, out);
                }
            }
            BapEntry::Mark(link) => self.trunk.mark(bundle, link),
            BapEntry::CloseLink(link) => {
                self.moves(TrunkEvent::AdminClose(link, Proto::Lcp), word, out);
            }
            BapEntry::Dial(link) => out.dial(link),
        }
    }
}

/// The bundle whose control link that is.
fn timed_bundle(link: u8, trunk: &Trunk) -> Option<u8>
    requires { IsOfLink (length trunk.now.links) link }
    ensures value { result ≡ bundle_timed link trunk.now }
    ensures within { IfSome result (λ b. b < MOST_BUNDLES) }
{
    let bundle = trunk.bundles().bundle_of(link)?;
    if trunk.bundles().control(bundle) == Some(link) {
        Some(bundle)
    } else {
        None
    }
}

/// Passes on what the links told, but for a packet of BAP.
fn pass_on(told: &StationOut, out: &mut StationOut)
    requires short { AreShort told.now.entries }
    requires bare { AreBare told.now.entries }
    requires few { length out.old.entries + length told.now.entries ≤ MOST_ENTRIES }
    requires room { all_octets out.old.entries + all_octets told.now.entries ≤ MOST_OCTETS }
    ensures entries { out.new.entries ≡ out.old.entries ++ passed_on told.now.entries }
    ensures few { length out.new.entries ≤ length out.old.entries + length told.now.entries }
    ensures octets { all_octets out.new.entries ≤ all_octets out.old.entries + all_octets told.now.entries }
{
    for i in 0..told.count() {
        pass_one(told.at(i), out);
    }
}

/// Passes on an entry, but for a packet of BAP.
fn pass_one(entry: StationEntry<'_>, out: &mut StationOut)
    requires short { IsShortFrame (entry_seen entry) }
    requires bare { IsBare (entry_seen entry) }
    requires few { length out.old.entries < MOST_ENTRIES }
    requires room { all_octets out.old.entries + octets_of (entry_seen entry) ≤ MOST_OCTETS }
    ensures entries { out.new.entries ≡ out.old.entries ++ passed (entry_seen entry.entry) }
    ensures few { length out.new.entries ≤ length out.old.entries + 1 }
    ensures octets { all_octets out.new.entries ≤ all_octets out.old.entries + octets_of (entry_seen entry.entry) }
{
    match entry {
        StationEntry::Push { link, octets } => out.push(link, octets),
        StationEntry::Got {
            protocol,
            octets,
            ..
        } => {
            if protocol != BAP {
                out.hand_up(protocol, octets);
            }
        }
        StationEntry::Hang(link) => out.hang(link),
        StationEntry::Dial(link) => out.dial(link),
        StationEntry::Asked(answer) => out.answer(answer),
    }
}

/// The packet of BAP among what the links told.
fn bap_packet(told: &StationOut) -> Option<&[u8]>
    ensures { option_map (λ octets. octets.now) result ≡ bap_packet told.now.entries }
{
    for i in 0..told.count() {
        if let Some(octets) = bap_octets(told.at(i)) {
            return Some(octets);
        }
    }
    None
}

/// The octets of a packet of BAP, if the entry is one.
fn bap_octets(entry: StationEntry<'_>) -> Option<&[u8]>
    ensures { option_map (λ octets. octets.now) result ≡ bap_in (entry_seen entry.entry) }
{
    match entry {
        StationEntry::Got {
            protocol,
            octets,
            ..
        } if protocol == BAP => Some(octets),
        _ => None,
    }
}
