//! A station.

ghost use Rattle.std.specs.Prelude.{◌≡◌, ◌+◌, ◌*◌, ◌-◌, ◌≤◌, ◌<◌, [], length, IfOk, Some, slice_get};
ghost use Rattle.ppp_bap.specs.Requests.{asked_of};
ghost use Rattle.ppp_bundle.specs.declared.limits.TheConstants.{MOST_BUNDLES, MOST_LINKS};
ghost use Rattle.ppp_conf.specs.EndConfig.{end_seen};
ghost use Rattle.ppp_link.specs.declared.link.TheConstants.{MOST_FRAME};
ghost use Rattle.ppp_trunk.specs.Moves.{AreLinked};
ghost use Rattle.ppp_trunk.specs.StationOut.{all_octets, AreShort};
ghost use Rattle.ppp_trunk.specs.Trunk.{held_in, limits_of, IsOfLink};
ghost use Rattle.ppp_trunk.specs.declared.station_out.TheConstants.{MOST_ENTRIES, MOST_OCTETS};
ghost use Rattle.ppp_station.specs.Station.{BeginsBy, IsOfLinks, IsUsedOf, Steps};

use crate::bap_terms::BapTerms;
use crate::hub::Hub;
use crate::station_event::StationEvent;
use ppp_bap::{Bap, BapAsk, BapOut, Policy};
use ppp_bundle::BundleTable;
use ppp_conf::EndConfig;
use ppp_link::Link;
use ppp_memory::Memory;
use ppp_trunk::{StationOut, Trunk};
use std::alloc::Global;
use std::marker::Model;

/// One whole end: its links in bundles, and BAP with its policy.
#[derive(Drop)]
pub struct Station<F: Policy> {
    hub: Hub<F>,
    brought: BapOut,
}

impl<F: Policy> Model for Station<F> {
    ghost use Rattle.ppp_station.specs.Station as spec;

    ghost Value = { spec.Whole F };

    ghost view = { λ s. record { policy = s.hub.bap.policy; station = spec.station_at s.hub.trunk s.hub.bap.requests s.hub.terms } };

    ghost invariant = { λ s. spec.IsStation (spec.station_at s.hub.trunk s.hub.bap.requests s.hub.terms) };
}

impl<F: Policy + Drop> Station<F> {
    /// A station of these settings, with that policy, where nothing waits.
    pub fn new(alloc: Global, config: &EndConfig, policy: F) -> Result<Station<F>, Memory>
        requires { F.may policy }
        ensures policy { IfOk result (λ s. s.policy ≡ policy) }
        ensures begins { IfOk result (λ s. BeginsBy (end_seen config.now) s.station) }
    {
        let trunk = Trunk::new(alloc, config)?;
        let told = StationOut::new(alloc)?;
        Ok(Station {
            hub: Hub {
                trunk,
                bap: Bap::new(policy),
                terms: BapTerms::of(config),
                told,
            },
            brought: BapOut::new(),
        })
    }
}

impl<F: Policy> Station<F> {
    /// Does an event, whose link is one of the station's, and puts what it sends and tells into `out`. A word is what a
    /// table draws from where a new list is asked for. It takes no memory.
    pub fn event(&mut self, ev: StationEvent<'_>, word: u64, out: &mut StationOut)
        requires { IsOfLinks ev (length self.old.station.trunk.links) }
        ensures does { Steps (F.says self.old.policy) ev.entry word self.old.station self.new.station out.new }
        ensures policy { self.new.policy ≡ self.old.policy }
        ensures short { AreShort out.new.entries }
        ensures used { IsUsedOf ev.entry out.new.used }
        ensures few { length out.new.entries ≤ MOST_ENTRIES }
        ensures room { all_octets out.new.entries ≤ MOST_OCTETS }
        ensures linked { AreLinked (length self.new.station.trunk.links) out.new.entries }
        ensures count { length self.new.station.trunk.links ≡ length self.old.station.trunk.links }
    {
        out.clear();
        let used = self.hub.step(ev, word, &mut self.brought, out);
        out.set_used(used);
    }

    /// Its links and their bundles.
    pub fn trunk(&self) -> &Trunk
        ensures { result.now ≡ self.now.station.trunk }
    {
        &self.hub.trunk
    }

    /// How many links there are.
    pub fn links(&self) -> u8
        ensures count { result ≡ length self.now.station.trunk.links }
        ensures most { result ≤ MOST_LINKS }
    {
        self.hub.trunk.links()
    }

    /// The link of that number, from 1 on.
    pub fn link(&self, link: u8) -> &Link
        requires { IsOfLink (length self.now.station.trunk.links) link }
        ensures { slice_get self.now.station.trunk.links (link - 1) ≡ Some result.now }
    {
        self.hub.trunk.link(link)
    }

    /// Its bundles: which links are joined in which (RFC 1990).
    pub fn bundles(&self) -> &BundleTable
        ensures value { result.now ≡ self.now.station.trunk.bundles }
        ensures limits { result.now.limits ≡ limits_of (length self.now.station.trunk.links) }
    {
        self.hub.trunk.bundles()
    }

    /// What the request of a bundle asks that waits, 0 to 7.
    pub fn waiting(&self, bundle: u8) -> Option<BapAsk>
        requires { bundle < MOST_BUNDLES }
        ensures { result ≡ asked_of bundle self.now.station.requests }
    {
        self.hub.bap.waiting(bundle)
    }

    /// The octets that are kept of unfinished frames, escapes undone.
    pub fn held(&self) -> usize
        ensures value { result ≡ held_in self.now.station.trunk.links }
        ensures limit { result ≤ length self.now.station.trunk.links * MOST_FRAME }
    {
        self.hub.trunk.held()
    }
}
