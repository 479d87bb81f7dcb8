//! Which links are joined in which bundle.

ghost use Rattle.std.specs.Prelude.{◌≡◌, ◌≤◌, ◌<◌, length, IfOk, IfSome, IsTrue, Some, None, is_some, replicate, vec_capacity};
ghost use Rattle.std.specs.Option.{option_map};
ghost use Rattle.ppp_lcp.specs.LcpGrant.{disc_seen};
ghost use Rattle.ppp_bundle.specs.BundleTable.{IsBundleOf, IsLimits, IsLinkOf};
ghost use Rattle.ppp_bundle.specs.Bundles as spec;
ghost use Rattle.ppp_bundle.specs.JoinKey.{key_seen};
ghost use Rattle.ppp_bundle.specs.Joining.{begin_at, free_bundle, is_full_for, join_answer, join_to, joined_as, joined_to};

use crate::control::control_in;
use crate::join::{Join, SingleWhy};
use crate::join_key::JoinKey;
use crate::joined::{Joined, first_key, joined_mask, marked_mask, member_with};
use crate::known::{Known, is_known, numbers_for, remember, renumber};
use crate::left::Left;
use crate::limits::{CLASSES, Limits};
use ppp_memory::Memory;
use ppp_packet::Disc;
use std::alloc::Global;
use std::marker::Model;

/// The table of an end's bundles. It is seen as what its links are joined in, and as the peers that it remembers.
#[derive(Drop)]
pub struct BundleTable {
    limits: Limits,
    /// At place i what link i + 1 is joined as.
    places: Vec<Option<Joined>>,
    /// Of each bundle its control link.
    controls: Vec<Option<u8>>,
    /// The peers in the order of their first joins.
    peers: Vec<Known>,
}

impl Model for BundleTable {
    ghost use Rattle.ppp_bundle.specs.Bundles.{Bundles};
    ghost use Rattle.ppp_bundle.specs.BundleTable.{bundles_seen, IsBundleTable};

    ghost Value = { Bundles };

    ghost view = { bundles_seen };

    ghost invariant = { IsBundleTable };
}

impl BundleTable {
    /// A table without a joined link, within these limits. It takes the memory for all that it holds later.
    pub fn new(alloc: Global, limits: Limits) -> Result<BundleTable, Memory>
        requires { IsLimits limits }
        ensures { IfOk result (λ t. t ≡ spec.bundles_begun limits) }
    {
        let (Ok(mut places), Ok(mut controls), Ok(peers)) = (
            Vec::with_capacity(alloc, usize::from(limits.links)),
            Vec::with_capacity(alloc, usize::from(limits.bundles)),
            Vec::with_capacity(alloc, usize::from(limits.peers)),
        ) else {
            return Err(Memory);
        };
        refill(&mut places, usize::from(limits.links));
        refill(&mut controls, usize::from(limits.bundles));
        Ok(BundleTable {
            limits,
            places,
            controls,
            peers,
        })
    }

    /// A link that isn't joined asks to join, with what its lists grant (of the options of RFC 1990 sections 5.1.1 to 5.1.3).
    /// It joins unmarked, or stays a single link for the first reason that applies, in the order of [`SingleWhy`], which is
    /// this project's. A link is 1 to the limit.
    pub fn join(&mut self, link: u8, key: &JoinKey) -> Join
        requires link { IsLinkOf self.old link }
        requires single { spec.bundle_at link self.old ≡ None }
        ensures answer { result ≡ join_answer (key_seen key.now) self.old }
        ensures table { self.new ≡ joined_as link (key_seen key.now) self.old }
        ensures within { IfSome (joined_to result) (IsBundleOf self.old) }
    {
        let answer = self.answer(key);
        if let Some(bundle) = answer.bundle() {
            self.places[usize::from(link) - 1] = Some(Joined {
                bundle,
                key: *key,
                marked: false,
            });
            remember(&key.peer.disc, &mut self.peers);
            self.controls[usize::from(bundle)] = control_in(bundle, self.places.as_slice());
        }
        answer
    }

    /// A link leaves its bundle and loses its mark; None exactly where it isn't joined. Its peer stays remembered. A
    /// link is 1 to the limit.
    pub fn leave(&mut self, link: u8) -> Option<Left>
        requires { IsLinkOf self.old link }
        ensures answer { result ≡ spec.left_as link self.old }
        ensures table { self.new ≡ spec.left link self.old }
    {
        let Some(bundle) = self.bundle_of(link) else {
            return None;
        };
        self.places[usize::from(link) - 1] = None;
        let control = control_in(bundle, self.places.as_slice());
        self.controls[usize::from(bundle)] = control;
        Some(Left {
            bundle,
            last: control.is_none(),
        })
    }

    /// The bundle that a link is joined in. A link is 1 to the limit.
    pub fn bundle_of(&self, link: u8) -> Option<u8>
        requires { IsLinkOf self.now link }
        ensures value { result ≡ spec.bundle_at link self.now }
        ensures within { IfSome result (IsBundleOf self.now) }
    {
        match self.places[usize::from(link) - 1] {
            Some(joined) => Some(joined.bundle),
            None => None,
        }
    }

    /// The control link of a bundle: of its links the one with the least Link-Discriminator in the list of the senior
    /// end, the first of two with the same. A link without one in both directions counts as 65,536. The senior end has
    /// the lesser Endpoint Discriminator in the key of the bundle's least link. None exactly where the bundle has no
    /// link. A bundle is below the limit.
    pub fn control(&self, bundle: u8) -> Option<u8>
        requires { IsBundleOf self.now bundle }
        ensures value { result ≡ spec.control_of bundle self.now }
        ensures linked { spec.has_link bundle self.now ≡ is_some result }
        ensures within { IfSome result (IsLinkOf self.now) }
    {
        self.controls[usize::from(bundle)]
    }

    /// The links of a bundle: the bit l - 1 stands for link l. A bundle is below the limit.
    pub fn joined(&self, bundle: u8) -> u16
        requires { IsBundleOf self.now bundle }
        ensures { result ≡ spec.joined_in bundle self.now }
    {
        joined_mask(bundle, self.places.as_slice())
    }

    /// The marked links of a bundle: the bit l - 1 stands for link l. A bundle is below the limit.
    pub fn marked(&self, bundle: u8) -> u16
        requires { IsBundleOf self.now bundle }
        ensures { result ≡ spec.marked_in bundle self.now }
    {
        marked_mask(bundle, self.places.as_slice())
    }

    /// Marks a link that is joined in that bundle. A link is 1 to the limit.
    pub fn mark(&mut self, bundle: u8, link: u8)
        requires link { IsLinkOf self.old link }
        requires joined { spec.bundle_at link self.old ≡ Some bundle }
        ensures { self.new ≡ spec.marked_at link self.old }
    {
        let at = usize::from(link) - 1;
        if let Some(joined) = self.places[at] {
            self.places[at] = Some(Joined {
                bundle,
                key: joined.key,
                marked: true,
            });
        }
    }

    /// The endpoint discriminator of a bundle's peer. None where the bundle has no link. A bundle is below the limit.
    pub fn peer(&self, bundle: u8) -> Option<Disc>
        requires { IsBundleOf self.now bundle }
        ensures { option_map disc_seen result ≡ option_map (λ k. k.peer.disc) (spec.first_key bundle self.now) }
    {
        match first_key(bundle, self.places.as_slice()) {
            Some(key) => Some(key.peer.disc),
            None => None,
        }
    }

    /// The sending numbers that are kept for the peer of a bundle with a link, class by class: 0 before the first
    /// [`BundleTable::set_numbers`] for that peer.
    pub fn numbers(&self, bundle: u8) -> [u32; CLASSES]
        requires bundle { IsBundleOf self.now bundle }
        requires linked { IsTrue (spec.has_link bundle self.now) }
        ensures { result ≡ spec.numbers_of bundle self.now }
    {
        match first_key(bundle, self.places.as_slice()) {
            Some(key) => numbers_for(&key.peer.disc, self.peers.as_slice()),
            None => [0; CLASSES],
        }
    }

    /// Keeps other sending numbers for the peer of a bundle with a link, also past the bundle's end.
    pub fn set_numbers(&mut self, bundle: u8, numbers: [u32; CLASSES])
        requires bundle { IsBundleOf self.old bundle }
        requires linked { IsTrue (spec.has_link bundle self.old) }
        ensures { self.new ≡ spec.with_numbers bundle numbers self.old }
    {
        if let Some(key) = first_key(bundle, self.places.as_slice()) {
            renumber(&key.peer.disc, numbers, &mut self.peers);
        }
    }

    /// No link is joined, and no peer is remembered.
    pub fn reset(&mut self)
        ensures { self.new ≡ spec.bundles_begun self.old.limits }
    {
        refill(&mut self.places, usize::from(self.limits.links));
        refill(&mut self.controls, usize::from(self.limits.bundles));
        self.peers.clear();
    }

    /// How much the table holds.
    pub fn limits(&self) -> Limits
        ensures value { result ≡ self.now.limits }
        ensures within { IsLimits result }
    {
        self.limits
    }

    /// What a link with that key would be told.
    fn answer(&self, key: &JoinKey) -> Join
        ensures { result ≡ join_answer (key_seen key.now) self.now }
    {
        if key.lacks_mrru() {
            return Join::Single(SingleWhy::NoMrru);
        }
        if key.lacks_disc() {
            return Join::Single(SingleWhy::NoDisc);
        }
        if key.is_of_one_end() {
            return Join::Single(SingleWhy::SameDisc);
        }
        match member_with(&key.peer.disc, self.places.as_slice()) {
            Some(joined) if joined.key.is_like(key) => Join::Added(joined.bundle),
            Some(_) => Join::Single(SingleWhy::Unlike),
            None => self.first_answer(key),
        }
    }

    /// What a link with that key would be told, where its peer has no bundle.
    fn first_answer(&self, key: &JoinKey) -> Join
        ensures { result ≡ join_to None (key_seen key.now) self.now }
    {
        if !is_known(&key.peer.disc, self.peers.as_slice())
            && usize::from(self.limits.peers) <= self.peers.len()
        {
            return Join::Single(SingleWhy::PeersFull(self.limits.peers));
        }
        match self.free_bundle() {
            Some(bundle) => Join::First(bundle),
            None => Join::Single(SingleWhy::BundlesFull(self.limits.bundles)),
        }
    }

    /// The least bundle without a link.
    fn free_bundle(&self) -> Option<u8>
        ensures { result ≡ free_bundle self.now }
    {
        for bundle in 0..self.limits.bundles {
            if self.controls[usize::from(bundle)].is_none() {
                return Some(bundle);
            }
        }
        None
    }
}

/// Has that many places, for which room was taken, and nothing in them.
fn refill<T: Copy>(places: &mut Vec<Option<T>>, count: usize)
    requires { count ≤ vec_capacity places.old }
    ensures { places.new.items ≡ replicate count None }
{
    places.clear();
    for _ in 0..count {
        places.push_reserved(None);
    }
}
