//! Remembered peers as they are kept.

ghost use Rattle.std.specs.Prelude.{◌≡◌, ◌<◌, IfSome, IsFalse, length, slice_get, vec_len, vec_capacity};
ghost use Rattle.std.specs.List.{position_from};
ghost use Rattle.ppp_lcp.specs.LcpGrant.{disc_seen};
ghost use Rattle.ppp_bundle.specs.BundleTable.{peers_seen};
ghost use Rattle.ppp_bundle.specs.Bundles as spec;

use crate::join_key::is_same_disc;
use crate::limits::CLASSES;
use ppp_packet::Disc;

/// A peer as it is kept.
#[derive(Clone, Copy)]
pub(crate) struct Known {
    pub(crate) disc: Disc,
    pub(crate) numbers: [u32; CLASSES],
}

/// Whether a peer is remembered.
pub(crate) fn is_known(disc: &Disc, peers: &[Known]) -> bool
    ensures { result ≡ spec.is_known (disc_seen disc.now) (peers_seen peers.now) }
{
    place_of(disc, peers).is_some()
}

/// The sending numbers that are kept for a peer.
pub(crate) fn numbers_for(disc: &Disc, peers: &[Known]) -> [u32; CLASSES]
    ensures { result ≡ spec.numbers_for (disc_seen disc.now) (peers_seen peers.now) }
{
    match place_of(disc, peers) {
        Some(i) => peers[i].numbers,
        None => [0; CLASSES],
    }
}

/// Keeps other sending numbers for a peer.
pub(crate) fn renumber(disc: &Disc, numbers: [u32; CLASSES], peers: &mut Vec<Known>)
    ensures value { peers_seen peers.new.items
        ≡ spec.renumbered (disc_seen disc.now) numbers (peers_seen peers.old.items) }
    ensures capacity { vec_capacity peers.new ≡ vec_capacity peers.old }
{
    if let Some(i) = place_of(disc, peers.as_slice()) {
        peers[i].numbers = numbers;
    }
}

/// Remembers a peer, for which room was taken if it isn't remembered yet.
pub(crate) fn remember(disc: &Disc, peers: &mut Vec<Known>)
    requires { IsFalse (spec.is_known (disc_seen disc.now) (peers_seen peers.old.items))
        → vec_len peers.old < vec_capacity peers.old }
    ensures value { peers_seen peers.new.items
        ≡ spec.remembered (disc_seen disc.now) (peers_seen peers.old.items) }
    ensures capacity { vec_capacity peers.new ≡ vec_capacity peers.old }
{
    if is_known(disc, peers.as_slice()) {
        return;
    }
    peers.push_reserved(Known {
        disc: *disc,
        numbers: [0; CLASSES],
    });
}

/// The place of a peer.
fn place_of(disc: &Disc, peers: &[Known]) -> Option<usize>
    ensures value { result
        ≡ position_from (spec.is_of (disc_seen disc.now)) 0 (peers_seen peers.now) }
    ensures within { IfSome result (λ i. i < length peers.now) }
{
    for i in 0..peers.len() {
        if is_same_disc(&peers[i].disc, disc) {
            return Some(i);
        }
    }
    None
}
