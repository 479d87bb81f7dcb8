//! What BAP sees of a bundle.

ghost use Rattle.std.specs.Prelude.{◌≡◌, ◌+◌, ◌*◌, ◌<◌, [], Some, option_map};
ghost use Rattle.std.specs.Option.{unwrap_or};
ghost use Rattle.ppp_bundle.specs.Bundles.{bit};
ghost use Rattle.ppp_bundle.specs.declared.limits.TheConstants.{MOST_BUNDLES};
ghost use Rattle.ppp_trunk.specs.Control.{terms_in};
ghost use Rattle.ppp_station.specs.View.{bacp_of, favored_in, idle_links, is_favoured, is_favoured_by, is_idle_link, is_live, numbers_of, own_number, peer_number, view_of};

use crate::bap_terms::BapTerms;
use ppp_auto::AutoState;
use ppp_bacp::{FAVORED_PEER, favoured};
use ppp_bap::{BundleView, LINKS};
use ppp_lcp::grant_of;
use ppp_link::Link;
use ppp_options::number_of_u32;
use ppp_packet::{OptList, Proto};
use ppp_trunk::Trunk;

/// What BAP sees of a bundle, 0 to 7.
pub(crate) fn view_of(bundle: u8, terms: &BapTerms, trunk: &Trunk) -> BundleView
    requires { bundle < MOST_BUNDLES }
    ensures { result ≡ view_of bundle terms.now trunk.now }
{
    let bundles = trunk.bundles();
    let (own_numbers, peer_numbers) = numbers_of(trunk);
    BundleView {
        bundle,
        live: is_live(bundle, trunk),
        favoured: is_favoured(bundle, trunk),
        most: terms.most,
        least: terms.least,
        calls: terms.calls,
        callbacks: terms.callbacks,
        speed: terms.speed,
        joined: bundles.joined(bundle),
        marked: bundles.marked(bundle),
        idle: idle_links(trunk),
        own_numbers,
        peer_numbers,
    }
}

/// Whether BACP is Opened on the control link of a bundle.
pub(crate) fn is_live(bundle: u8, trunk: &Trunk) -> bool
    requires { bundle < MOST_BUNDLES }
    ensures { result ≡ is_live bundle trunk.now }
{
    match trunk.bundles().control(bundle) {
        Some(link) => trunk.link(link).state(Proto::Bacp) == Some(AutoState::Opened),
        None => false,
    }
}

/// Whether this end is favoured by BACP on the control link of a bundle.
fn is_favoured(bundle: u8, trunk: &Trunk) -> bool
    requires { bundle < MOST_BUNDLES }
    ensures { result ≡ is_favoured bundle trunk.now }
{
    match trunk.bundles().control(bundle) {
        Some(link) => is_favoured_on(trunk.link(link)),
        None => false,
    }
}

/// Whether this end is favoured by a link's BACP.
fn is_favoured_on(link: &Link) -> bool
    ensures { result ≡ is_favoured_by (bacp_of (Some link.now)) }
{
    if link.state(Proto::Bacp).is_none() {
        return false;
    }
    favoured(
        favored_in(link.mine(Proto::Bacp)),
        favored_in(link.peer(Proto::Bacp)),
    )
}

/// The Favored-Peer number of a list, if there is one, or 0.
fn favored_in(list: Option<&OptList>) -> u32
    ensures { result ≡ favored_in (option_map (λ list. list.now) list.entry) }
{
    match list {
        Some(list) => number_of_u32(list, FAVORED_PEER),
        None => 0,
    }
}

/// The links that could be brought up, link l as the bit l - 1.
fn idle_links(trunk: &Trunk) -> u16
    ensures { result ≡ idle_links trunk.now.links }
{
    let mut links = 0;
    let mut link = trunk.links();
    'links: while 0 < link {
        links = with_bit(is_idle(trunk.link(link)), links);
        link -= 1;
    }
    links
}

/// A set of links behind one that is in it or isn't.
fn with_bit(is_in: bool, links: u16) -> u16
    requires { links < 32768 }
    ensures { result ≡ bit is_in + 2 * links }
{
    u16::from(is_in) + 2 * links
}

/// Link by link the numbers of its two lists.
fn numbers_of(trunk: &Trunk) -> ([Option<u16>; LINKS], [Option<u16>; LINKS])
    ensures own { result.0 ≡ numbers_of own_number trunk.now.links }
    ensures peer { result.1 ≡ numbers_of peer_number trunk.now.links }
{
    let mut own = [None; LINKS];
    let mut peer = [None; LINKS];
    for i in 0..trunk.links() {
        let link = trunk.link(i + 1);
        own[usize::from(i)] = own_number(link);
        peer[usize::from(i)] = peer_number(link);
    }
    (own, peer)
}

/// This end's number of a link.
fn own_number(link: &Link) -> Option<u16>
    ensures { result ≡ own_number link.now }
{
    number_in(link.mine(Proto::Lcp))
}

/// The peer's number of a link.
fn peer_number(link: &Link) -> Option<u16>
    ensures { result ≡ peer_number link.now }
{
    number_in(link.peer(Proto::Lcp))
}

/// The Link-Discriminator that a list grants, if there is one.
fn number_in(list: Option<&OptList>) -> Option<u16>
    ensures { result ≡ (terms_in (unwrap_or (option_map (λ list. list.now) list.entry) [])).link_disc }
{
    match list {
        Some(list) => grant_of(list).link_disc,
        None => None,
    }
}

/// Whether a link could be brought up: its LCP is in Initial, Starting, Closed or Stopped.
fn is_idle(link: &Link) -> bool
    ensures { result ≡ is_idle_link link.now }
{
    matches!(
        link.state(Proto::Lcp),
        Some(AutoState::Initial | AutoState::Starting | AutoState::Closed | AutoState::Stopped)
    )
}
