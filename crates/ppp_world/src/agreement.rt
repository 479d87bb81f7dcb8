//! Whether the two ends of a world agree.

ghost use Rattle.std.specs.Prelude.{◌≡◌, length, Some};
ghost use Rattle.ppp_trunk.specs.Trunk.{IsOfLink};
ghost use Rattle.ppp_world.specs.Agreement.{link_on, opened_on, state_on};

use ppp_auto::AutoState;
use ppp_link::Link;
use ppp_packet::Proto;
use ppp_trunk::Trunk;

/// Whether the two ends of a protocol on a link agree: None where not both are Opened, as where one of them has no such link
/// or doesn't speak the protocol. That two Opened ends agree is proved of every state that a script leads to, so nothing but
/// the states is looked at.
pub(crate) fn agree(a: &Trunk, b: &Trunk, link: u8, proto: Proto) -> Option<bool>
    ensures { result ≡ opened_on link proto a.now.links b.now.links }
{
    match (state(a, link, proto), state(b, link, proto)) {
        (Some(AutoState::Opened), Some(AutoState::Opened)) => Some(true),
        _ => None,
    }
}

/// The state of a protocol on a link of an end, where it has both.
fn state(trunk: &Trunk, link: u8, proto: Proto) -> Option<AutoState>
    ensures { result ≡ state_on link proto trunk.now.links }
{
    if link == 0 || link > trunk.links() {
        return None;
    }
    link_of(trunk, link).state(proto)
}

/// The link of a trunk of that number.
#[tactic(auto, using(crate::proofs::AgreementLemmas::link_there))]
pub(crate) fn link_of(trunk: &Trunk, link: u8) -> &Link
    requires { IsOfLink (length trunk.now.links) link }
    ensures { link_on link trunk.now.links ≡ Some result.now }
{
    trunk.link(link)
}
