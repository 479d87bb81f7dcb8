//! When an end may ask, and what it sends.

ghost use Rattle.std.specs.Prelude.{◌≡◌};
ghost use Rattle.std.specs.Option.{ok_or};
ghost use Rattle.ppp_bap.specs.BundleView.{joined_count, spare_link};
ghost use Rattle.ppp_bap.specs.LinkSet.{IsLink};
ghost use Rattle.ppp_bap.specs.Requests.{IsOfLink};
ghost use Rattle.ppp_bap.specs.declared.ask_refused.AskRefused.TheVariants.{Full};
ghost use Rattle.ppp_bap.specs.Wish.{drop_wished, own_offer, wished};

use crate::ask_refused::AskRefused;
use crate::bap_ask::BapAsk;
use crate::bap_packet::{Offer, Request};
use crate::bundle_view::{BundleView, number_at};
use crate::link_type::LinkType;

/// The request that is sent where BACP is Opened and none waits, or why there is none.
pub(crate) fn wished(ask: BapAsk, view: &BundleView) -> Result<Request, AskRefused>
    requires { IsOfLink ask }
    ensures { result ≡ wished ask view.now }
{
    match ask {
        BapAsk::Call => {
            wanted_link(view)?;
            Ok(Request::Call(own_offer(view)))
        }
        BapAsk::Callback => Ok(Request::Callback(own_offer(view), Some(wanted_link(view)?))),
        BapAsk::Drop(link) => drop_wished(link, view),
    }
}

/// The least idle link, where another one is wanted.
fn wanted_link(view: &BundleView) -> Result<u8, AskRefused>
    ensures { result ≡ ok_or (spare_link view.now) (Full (joined_count view.now)) }
{
    match view.spare_link() {
        Some(link) => Ok(link),
        None => Err(AskRefused::Full(view.joined_count())),
    }
}

/// The request to drop a link, or why there is none.
fn drop_wished(link: u8, view: &BundleView) -> Result<Request, AskRefused>
    requires { IsLink link }
    ensures { result ≡ drop_wished link view.now }
{
    if !view.is_joined(link) {
        return Err(AskRefused::NotJoined(link));
    }
    let Some(number) = number_at(&view.peer_numbers, link) else {
        return Err(AskRefused::NoNumber(link));
    };
    if view.is_marked(link) {
        return Err(AskRefused::Promised(link));
    }
    if view.leaves_too_few(link) {
        return Err(AskRefused::LastLink(view.staying_count(link)));
    }
    Ok(Request::Drop(number))
}

/// What this end offers: an ISDN link of its speed.
fn own_offer(view: &BundleView) -> Offer
    ensures { result ≡ own_offer view.now }
{
    Offer {
        speed: view.speed,
        kind: LinkType::ISDN,
    }
}
