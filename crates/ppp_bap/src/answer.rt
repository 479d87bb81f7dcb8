//! What an end answers to its peer's requests.

ghost use Rattle.std.specs.Prelude.{◌≡◌};
ghost use Rattle.ppp_bap.specs.BundleView.{link_numbered};
ghost use Rattle.ppp_bap.specs.Answer.{answer_drop, answer_to, answer_to_call, answer_to_callback, answers_with, call_ask, code_of_answer, link_of_answer, policy_asked, response_to};

use crate::bap_out::BapOut;
use crate::bap_packet::{BapPacket, Message, Offer, Request, Response};
use crate::bundle_view::BundleView;
use crate::call_ask::CallAsk;
use crate::response_code::ResponseCode;

/// What a peer's request is answered.
#[derive(Clone, Copy, Debug, PartialEq, Eq)]
pub(crate) enum Answer {
    /// It is granted: a call is told this link, a callback dials it, a drop promises it.
    Ack(u8),
    /// Not now.
    Nak,
    /// This end doesn't do that.
    Rej,
    /// Not while the bundle is as it is.
    FullNak,
}

/// What the policy is asked for a request, where it decides.
pub(crate) fn policy_asked(view: &BundleView, request: Request) -> Option<CallAsk>
    ensures { result ≡ policy_asked view.now request }
{
    match request {
        Request::Call(offer) if view.calls => {
            view.spare_link()?;
            Some(call_ask(false, offer, view))
        }
        Request::Callback(offer, Some(link)) if view.callbacks && view.is_idle(link) => {
            view.spare_link()?;
            Some(call_ask(true, offer, view))
        }
        _ => None,
    }
}

/// A peer's wish for another link.
fn call_ask(callback: bool, offer: Offer, view: &BundleView) -> CallAsk
    ensures { result ≡ call_ask callback offer view.now }
{
    CallAsk {
        callback,
        speed: offer.speed,
        kind: offer.kind,
        joined: view.joined_count(),
        most: view.most,
    }
}

/// What a request is answered, where the policy says yes or no.
pub(crate) fn answer_to(allowed: bool, view: &BundleView, request: Request) -> Answer
    ensures { result ≡ answer_to allowed view.now request }
{
    match request {
        Request::Call(_) => answer_call(allowed, view),
        Request::Callback(_, link) => answer_callback(allowed, view, link),
        Request::Drop(number) => answer_drop(view, number),
    }
}

/// What a Call-Request is answered.
fn answer_call(allowed: bool, view: &BundleView) -> Answer
    ensures { result ≡ answer_to_call allowed view.now }
{
    if !view.calls {
        return Answer::Rej;
    }
    match view.spare_link() {
        Some(link) if allowed => Answer::Ack(link),
        Some(_) => Answer::Nak,
        None => Answer::FullNak,
    }
}

/// What a Callback-Request is answered that names a link, or none.
fn answer_callback(allowed: bool, view: &BundleView, link: Option<u8>) -> Answer
    ensures { result ≡ answer_to_callback allowed view.now link }
{
    if !view.callbacks {
        return Answer::Rej;
    }
    if view.spare_link().is_none() {
        return Answer::FullNak;
    }
    match link {
        Some(link) if view.is_idle(link) && allowed => Answer::Ack(link),
        _ => Answer::Nak,
    }
}

/// What a Link-Drop-Query-Request for a number is answered.
fn answer_drop(view: &BundleView, number: u16) -> Answer
    ensures { result ≡ answer_drop view.now (link_numbered number view.now) }
{
    match view.link_numbered(number) {
        None => Answer::Nak,
        Some(link) if view.leaves_too_few(link) => Answer::FullNak,
        Some(link) => Answer::Ack(link),
    }
}

impl Answer {
    /// The response code.
    fn code(self) -> ResponseCode
        ensures { result ≡ code_of_answer self }
    {
        match self {
            Answer::Ack(_) => ResponseCode::Ack,
            Answer::Nak => ResponseCode::Nak,
            Answer::Rej => ResponseCode::Rej,
            Answer::FullNak => ResponseCode::FullNak,
        }
    }

    /// The link of an Ack.
    fn link(self) -> Option<u8>
        ensures { result ≡ link_of_answer self }
    {
        match self {
            Answer::Ack(link) => Some(link),
            _ => None,
        }
    }
}

/// The response to a request that is answered so.
pub(crate) fn response_to(request: Request, answer: Answer) -> Response
    ensures { result ≡ response_to request answer }
{
    match request {
        Request::Call(_) => Response::Call(answer.code(), answer.link()),
        Request::Callback(_, _) => Response::Callback(answer.code()),
        Request::Drop(_) => Response::Drop(answer.code()),
    }
}

/// Sends the response to a request, and does what an Ack does here.
pub(crate) fn put_answer(id: u8, request: Request, answer: Answer, out: &mut BapOut)
    ensures { out.new ≡ answers_with id request answer }
{
    out.send(BapPacket {
        id,
        message: Message::Response(response_to(request, answer)),
    });
    match (request, answer) {
        (Request::Callback(_, _), Answer::Ack(link)) => out.dial(link),
        (Request::Drop(_), Answer::Ack(link)) => out.mark(link),
        _ => {}
    }
}
