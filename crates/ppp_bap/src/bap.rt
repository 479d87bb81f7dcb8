//! One end's BAP.

ghost use Rattle.std.specs.Prelude.{◌≡◌, ◌<◌, [], IfOk, IsTrue, OnErr, Some};
ghost use Rattle.std.specs.Option.{IfSome};
ghost use Rattle.ppp_bap.specs.Answer.{policy_asked, IfAsked};
ghost use Rattle.ppp_bap.specs.Wish.{request_for, told};
ghost use Rattle.ppp_bap.specs.Requests as spec;
ghost use Rattle.ppp_bap.specs.Requests.{AreRequests, IsOfLink};
ghost use Rattle.ppp_bap.specs.Step as step;
ghost use Rattle.ppp_bap.specs.declared.bap.TheConstants.{BUNDLES};
ghost use Rattle.ppp_bap.specs.declared.bap_packet.Message.TheVariants as message;

use crate::answer::{Answer, answer_to, policy_asked, put_answer, response_to};
use crate::ask_refused::AskRefused;
use crate::bap_ask::BapAsk;
use crate::bap_out::BapOut;
use crate::bap_packet::{BapPacket, Message, Request, Response, read_bap};
use crate::bundle_view::BundleView;
use crate::policy::Policy;
use crate::response_code::ResponseCode;
use crate::wait::Wait;
use crate::wish::wished;
use std::marker::Model;

/// How many bundles there are.
pub const BUNDLES: usize = 8;

/// How often a request is sent at most.
pub const MOST_TRIES: u8 = 3;

/// One end's BAP: the policy that decides over its peers' calls, and at most one request of each bundle that waits.
#[derive(Drop)]
pub struct Bap<F: Policy> {
    policy: F,
    next_id: u8,
    waits: [Option<Wait>; BUNDLES],
}

impl<F: Policy> Model for Bap<F> {
    ghost use Rattle.ppp_bap.specs.Bap as whole;

    ghost Value = { whole.Bap F };

    ghost view = { λ b. record { policy = b.policy; requests = record { next_id = b.next_id; waits = b.waits } } };

    ghost use Rattle.ppp_bap.specs.Requests.{AreRequests};

    ghost invariant = { λ b. F.may b.policy × AreRequests (record { next_id = b.next_id; waits = b.waits }) };
}

impl<F: Policy> Bap<F> {
    /// An end with this policy, where nothing waits, and whose first Identifier is 1.
    pub fn new(policy: F) -> Bap<F>
        requires { F.may policy }
        ensures policy { result.policy ≡ policy }
        ensures requests { result.requests ≡ spec.requests_begun }
    {
        Bap {
            policy,
            next_id: 1,
            waits: [None; BUNDLES],
        }
    }

    /// Asks the peer of a bundle: sends the request and waits, or tells why not, first cause first, and then nothing changes. A
    /// link to drop is 1 to 16.
    pub fn ask(
        &mut self,
        request: BapAsk,
        view: &BundleView,
        out: &mut BapOut,
    ) -> Result<(), AskRefused>
        requires bundle { view.now.bundle < BUNDLES }
        requires link { IsOfLink request }
        ensures answer { result ≡ told (request_for request view.now self.old.requests) }
        ensures waits { IfOk (request_for request view.now self.old.requests)
            (λ r. self.new.requests ≡ spec.first_sent view.now.bundle request r self.old.requests) }
        ensures sent { IfOk (request_for request view.now self.old.requests)
            (λ r. out.new ≡ step.sends self.old.requests.next_id (message.Request r)) }
        ensures kept { OnErr result (self.new ≡ self.old) }
        ensures left { OnErr result (out.new ≡ out.old) }
        ensures asked { IfOk (request_for request view.now self.old.requests)
            (λ r. spec.asked_of view.now.bundle self.new.requests ≡ Some request) }
        ensures policy { self.new.policy ≡ self.old.policy }
    {
        let wish = self.request_for(request, view)?;
        let id = self.draw();
        self.waits[usize::from(view.bundle)] = Some(Wait {
            id,
            ask: request,
            request: wish,
            sent: 1,
        });
        out.send(BapPacket {
            id,
            message: Message::Request(wish),
        });
        Ok(())
    }

    /// Takes the octets of a packet that came on the bundle's control link while BACP is Opened there, answers a request, and
    /// does what a response brings. Octets that are no packet are discarded.
    pub fn receive(&mut self, bytes: &[u8], view: &BundleView, out: &mut BapOut)
        requires bundle { view.now.bundle < BUNDLES }
        requires live { IsTrue view.now.live }
        ensures taken { step.Takes (F.says self.old.policy) view.now bytes.now
            self.old.requests self.new.requests out.new }
        ensures policy { self.new.policy ≡ self.old.policy }
    {
        out.clear();
        let Some(packet) = read_bap(bytes) else {
            return;
        };
        match packet.message {
            Message::Request(request) => self.take_request(packet.id, request, view, out),
            Message::Response(response) => self.take_response(packet.id, response, view, out),
            Message::StatusIndication(_, _) => out.send(BapPacket {
                id: packet.id,
                message: Message::StatusResponse(ResponseCode::Ack),
            }),
            Message::StatusResponse(_) => {}
        }
    }

    /// Tells the peer how a call went, by a Call-Status-Indication, where BACP is Opened.
    pub fn status(&mut self, status: u8, view: &BundleView, out: &mut BapOut)
        requires { view.now.bundle < BUNDLES }
        ensures requests { self.new.requests ≡ (step.tells_status status view.now self.old.requests).requests }
        ensures out { out.new ≡ (step.tells_status status view.now self.old.requests).out }
        ensures policy { self.new.policy ≡ self.old.policy }
    {
        out.clear();
        if view.live {
            let id = self.draw();
            out.send(BapPacket {
                id,
                message: Message::StatusIndication(status, 0),
            });
        }
    }

    /// No response of a bundle, 0 to 7, came in time: a request that waits is sent again with its Identifier, and after the third
    /// time it waits no longer.
    pub fn timeout(&mut self, bundle: u8, out: &mut BapOut)
        requires { bundle < BUNDLES }
        ensures requests { self.new.requests
            ≡ (step.times_out bundle (spec.wait_of bundle self.old.requests) self.old.requests).requests }
        ensures out { out.new
            ≡ (step.times_out bundle (spec.wait_of bundle self.old.requests) self.old.requests).out }
        ensures policy { self.new.policy ≡ self.old.policy }
    {
        out.clear();
        let Some(waiting) = self.waits[usize::from(bundle)] else {
            return;
        };
        if MOST_TRIES <= waiting.sent {
            self.waits[usize::from(bundle)] = None;
            return;
        }
        self.waits[usize::from(bundle)] = Some(Wait {
            sent: waiting.sent + 1,
            ..waiting
        });
        out.send(BapPacket {
            id: waiting.id,
            message: Message::Request(waiting.request),
        });
    }

    /// A link, 1 to 16, left a bundle, 0 to 7: the wait to drop it ends.
    pub fn link_left(&mut self, bundle: u8, link: u8)
        requires { bundle < BUNDLES }
        ensures requests { self.new.requests ≡ step.without_link bundle link self.old.requests }
        ensures policy { self.new.policy ≡ self.old.policy }
    {
        if self.waiting(bundle) == Some(BapAsk::Drop(link)) {
            self.reset(bundle);
        }
    }

    /// The request of a bundle, 0 to 7, that waits for its response.
    pub fn waiting(&self, bundle: u8) -> Option<BapAsk>
        requires { bundle < BUNDLES }
        ensures value { result ≡ spec.asked_of bundle self.now.requests }
        ensures link { IfSome result IsOfLink }
        ensures sound { AreRequests self.now.requests }
    {
        match self.waits[usize::from(bundle)] {
            Some(waiting) => Some(waiting.ask),
            None => None,
        }
    }

    /// The wait of a bundle, 0 to 7, ends, as where BACP leaves Opened or the control link changes.
    pub fn reset(&mut self, bundle: u8)
        requires { bundle < BUNDLES }
        ensures requests { self.new.requests ≡ spec.wait_ended bundle self.old.requests }
        ensures policy { self.new.policy ≡ self.old.policy }
    {
        self.waits[usize::from(bundle)] = None;
    }

    /// Is as [`Bap::new`] left it; the policy stays.
    pub fn restart(&mut self)
        ensures requests { self.new.requests ≡ spec.requests_begun }
        ensures policy { self.new.policy ≡ self.old.policy }
    {
        self.next_id = 1;
        self.waits = [None; BUNDLES];
    }

    /// Takes a peer's request.
    fn take_request(&mut self, id: u8, request: Request, view: &BundleView, out: &mut BapOut)
        requires { view.now.bundle < BUNDLES }
        ensures taken { step.TakesRequest (F.says self.old.policy) view.now id request
            self.old.requests self.new.requests out.new }
        ensures policy { self.new.policy ≡ self.old.policy }
    {
        if view.favoured && self.waits[usize::from(view.bundle)].is_some() {
            out.send(BapPacket {
                id,
                message: Message::Response(response_to(request, Answer::Nak)),
            });
            return;
        }
        let allowed = self.allows(request, view);
        self.reset(view.bundle);
        put_answer(id, request, answer_to(allowed, view, request), out);
    }

    /// Takes a response.
    fn take_response(&mut self, id: u8, response: Response, view: &BundleView, out: &mut BapOut)
        requires bundle { view.now.bundle < BUNDLES }
        requires out { out.old ≡ [] }
        ensures requests { self.new.requests ≡ (step.takes_response view.now id response
            (spec.wait_of view.now.bundle self.old.requests) self.old.requests).requests }
        ensures out { out.new ≡ (step.takes_response view.now id response
            (spec.wait_of view.now.bundle self.old.requests) self.old.requests).out }
        ensures policy { self.new.policy ≡ self.old.policy }
    {
        let bundle = usize::from(view.bundle);
        if let Some(waiting) = self.waits[bundle]
            && waiting.is_answered_by(id, response)
        {
            self.waits[bundle] = None;
            follow(waiting.ask, response, view, out);
        }
    }

    /// Whether the policy allows what a request wants. It is asked only where it decides.
    fn allows(&self, request: Request, view: &BundleView) -> bool
        ensures { IfAsked (F.says self.now.policy) (policy_asked view.now request) result }
    {
        match policy_asked(view, request) {
            Some(ask) => self.policy.allows(&ask),
            None => false,
        }
    }

    /// The request that is sent, or why there is none.
    fn request_for(&self, request: BapAsk, view: &BundleView) -> Result<Request, AskRefused>
        requires bundle { view.now.bundle < BUNDLES }
        requires link { IsOfLink request }
        ensures { result ≡ request_for request view.now self.now.requests }
    {
        if !view.live {
            return Err(AskRefused::NotOpen);
        }
        if self.waits[usize::from(view.bundle)].is_some() {
            return Err(AskRefused::Waiting);
        }
        wished(request, view)
    }

    /// The Identifier of the next request or indication.
    fn draw(&mut self) -> u8
        ensures id { result ≡ self.old.requests.next_id }
        ensures fits { result < 256 }
        ensures requests { self.new.requests ≡ spec.drawn self.old.requests }
        ensures policy { self.new.policy ≡ self.old.policy }
    {
        let id = self.next_id;
        self.next_id = id.wrapping_add(1);
        id
    }
}

/// What a response brings that counts.
fn follow(ask: BapAsk, response: Response, view: &BundleView, out: &mut BapOut)
    requires { out.old ≡ [] }
    ensures { out.new ≡ step.follows view.now ask response }
{
    match (ask, response) {
        (BapAsk::Call, Response::Call(ResponseCode::Ack, Some(link))) => {
            if view.is_idle(link) {
                out.dial(link);
            }
        }
        (BapAsk::Drop(link), Response::Drop(ResponseCode::Ack)) => {
            if view.has_staying(link) {
                out.close_link(link);
            }
        }
        _ => {}
    }
}
