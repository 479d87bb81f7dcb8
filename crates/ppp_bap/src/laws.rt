//! Laws of BAP: clauses of functions that do nothing.

ghost use Rattle.std.specs.Prelude.{◌≡◌, ◌≤◌, ◌↔◌, Bool, List, ℕ, ◌++◌, length, Option, Some};
ghost use Rattle.std.specs.List.{AllByRecursion};
ghost use Rattle.ppp_bap.specs.BapPacket.{bap_octets, packet_of};
ghost use Rattle.ppp_bap.specs.Answer.{answer_to};
ghost use Rattle.ppp_bap.specs.Due.{IsDue};
ghost use Rattle.ppp_bap.specs.Grant.{IsCallGranted, IsCallbackGranted, IsDropGranted};
ghost use Rattle.ppp_bap.specs.ReadAgain.{IsPlain};
ghost use Rattle.ppp_bap.specs.Requests.{AreRequests, Requests};
ghost use Rattle.ppp_bap.specs.Step.{takes};
ghost use Rattle.ppp_bap.specs.declared.answer.Answer.TheVariants as answer;
ghost use Rattle.ppp_bap.specs.declared.bap_packet.BapPacket.{BapPacket};
ghost use Rattle.ppp_bap.specs.declared.bap_packet.Offer.{Offer};
ghost use Rattle.ppp_bap.specs.declared.bap_packet.Request.TheVariants as asked;
ghost use Rattle.ppp_bap.specs.declared.bundle_view.BundleView.{BundleView};

/// Does nothing. Its clause is a law: a packet that is written is read again as it was, whatever padding follows it, where its
/// kinds of link are known and its links are links.
pub fn read_again()
    ensures { (p : BapPacket) (padding : List ℕ) → IsPlain p.message
        → packet_of (bap_octets p ++ padding) ≡ Some p }
{}

/// Does nothing. Its clauses are laws on what the entries are due to that octets bring, whatever the policy says.
///
/// - `links`: a link is promised only where it is joined, and enough others stay; a link closes only where this end asked to drop
///   it and another joined and unmarked link is there; a link is dialled only where it is idle.
/// - `few`: there are at most two entries.
pub fn due()
    ensures links { (allowed : Bool) (v : BundleView) (octets : List ℕ) (q : Requests) → AreRequests q
        → AllByRecursion (IsDue v q) (takes allowed v octets q).out }
    ensures few { (allowed : Bool) (v : BundleView) (octets : List ℕ) (q : Requests) → AreRequests q
        → length (takes allowed v octets q).out ≤ 2 }
{}

/// Does nothing. Its clauses are laws on when a peer's request is granted, and with which link, where the policy allows it or
/// doesn't.
///
/// - `call`: exactly where the settings have calls, fewer links are joined than are wanted, this is the least idle one, and the
///   policy allows it.
/// - `callback`: exactly where the settings have them, another link is wanted and idle, the request names this one, it is idle, and
///   the policy allows it.
/// - `drop`: exactly where this is the least joined link of that number, and enough others stay.
pub fn granted()
    ensures call { (allowed : Bool) (v : BundleView) (offer : Offer) (l : ℕ)
        → (answer_to allowed v (asked.Call offer) ≡ answer.Ack l) ↔ IsCallGranted allowed v l }
    ensures callback { (allowed : Bool) (v : BundleView) (offer : Offer) (link : Option ℕ) (l : ℕ)
        → (answer_to allowed v (asked.Callback offer link) ≡ answer.Ack l) ↔ IsCallbackGranted allowed v link l }
    ensures drop { (allowed : Bool) (v : BundleView) (number l : ℕ)
        → (answer_to allowed v (asked.Drop number) ≡ answer.Ack l) ↔ IsDropGranted v number l }
{}
