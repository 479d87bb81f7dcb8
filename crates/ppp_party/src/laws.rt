//! What an event at an end is to the two ends of each protocol on each link, and what is kept of them.

ghost use Rattle.std.specs.Prelude.{◌≡◌, ◌-◌, ◌≤◌, ℕ, Bool, length, Some, slice_get};
ghost use Rattle.ppp_auto.specs.Auto.{Auto};
ghost use Rattle.ppp_bap.specs.declared.bap_ask.BapAsk.{BapAsk};
ghost use Rattle.ppp_bap.specs.declared.call_ask.CallAsk.{CallAsk};
ghost use Rattle.ppp_duet.specs.Duet.{End, Setup, start};
ghost use Rattle.ppp_duet.specs.Span.{Narrow};
ghost use Rattle.ppp_link.specs.Link.{Link};
ghost use Rattle.ppp_packet.specs.declared.proto.Proto.{Proto};
ghost use Rattle.ppp_station.specs.Station.{asks_peer, moves, tells_peer, tries_again, IsStation, Station};
ghost use Rattle.ppp_trunk.specs.StationOut.{AreShort};
ghost use Rattle.ppp_trunk.specs.Trunk.{IsBegun, IsOfLink};
ghost use Rattle.ppp_trunk.specs.Steps.{Happening};
ghost use Rattle.ppp_party.specs.Downs.{AllShortDowns};
ghost use Rattle.ppp_party.specs.Held.{HeldAfter, IsHeld};
ghost use Rattle.ppp_party.specs.Kept.{Kept, duet_of};
ghost use Rattle.ppp_party.specs.Ledger.{end_of, ledger_at};
ghost use Rattle.ppp_party.specs.Party.{asks, delivers, ends_begun, happens, loses, reboots, station_of, tells, tries, turned, Ends, IsShortDelivery};
ghost use Rattle.ppp_party.specs.Seat.{Anew, Came, IsNoFrame, IsSeated, IsSpoken, Seat, rebooted, seat_duet};
ghost use Rattle.ppp_party.specs.Spans.{NarrowOn};

/// Does nothing. Its clauses are laws. Of each, let a protocol be configured on a link of the end, its ledger fit its automaton,
/// the link's deframer stand as after a flag, what is under way on the link be frames of control protocols and of BAP, and the
/// trunk's control protocols be Up where they have to be. Then so it is after the event, and a list of the events of two ends
/// leads from the protocol's two ends before to those after, with whatever other end; only the first of the list may be a
/// delivery, and none is that an end begins anew.
///
/// - `happens`: the line comes up or goes down, an administrator opens or closes a protocol, or a timer fires, on whatever link.
///   A frame that finds its queue full is sent and lost.
/// - `delivers`: the front frame of whatever link is taken, whatever the policy says where it is asked. For the protocol the list
///   begins with a delivery or with the loss of a packet, or with neither; what the packet causes at this protocol or another, on
///   this link or another, follows.
/// - `asks`, `tells`, `tries`: the peer of a bundle is asked, or told how a call went, or BAP's timer fires. No list delivers.
/// - `loses`: a frame of whatever link is lost.
///
/// No frame that the event sends is longer than the longest, as a station's never is.
pub fn events()
    ensures happens { (sa sb : Setup) (p : Proto) (what : Happening) (l m word : ℕ) (e : Ends) (s : Seat) (a : Auto) (b : End)
        → IsOfLink (length e.own.trunk.links) l → 1 ≤ m
        → IsNoFrame what → AreShort (moves what l (station_of e.own) word).out.entries
        → IsSeated sa p m e s a → Came sa sb p m s a b (happens what l word e) }
    ensures delivers { (sa sb : Setup) (p : Proto) (says : CallAsk → Bool) (l m word : ℕ) (e : Ends) (s : Seat) (a : Auto) (b : End)
        → IsStation (station_of e.own) → IsOfLink (length e.own.trunk.links) l → 1 ≤ m → IsShortDelivery says l word e.own
        → IsSeated sa p m e s a → Came sa sb p m s a b (delivers says l word e) }
    ensures asks { (sa sb : Setup) (p : Proto) (what : BapAsk) (l m word : ℕ) (e : Ends) (s : Seat) (a : Auto) (b : End)
        → IsStation (station_of e.own) → IsOfLink (length e.own.trunk.links) l → 1 ≤ m
        → AreShort (asks_peer l what (station_of e.own) word).out.entries
        → IsSeated sa p m e s a → Came sa sb p m s a b (asks l what word e) }
    ensures tells { (sa sb : Setup) (p : Proto) (status l m word : ℕ) (e : Ends) (s : Seat) (a : Auto) (b : End)
        → IsStation (station_of e.own) → IsOfLink (length e.own.trunk.links) l → 1 ≤ m
        → AreShort (tells_peer l status (station_of e.own) word).out.entries
        → IsSeated sa p m e s a → Came sa sb p m s a b (tells l status word e) }
    ensures tries { (sa sb : Setup) (p : Proto) (l m word : ℕ) (e : Ends) (s : Seat) (a : Auto) (b : End)
        → IsStation (station_of e.own) → IsOfLink (length e.own.trunk.links) l → 1 ≤ m
        → AreShort (tries_again l (station_of e.own) word).out.entries
        → IsSeated sa p m e s a → Came sa sb p m s a b (tries l word e) }
    ensures loses { (sa sb : Setup) (p : Proto) (l m place : ℕ) (e : Ends) (s : Seat) (a : Auto) (b : End)
        → 1 ≤ l → 1 ≤ m
        → IsSeated sa p m e s a → Came sa sb p m s a b (loses l place e) }
{}

/// Does nothing. Its clauses are laws on a protocol that is configured on a link at both ends.
///
/// - `begins`: both ends as they begin are led to from the start of two ends by a list of events that delivers nothing.
/// - `reboots`: one end begins anew. For the protocol that is the two ends' event of that name, and then more that deliver
///   nothing. The other end's lines go down, one after the other, and no frame that it sends then is longer than the longest.
pub fn anew()
    ensures begins { (sa sb : Setup) (p : Proto) (m : ℕ) (own other : Station) (k j : Link)
        → slice_get own.trunk.links (m - 1) ≡ Some k → slice_get other.trunk.links (m - 1) ≡ Some j
        → IsBegun own.trunk → IsBegun other.trunk → IsSpoken sa p k.tables → IsSpoken sb p j.tables
        → Anew sa sb p m (start sa sb) (ends_begun own other) }
    ensures reboots { (sa sb : Setup) (p : Proto) (m word : ℕ) (e : Ends) (s o : Seat) (a b : Auto)
        → 1 ≤ m → AllShortDowns word (station_of e.other)
        → IsSeated sa p m e s a → IsSeated sb p m (turned e) o b
        → Anew sa sb p m (rebooted sa sb word (seat_duet p a s (end_of b (ledger_at o.ledgers p)))) (reboots word e) }
{}

/// Does nothing. Its clauses are laws on what holds of a protocol that is configured on a link at both ends: a list of the two
/// ends' events leads from their start to the state that they are in, each delivery of it from a state whose spans are at most
/// 255. So the laws on two ends hold there.
///
/// - `begins`: it holds of both ends as they begin.
/// - `happens`, `delivers`, `asks`, `tells`, `tries`, `loses`: it holds after each event at an end, on whatever link, if no span
///   was wider before and no frame that the event sends is longer than the longest.
/// - `reboots`: it holds after an end began anew, whatever the spans were, if no frame that the other end sends as its lines go
///   down is longer than the longest.
/// - `turned`: what holds of the two ends holds of them as the other sees it, so events at the other end keep it too.
pub fn kept()
    ensures begins { (sa sb : Setup) (p : Proto) (m : ℕ) (own other : Station) (k j : Link)
        → slice_get own.trunk.links (m - 1) ≡ Some k → slice_get other.trunk.links (m - 1) ≡ Some j
        → IsBegun own.trunk → IsBegun other.trunk → IsSpoken sa p k.tables → IsSpoken sb p j.tables
        → Kept sa sb p m (ends_begun own other) }
    ensures happens { (sa sb : Setup) (p : Proto) (what : Happening) (l m word : ℕ) (e : Ends) (k : Kept sa sb p m e)
        → IsOfLink (length e.own.trunk.links) l → 1 ≤ m → Narrow (duet_of k)
        → IsNoFrame what → AreShort (moves what l (station_of e.own) word).out.entries
        → Kept sa sb p m (happens what l word e) }
    ensures delivers { (sa sb : Setup) (p : Proto) (says : CallAsk → Bool) (l m word : ℕ) (e : Ends) (k : Kept sa sb p m e)
        → IsStation (station_of e.own) → IsOfLink (length e.own.trunk.links) l → 1 ≤ m → Narrow (duet_of k)
        → IsShortDelivery says l word e.own → Kept sa sb p m (delivers says l word e) }
    ensures asks { (sa sb : Setup) (p : Proto) (what : BapAsk) (l m word : ℕ) (e : Ends) (k : Kept sa sb p m e)
        → IsStation (station_of e.own) → IsOfLink (length e.own.trunk.links) l → 1 ≤ m → Narrow (duet_of k)
        → AreShort (asks_peer l what (station_of e.own) word).out.entries
        → Kept sa sb p m (asks l what word e) }
    ensures tells { (sa sb : Setup) (p : Proto) (status l m word : ℕ) (e : Ends) (k : Kept sa sb p m e)
        → IsStation (station_of e.own) → IsOfLink (length e.own.trunk.links) l → 1 ≤ m → Narrow (duet_of k)
        → AreShort (tells_peer l status (station_of e.own) word).out.entries
        → Kept sa sb p m (tells l status word e) }
    ensures tries { (sa sb : Setup) (p : Proto) (l m word : ℕ) (e : Ends) (k : Kept sa sb p m e)
        → IsStation (station_of e.own) → IsOfLink (length e.own.trunk.links) l → 1 ≤ m → Narrow (duet_of k)
        → AreShort (tries_again l (station_of e.own) word).out.entries
        → Kept sa sb p m (tries l word e) }
    ensures loses { (sa sb : Setup) (p : Proto) (l m place : ℕ) (e : Ends) (k : Kept sa sb p m e)
        → 1 ≤ l → 1 ≤ m → Narrow (duet_of k) → Kept sa sb p m (loses l place e) }
    ensures reboots { (sa sb : Setup) (p : Proto) (m word : ℕ) (e : Ends) (k : Kept sa sb p m e)
        → 1 ≤ m → AllShortDowns word (station_of e.other) → Kept sa sb p m (reboots word e) }
    ensures turned { (sa sb : Setup) (p : Proto) (m : ℕ) (e : Ends) → Kept sa sb p m e → Kept sb sa p m (turned e) }
{}

/// Does nothing. Its clauses are laws on what holds of every protocol on every link, whether both ends speak it, one of them or
/// none: where both do, what `kept` says holds, and where one doesn't, it has sent nothing of it.
///
/// - `begins`: it holds of both ends as they begin.
/// - `happens`, `delivers`, `asks`, `tells`, `tries`, `loses`: it holds after each event at an end, on whatever link, if no span
///   was wider than 255 before and no frame that the event sends is longer than the longest. Where the end drew no ordinal for the
///   protocol on the link, no span is wider then; the other end drew none.
/// - `reboots`: it holds after an end began anew, if no frame that the other end sends as its lines go down is longer than the
///   longest.
/// - `turned`: what holds of the two ends holds of them as the other sees it.
pub fn held()
    ensures begins { (m : ℕ) (p : Proto) (own other : Station) (k j : Link)
        → 1 ≤ m → slice_get own.trunk.links (m - 1) ≡ Some k → slice_get other.trunk.links (m - 1) ≡ Some j
        → IsBegun own.trunk → IsBegun other.trunk → IsHeld m p (ends_begun own other) }
    ensures happens { (what : Happening) (l m : ℕ) (p : Proto) (word : ℕ) (e : Ends)
        → IsOfLink (length e.own.trunk.links) l → 1 ≤ m
        → IsNoFrame what → AreShort (moves what l (station_of e.own) word).out.entries
        → NarrowOn m p e → IsHeld m p e → HeldAfter m p e (happens what l word e) }
    ensures delivers { (says : CallAsk → Bool) (l m : ℕ) (p : Proto) (word : ℕ) (e : Ends)
        → IsStation (station_of e.own) → IsOfLink (length e.own.trunk.links) l → 1 ≤ m → IsShortDelivery says l word e.own
        → NarrowOn m p e → IsHeld m p e → HeldAfter m p e (delivers says l word e) }
    ensures asks { (what : BapAsk) (l m : ℕ) (p : Proto) (word : ℕ) (e : Ends)
        → IsStation (station_of e.own) → IsOfLink (length e.own.trunk.links) l → 1 ≤ m
        → AreShort (asks_peer l what (station_of e.own) word).out.entries
        → NarrowOn m p e → IsHeld m p e → HeldAfter m p e (asks l what word e) }
    ensures tells { (status l m : ℕ) (p : Proto) (word : ℕ) (e : Ends)
        → IsStation (station_of e.own) → IsOfLink (length e.own.trunk.links) l → 1 ≤ m
        → AreShort (tells_peer l status (station_of e.own) word).out.entries
        → NarrowOn m p e → IsHeld m p e → HeldAfter m p e (tells l status word e) }
    ensures tries { (l m : ℕ) (p : Proto) (word : ℕ) (e : Ends)
        → IsStation (station_of e.own) → IsOfLink (length e.own.trunk.links) l → 1 ≤ m
        → AreShort (tries_again l (station_of e.own) word).out.entries
        → NarrowOn m p e → IsHeld m p e → HeldAfter m p e (tries l word e) }
    ensures loses { (l m place : ℕ) (p : Proto) (e : Ends)
        → 1 ≤ l → 1 ≤ m → NarrowOn m p e → IsHeld m p e → HeldAfter m p e (loses l place e) }
    ensures reboots { (m : ℕ) (p : Proto) (word : ℕ) (e : Ends)
        → 1 ≤ m → AllShortDowns word (station_of e.other)
        → IsHeld m p e → IsHeld m p (reboots word e) }
    ensures turned { (m : ℕ) (p : Proto) (e : Ends) → IsHeld m p e → IsHeld m p (turned e) }
{}
