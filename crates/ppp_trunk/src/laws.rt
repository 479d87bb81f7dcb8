//! What an event of a trunk is to each of its automata, when these are Up, and how long their answers are.

ghost use Rattle.std.specs.Prelude.{◌≡◌, ◌≢◌, ◌-◌, ◌≤◌, ℕ, false, length, Some, slice_get};
ghost use Rattle.ppp_auto.specs.Auto.{is_opened};
ghost use Rattle.ppp_link.specs.Automata.{auto_at};
ghost use Rattle.ppp_link.specs.Link.{Link};
ghost use Rattle.ppp_packet.specs.declared.proto.Proto.{Proto};
ghost use Rattle.ppp_packet.specs.declared.proto.Proto.TheVariants.{Lcp};
ghost use Rattle.ppp_trunk.specs.Caps.{AreCapped};
ghost use Rattle.ppp_trunk.specs.Moves.{AreFramed, AreLinked, MovesAt};
ghost use Rattle.ppp_trunk.specs.Phases.{IsTrunk, IsUpWhere};
ghost use Rattle.ppp_trunk.specs.Trunk.{Trunk, on_link, trunk_anew, IsBegun, IsOfLink};
ghost use Rattle.ppp_trunk.specs.StationOut.{AreShort};
ghost use Rattle.ppp_trunk.specs.Steps.{Happening};

/// Does nothing. Its clauses are laws on what an event of a trunk is to the automaton of each protocol on each of its links,
/// where that is configured.
///
/// - `moved`: the automaton is as the rules' orders leave it: on the event's own link its event or the octets of its packet,
///   and the cap, after a row of LCP; on any link Up and Down of a control protocol above LCP, where the event's link came to
///   have LCP Opened or left that, alone or in a bundle whose control link changed by it. Its packets among the frames that go
///   out on the link are those that it sends by these orders, in order; among LCP's are the Protocol-Rejects. It holds where no
///   frame is longer than the longest that is sent, as none of a trunk's is. The link's tables stay, and its deframer takes
///   the octets that came on it.
/// - `framed`, `linked`: what goes out are frames of control protocols, on links of the trunk.
/// - `count`: there are as many links as before.
pub fn ordered()
    ensures moved { (what : Happening) (l m word : ℕ) (st : Trunk) (k j : Link)
        → 1 ≤ l → 1 ≤ m → slice_get st.links (l - 1) ≡ Some k → slice_get st.links (m - 1) ≡ Some j
        → AreShort (on_link what l st word).out.entries → MovesAt what l m word st j }
    ensures framed { (what : Happening) (l word : ℕ) (st : Trunk) → AreFramed (on_link what l st word).out.entries }
    ensures linked { (what : Happening) (l word : ℕ) (st : Trunk) → IsOfLink (length st.links) l
        → AreLinked (length st.links) (on_link what l st word).out.entries }
    ensures count { (what : Happening) (l word : ℕ) (st : Trunk)
        → length (on_link what l st word).trunk.links ≡ length st.links }
{}

/// Does nothing. Its clauses are laws on when the control protocols above LCP are Up (RFC 1661 section 3, RFC 1990 section 2,
/// RFC 2125 section 2): on a single link one of the network exactly while LCP is Opened, and BACP never; in a bundle all of them on
/// its control link, and none on any other. A link that is joined has LCP Opened, and is joined by what that grants.
///
/// - `begun`: so it is at a trunk as it begins.
/// - `anew`: a trunk that is reset is as it began.
/// - `kept`: so it stays, whatever happens to one of the links.
/// - `off`: so none is Up on a link whose LCP isn't Opened.
pub fn phases()
    ensures begun { (st : Trunk) → IsBegun st → IsTrunk st }
    ensures anew { (st : Trunk) → IsTrunk st → IsBegun (trunk_anew st) }
    ensures kept { (what : Happening) (l word : ℕ) (st : Trunk) (k : Link)
        → 1 ≤ l → slice_get st.links (l - 1) ≡ Some k → IsTrunk st → IsTrunk (on_link what l st word).trunk }
    ensures off { (st : Trunk) (i : ℕ) (k : Link) (p : Proto)
        → IsTrunk st → slice_get st.links i ≡ Some k → p ≢ Lcp → is_opened k.automata.lcp.state ≡ false
        → IsUpWhere false (auto_at k.automata p) }
{}

/// Does nothing. Its clauses are laws on the most octets that a Code-Reject, an Echo-Reply and a Protocol-Reject have on a
/// link: 1,500, and while LCP is Opened no more than the peer's granted Maximum-Receive-Unit. Each automaton has that cap.
///
/// - `begun`: so it is on each link of a trunk as it begins.
/// - `kept`: so it stays, whatever happens to one of the links.
pub fn caps()
    ensures begun { (st : Trunk) → IsBegun st → AreCapped st }
    ensures kept { (what : Happening) (l word : ℕ) (st : Trunk) → AreCapped st → AreCapped (on_link what l st word).trunk }
{}
