//! What an event of a station is to its links.

ghost use Rattle.std.specs.Prelude.{ℕ, Bool, List, [], ◌∷◌, length};
ghost use Rattle.ppp_bap.specs.declared.bap_ask.BapAsk.{BapAsk};
ghost use Rattle.ppp_station.specs.Moves.{Does, IsMoved};
ghost use Rattle.ppp_station.specs.Station.{asks_peer, hears, moves, tells_peer, tries_again, IsStation, Station};
ghost use Rattle.ppp_trunk.specs.Steps.{Happening, Takes};
ghost use Rattle.ppp_trunk.specs.Trunk.{IsOfLink};

/// Does nothing. Its clauses are laws: what an event of a station is to its links are moves, one after the other. Where it is of a
/// link, what happens to that link is the first. What BAP causes follows: packets of BAP that go out, links that are marked, links
/// whose LCP closes, and what is told.
pub fn moved()
    ensures line { (what : Happening) (l word : ℕ) (st : Station)
        → IsMoved (Does what l ∷ []) word st (moves what l st word).station (moves what l st word).out.entries }
    ensures octets { (allowed : Bool) (l word : ℕ) (octets : List ℕ) (st : Station)
        → IsStation st → IsOfLink (length st.trunk.links) l
        → IsMoved (Does (Takes octets) l ∷ []) word st (hears allowed l octets st word).station (hears allowed l octets st word).out.entries }
    ensures asks { (l word : ℕ) (what : BapAsk) (st : Station) → IsStation st → IsOfLink (length st.trunk.links) l
        → IsMoved [] word st (asks_peer l what st word).station (asks_peer l what st word).out.entries }
    ensures tells { (l status word : ℕ) (st : Station) → IsStation st → IsOfLink (length st.trunk.links) l
        → IsMoved [] word st (tells_peer l status st word).station (tells_peer l status st word).out.entries }
    ensures tries { (l word : ℕ) (st : Station) → IsStation st → IsOfLink (length st.trunk.links) l
        → IsMoved [] word st (tries_again l st word).station (tries_again l st word).out.entries }
{}
