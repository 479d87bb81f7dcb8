//! What the forms of this crate promise of one another.

ghost use Rattle.std.specs.Prelude.{◌≡◌, ◌↔◌, ℕ, ◌+◌, ◌≤◌, Bool, List, length, Some};
ghost use Rattle.std.specs.List.{AllByRecursion};
ghost use Rattle.ppp_frame.specs.declared.form.Form.{Form};
ghost use Rattle.ppp_frame.specs.declared.why.Why.{Why};
ghost use Rattle.ppp_frame.specs.Deframer.{DeframerState, TakesWhole};
ghost use Rattle.ppp_frame.specs.Discard.{IsDiscarded};
ghost use Rattle.ppp_frame.specs.Escapes.{HasNoFlag};
ghost use Rattle.ppp_frame.specs.Frame.{enc, Framed, FramedWithin, inside};
ghost use Rattle.ppp_frame.specs.Header.{Headed, ReadsBack, read_of, reads};
ghost use Rattle.ppp_frame.specs.Standing.{fresh};
ghost use Rattle.ppp_frame.specs.Stream.{pieces};
ghost use Rattle.ppp_frame.specs.Verdict.{Discarded, Reader, Taken, answer_of};

/// Does nothing. Its clauses are laws (RFC 1662 section 3.1, RFC 1661 sections 6.5 and 6.6):
///
/// - `sent`: what [`encode`](crate::encode) writes between the flags is a frame of its protocol and information, and of no
///   others, to a reader who takes the short headers of the form. It holds of each protocol whose high octet is even, and of
///   every protocol where the form has no short one.
/// - `answered`: a frame is answered exactly where the piece is a frame of that protocol and information within the limit.
/// - `discarded`: a discard is answered exactly where its cause is the first that applies.
/// - `header`: a header is read exactly where the octets are headed by that protocol and information, so that a bad header
///   is that of none.
/// - `pieces`: the pieces of a stream have no flag, as `answered` asks.
/// - `taken`: a deframer that stands as after a flag takes what `encode` writes at once and whole, as a frame of its protocol
///   and information, and stands as after a flag again, if it takes the short headers of the form and has room.
pub fn read_back()
    ensures sent { (form : Form) (protocol : ℕ) (info : List ℕ) → ReadsBack form protocol
        → (other : ℕ) (others : List ℕ)
        → Framed form.ac form.pf other others (inside form protocol info)
        ↔ ((other ≡ protocol) × (others ≡ info)) }
    ensures answered { (reader : Reader) (protocol : ℕ) (info piece : List ℕ)
        → HasNoFlag piece → (answer_of reader piece ≡ Taken (reads protocol info))
        ↔ FramedWithin reader.limit reader.ac reader.pf protocol info piece }
    ensures discarded { (reader : Reader) (piece : List ℕ) (why : Why) →
        (answer_of reader piece ≡ Discarded why) ↔ IsDiscarded reader piece why }
    ensures header { (ac pf : Bool) (protocol : ℕ) (info octets : List ℕ) →
        (read_of ac pf octets ≡ Some (reads protocol info)) ↔ Headed ac pf protocol info octets }
    ensures pieces { (stream : List ℕ) → AllByRecursion HasNoFlag (pieces stream) }
    ensures taken { (d : DeframerState) (form : Form) (protocol : ℕ) (info : List ℕ)
        → ReadsBack form protocol → d.standing ≡ fresh
        → d.reader.ac ≡ form.ac → d.reader.pf ≡ form.pf → length info + 6 ≤ d.reader.limit
        → TakesWhole d (enc form protocol info) (reads protocol info) }
{}
