//! What octets come to on a link, however they are cut.

ghost use Rattle.std.specs.Prelude.{ℕ, List, length};
ghost use Rattle.ppp_link.specs.Answer.{IsAnswer, StandsAfter, all_calls, calls, joined};
ghost use Rattle.ppp_link.specs.Link.{Link};

/// Does nothing. Its clauses are laws on calls of [`bytes`](crate::Link::bytes), on a link whose deframer stands after any
/// octets of an unfinished piece:
///
/// - `whole`: called until its octets are used up, each time with those that the call before left, it does what the pieces
///   say that end in them (RFC 1662 section 4), each discarded or taken as LCP grants at that moment, and nothing else; and
///   as many calls as there are octets are enough.
/// - `cut`: so it does for octets that come in any cutting.
pub fn answered()
    ensures whole { (k : Link) (run octets : List ℕ) (word : ℕ) → StandsAfter run k
        → IsAnswer k run octets word (calls (length octets) k octets word) }
    ensures cut { (k : Link) (run : List ℕ) (cut : List (List ℕ)) (word : ℕ) → StandsAfter run k
        → IsAnswer k run (joined cut) word (all_calls k cut word) }
{}
