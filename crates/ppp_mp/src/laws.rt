//! Laws of fragments in classes: clauses of functions that do nothing.

ghost use Rattle.std.specs.Prelude.{◌≡◌, ℕ, Bool, List, [], ◌∷◌, ◌++◌, Some};
ghost use Rattle.ppp_mp.specs.Begins.{AllBeginSo, BeginsSo, IsOfFronts, TookSo};
ghost use Rattle.ppp_mp.specs.Class.{Class, Shape, received};
ghost use Rattle.ppp_mp.specs.Fragments.{Fragment, fragments_of, packets};
ghost use Rattle.ppp_mp.specs.Header.{IsHeaderOf, header_octets, header_of, size_of};
ghost use Rattle.ppp_mp.specs.declared.header.Header.{Header};
ghost use Rattle.ppp_mp.specs.declared.fragment_out.TheConstants.{MOST_OCTETS};
ghost use Rattle.ppp_mp.specs.declared.limits.TheConstants.{CLASSES, LONG_CLASSES, LONG_SPACE, MOST_HELD, MOST_LINKS, MOST_PACKET, SHORT_CLASSES, SHORT_SPACE};
ghost use Rattle.ppp_mp.specs.Passage.{Event, InOrder, IsSpace};

/// Does nothing. Its clause is the law of one class: each packet that it delivers in one life is one that was cut since the
/// sender's reset, whole, once and in order, as long as the numbers in flight span less than half the number space. The
/// fragments come in any order and on any links, each of them never, once or more often; links join and leave at any time;
/// and whatever was before the life may have happened.
pub fn in_order()
    ensures { (s : Shape) → IsSpace s.space → (before life : List Event) → InOrder s before life }
{}

/// Does nothing. Its clause is the law that what a class holds and delivers begins as some fragment did that begins a
/// packet, whatever the numbers are: of anything that octets begin with, as a protocol.
pub fn begun()
    ensures { (starts : List ℕ → Bool) → IsOfFronts starts
        → (s : Shape) (joined : List Bool) (k : Class) (link wire : ℕ) (f : Fragment)
        → BeginsSo starts f → AllBeginSo starts k.held
        → TookSo starts (received s joined k link wire f) }
{}

/// Does nothing. Its clauses are laws on what is cut and written.
///
/// - `header`: a header that is written is read again, whatever follows it.
/// - `whole`: the fragments of a packet make that packet and no other, whatever has begun before them.
pub fn read_again()
    ensures header { (short : Bool) (h : Header) (rest : List ℕ) → IsHeaderOf short h
        → header_of short (header_octets short h ++ rest) ≡ Some (h, size_of short) }
    ensures whole { (size : ℕ) (before packet : List ℕ)
        → packets before (fragments_of size packet) ≡ packet ∷ [] }
{}

/// Does nothing. Its clauses say the numbers that the formats and the rules fix.
///
/// - `long_classes`, `short_classes`, `long_space`, `short_space`: those of the two forms of a header.
/// - `classes`, `links`, `held`, `packet`, `octets`: how much is numbered, joined, held, cut and written.
pub fn numbers()
    ensures long_classes { LONG_CLASSES ≡ 16 }
    ensures short_classes { SHORT_CLASSES ≡ 4 }
    ensures long_space { LONG_SPACE ≡ 16777216 }
    ensures short_space { SHORT_SPACE ≡ 4096 }
    ensures classes { CLASSES ≡ 16 }
    ensures links { MOST_LINKS ≡ 16 }
    ensures held { MOST_HELD ≡ 256 }
    ensures packet { MOST_PACKET ≡ 8194 }
    ensures octets { MOST_OCTETS ≡ 9218 }
{}
