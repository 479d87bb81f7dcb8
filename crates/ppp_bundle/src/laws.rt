//! Laws of an end's bundles: clauses of functions that do nothing.

ghost use Rattle.std.specs.Prelude.{◌≡◌, ◌≢◌, ℕ, ◌≤◌, List, length, Some, None, is_some, IsTrue};
ghost use Rattle.ppp_bundle.specs.BundleTable.{AreMirrored, IsBundles, IsLimits, IsLinkOf};
ghost use Rattle.ppp_bundle.specs.Bundles as spec;
ghost use Rattle.ppp_bundle.specs.JoinKey.{Key};
ghost use Rattle.ppp_bundle.specs.Joining.{joined_as};
ghost use Rattle.ppp_bundle.specs.declared.limits.Limits.{Limits};
ghost use Rattle.ppp_bundle.specs.declared.limits.TheConstants.{CLASSES};

/// Does nothing. Its clauses are laws on what is always so of an end's bundles. The links of a bundle have one peer and
/// like terms, the two discriminators of a link's key differ, and each joined link's peer is remembered.
///
/// - `begun`: it is so of a new table.
/// - `joins`, `leaves`, `marks`, `numbered`: a link that joins, leaves or is marked keeps it, and so do other numbers.
pub fn sound()
    ensures begun { (n : Limits) → IsLimits n → IsBundles (spec.bundles_begun n) }
    ensures joins { (l : ℕ) (k : Key) (t : spec.Bundles)
        → IsBundles t → IsBundles (joined_as l k t) }
    ensures leaves { (l : ℕ) (t : spec.Bundles) → IsBundles t → IsBundles (spec.left l t) }
    ensures marks { (l : ℕ) (t : spec.Bundles) → IsBundles t → IsBundles (spec.marked_at l t) }
    ensures numbered { (b : ℕ) (numbers : List ℕ) (t : spec.Bundles) → length numbers ≡ CLASSES
        → IsBundles t → IsBundles (spec.with_numbers b numbers t) }
{}

/// Does nothing. Its clause is the law that both ends of a bundle have the same control link: where each link is joined
/// in this end's bundle exactly where it is in the other end's, with the two grants exchanged.
pub fn same_control()
    ensures { (b c : ℕ) (t u : spec.Bundles) → IsBundles t → IsBundles u → AreMirrored b t c u
        → spec.control_of b t ≡ spec.control_of c u }
{}

/// Does nothing. Its clauses are laws on the control link of a bundle.
///
/// - `joined`: it is a link of the table and is joined in that bundle.
/// - `linked`: a bundle has one exactly where it has a link.
/// - `found`: a bundle that a link is joined in has a link.
pub fn control_joined()
    ensures joined { (b l : ℕ) (t : spec.Bundles) → IsBundles t → spec.control_of b t ≡ Some l
        → IsLinkOf t l × (spec.bundle_at l t ≡ Some b) }
    ensures linked { (b : ℕ) (t : spec.Bundles)
        → spec.has_link b t ≡ is_some (spec.control_of b t) }
    ensures found { (b l : ℕ) (t : spec.Bundles)
        → spec.bundle_at l t ≡ Some b → IsTrue (spec.has_link b t) }
{}

/// Does nothing. Its clauses are laws on a link that joins, leaves or is marked: every other link stays joined as it
/// was.
pub fn alone()
    ensures joins { (l m : ℕ) (k : Key) (t : spec.Bundles) → 1 ≤ l → 1 ≤ m → m ≢ l
        → spec.member_at m (joined_as l k t) ≡ spec.member_at m t }
    ensures leaves { (l m : ℕ) (t : spec.Bundles) → 1 ≤ l → 1 ≤ m → m ≢ l
        → spec.member_at m (spec.left l t) ≡ spec.member_at m t }
    ensures marks { (l m : ℕ) (t : spec.Bundles) → 1 ≤ l → 1 ≤ m → m ≢ l
        → spec.member_at m (spec.marked_at l t) ≡ spec.member_at m t }
{}

/// Does nothing. Its clauses are laws on the sending numbers that are kept for the peers.
///
/// - `last`: a bundle with a link has those that were kept for it last.
/// - `others`: other numbers for one peer change no other peer's.
/// - `joins`: a link that asks to join changes nobody's. One that leaves or is marked changes nothing of the peers.
pub fn numbers_kept()
    ensures last { (b : ℕ) (numbers : List ℕ) (t : spec.Bundles) → IsBundles t → IsTrue (spec.has_link b t)
        → spec.numbers_of b (spec.with_numbers b numbers t) ≡ numbers }
    ensures others { (disc other numbers : List ℕ) (ps : List spec.Peer) → other ≢ disc
        → spec.numbers_for other (spec.renumbered disc numbers ps) ≡ spec.numbers_for other ps }
    ensures joins { (l : ℕ) (k : Key) (t : spec.Bundles) (disc : List ℕ)
        → spec.numbers_for disc (joined_as l k t).peers ≡ spec.numbers_for disc t.peers }
{}
