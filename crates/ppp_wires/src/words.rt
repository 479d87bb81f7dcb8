ghost use Rattle.std.specs.Prelude.{ℕ, List, [], ◌∷◌, Option};
ghost use Rattle.ppp_io.specs.Account.{PutsOn};

/// Numbers at will.
pub trait Words {
    // the words that it gave, in order, or None where it doesn't tell
    ghost words: { Self → Option (List ℕ) };

    /// The next word. It can't fail.
    fn next(&mut self) -> u64
        ensures { PutsOn (words self.old) (words self.new) (result ∷ []) };
}
