ghost use Rattle.std.specs.Prelude.{ℕ, List, [], ◌∷◌, Option};
ghost use Rattle.ppp_io.specs.Account.{PutsOn};

/// A clock in milliseconds.
pub trait Clock {
    // the moments that it gave, in order, or None where the clock doesn't tell
    ghost moments: { Self → Option (List ℕ) };

    /// The moment. It can't fail.
    fn now(&mut self) -> u64
        ensures { PutsOn (moments self.old) (moments self.new) (result ∷ []) };
}
