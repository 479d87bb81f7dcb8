//! What settings that were read keep.

ghost use Rattle.std.specs.Prelude.{◌≡◌, ℕ, List, Ok};
ghost use Rattle.ppp_conf.specs.Config.{Settings, config_of};
ghost use Rattle.ppp_conf.specs.Ranges.{AreInRange};

/// Does nothing. Its clause is a law: the settings that a text reads as are within their ranges and break no rule, at both
/// ends.
pub fn read_in_range()
    ensures { (text : List ℕ) (s : Settings) → config_of text ≡ Ok s → AreInRange s }
{}
