//! What a table makes of the options of one Type.

ghost use Rattle.std.specs.Prelude.{◌≡◌, List, map, IsTrue};
ghost use Rattle.ppp_packet.specs.Options.{option_with};
ghost use Rattle.ppp_packet.specs.OptRef.{option_seen};
ghost use Rattle.ppp_options.specs.Rule.{Rule};
ghost use Rattle.ppp_options.specs.Rules.{rule_of, first_by, is_sent, after_by, IsTable};

use ppp_packet::{Opt, OptRef};

/// A table of options by its rows: what it asks for of one Type. Each method is a function of the table and its
/// arguments alone.
pub trait OptionRules {
    // the rows, in ascending Types
    ghost rules: { Self → List Rule };

    /// The Types that the table knows, in ascending order.
    fn kinds(&self) -> &[u8]
        ensures { result.now ≡ map (λ rule. rule.kind) (rules self.now) };

    /// The option of this Type that is asked for first, if one is.
    fn first(&self, kind: u8, word: u64) -> Option<Opt>
        ensures { result ≡ first_by (rule_of kind (rules self.now)) word };

    /// Whether an own option may be asked for.
    fn is_sent(&self, option: OptRef<'_>) -> bool
        ensures { result ≡ is_sent (rules self.now) (option_seen option.entry) };

    /// What a Configure-Nak with this body makes of an own option that may be asked for.
    fn after_nak(&self, option: OptRef<'_>, nak: &[u8], word: u64) -> Opt
        requires { IsTrue (is_sent (rules self.now) (option_seen option)) }
        ensures { result ≡ option_with option.entry.kind
            (after_by (rule_of option.entry.kind (rules self.now)) option.entry.body.now nak.now word) };

    ghost is_table: { (it : Self) → IsTable (rules it) };
}
