//! OSINLCP's options (RFC 1377 section 3.1).

ghost use Rattle.std.specs.Prelude.{◌≡◌, ℕ, false, refl, IsTrue};
ghost use Rattle.ppp_packet.specs.Proto.{proto_number};
ghost use Rattle.ppp_packet.specs.declared.proto.Proto.TheVariants.{Osi};
ghost use Rattle.ppp_options.specs.Fits.{FitsAny};
ghost use Rattle.ppp_options.specs.RuleLaw.{rules_lawful};
ghost use Rattle.ppp_options.specs.Rules.{table_by, Sendable, IsUnknown, Allows};
ghost use Rattle.ppp_osimpls.specs.Alignment as spec;
ghost use Rattle.ppp_osimpls.specs.OsiTable.{osi_rules};
ghost use Rattle.ppp_osimpls.specs.OsiLaw.{osi_is_table};

use ppp_auto::{OptionTable, Verdict};
use ppp_options::{OptionRules, first_list, list_after_nak, list_after_reject};
use ppp_packet::{Opt, OptList, OptRef, Options};

/// The Type of an alignment (RFC 1377 section 3.1).
pub const ALIGNMENT: u8 = 1;

/// The octets of an alignment.
pub const ALIGNMENT_OCTETS: usize = 1;

/// The greatest alignment that is a multiple of octets.
pub const MOST_ALIGNMENT: u8 = 4;

/// The alignment at even boundaries.
pub const EVEN: u8 = 254;

/// The alignment at odd boundaries.
pub const ODD: u8 = 255;

/// What an end asks for of OSINLCP.
#[derive(Clone, Copy, Debug, PartialEq, Eq)]
pub struct OsiTable {
    /// The own alignment: 1 to 4, 254 or 255, or 0, which asks for none.
    pub align: u8,
    pub ghost is_setting: { IsTrue (spec.is_setting align) },
}

impl OptionRules for OsiTable {
    ghost rules = { λ t. osi_rules t.align };

    fn kinds(&self) -> &[u8] {
        &[ALIGNMENT]
    }

    fn first(&self, kind: u8, _word: u64) -> Option<Opt> {
        if kind == ALIGNMENT && self.align != 0 {
            Some(Opt::new(ALIGNMENT, &[self.align]))
        } else {
            None
        }
    }

    fn is_sent(&self, option: OptRef<'_>) -> bool {
        option.kind == ALIGNMENT && is_good(option.body)
    }

    fn after_nak(&self, option: OptRef<'_>, nak: &[u8], _word: u64) -> Opt {
        Opt::new(option.kind, if is_good(nak) { nak } else { option.body })
    }

    ghost is_table = { λ t. osi_is_table t.align t.is_setting };
}

impl OptionTable for OsiTable {
    const PROTOCOL: u16 = 0x8023;

    ghost PROTOCOL = { proto_number Osi };

    const EXTENDED: bool = false;

    ghost EXTENDED = { false };

    ghost table = { λ t. table_by false (osi_rules t.align) (λ mine. 0) };

    ghost sendable = { λ t. Sendable (osi_rules t.align) };

    ghost unknown = { λ t. IsUnknown (osi_rules t.align) };

    ghost allows = { λ t. Allows (osi_rules t.align) };

    ghost compat = { FitsAny };

    fn initial(&self, word: u64) -> OptList {
        first_list(self, word)
    }

    fn judge(&self, _own: &OptList, option: OptRef<'_>, _word: u64) -> Verdict {
        if option.kind != ALIGNMENT {
            Verdict::Unknown
        } else if is_good(option.body) {
            Verdict::Good
        } else {
            Verdict::Bad(Opt::new(ALIGNMENT, &[1]))
        }
    }

    fn missing(&self, _own: &OptList, _theirs: &Options<'_>, _word: u64) -> Option<Opt> {
        None
    }

    fn adapt_nak(&self, last: &OptList, nak: &Options<'_>, word: u64) -> OptList {
        list_after_nak(self, last, nak, word)
    }

    fn adapt_reject(&self, last: &OptList, reject: &Options<'_>, _word: u64) -> OptList {
        list_after_reject(last, reject)
    }

    fn magic(&self, _mine: &OptList) -> u32 {
        0
    }

    ghost lawful = { λ t. rules_lawful false (osi_rules t.align) (λ mine. 0) FitsAny
        (osi_is_table t.align t.is_setting) (λ own theirs sends allowed. tt) (λ one other fits. tt) };

    ghost extends = { λ t. refl };
}

/// Whether a body is an alignment: a multiple of 1 to 4 octets, or the even or odd boundary.
fn is_good(body: &[u8]) -> bool
    ensures { result ≡ spec.is_good_body body.now }
{
    body.len() == ALIGNMENT_OCTETS && matches!(body[0], 1..=MOST_ALIGNMENT | EVEN | ODD)
}
