//! MPLSCP's options, of which there are none (RFC 3032 section 4.4).

ghost use Rattle.std.specs.Prelude.{◌≡◌, false, refl};
ghost use Rattle.ppp_packet.specs.Proto.{proto_number};
ghost use Rattle.ppp_packet.specs.declared.proto.Proto.TheVariants.{Mpls};
ghost use Rattle.ppp_options.specs.Fits.{FitsAny};
ghost use Rattle.ppp_options.specs.RuleLaw.{rules_lawful};
ghost use Rattle.ppp_options.specs.Rules.{table_by, Sendable, IsUnknown, Allows};
ghost use Rattle.ppp_osimpls.specs.MplsTable.{mpls_rules};
ghost use Rattle.ppp_osimpls.specs.OsiLaw.{mpls_is_table};

use ppp_auto::{OptionTable, Verdict};
use ppp_options::list_after_reject;
use ppp_packet::{Opt, OptList, OptRef, Options};

/// What an end asks for of MPLSCP: nothing.
#[derive(Clone, Copy, Debug, PartialEq, Eq)]
pub struct MplsTable;

impl OptionTable for MplsTable {
    const PROTOCOL: u16 = 0x8281;

    ghost PROTOCOL = { proto_number Mpls };

    const EXTENDED: bool = false;

    ghost EXTENDED = { false };

    ghost table = { λ t. table_by false mpls_rules (λ mine. 0) };

    ghost sendable = { λ t. Sendable mpls_rules };

    ghost unknown = { λ t. IsUnknown mpls_rules };

    ghost allows = { λ t. Allows mpls_rules };

    ghost compat = { FitsAny };

    fn initial(&self, _word: u64) -> OptList {
        OptList::new()
    }

    fn judge(&self, _own: &OptList, _option: OptRef<'_>, _word: u64) -> Verdict {
        Verdict::Unknown
    }

    fn missing(&self, _own: &OptList, _theirs: &Options<'_>, _word: u64) -> Option<Opt> {
        None
    }

    fn adapt_nak(&self, last: &OptList, _nak: &Options<'_>, _word: u64) -> OptList {
        last.copied()
    }

    fn adapt_reject(&self, last: &OptList, reject: &Options<'_>, _word: u64) -> OptList {
        list_after_reject(last, reject)
    }

    fn magic(&self, _mine: &OptList) -> u32 {
        0
    }

    ghost lawful = { λ t. rules_lawful false mpls_rules (λ mine. 0) FitsAny mpls_is_table
        (λ own theirs sends allowed. tt) (λ one other fits. tt) };

    ghost extends = { λ t. refl };
}
