//! IPV6CP's options (RFC 5072 section 4.1).

ghost use Rattle.std.specs.Prelude.{◌≡◌, false, refl};
ghost use Rattle.ppp_packet.specs.Proto.{proto_number};
ghost use Rattle.ppp_packet.specs.declared.proto.Proto.TheVariants.{Ipv6};
ghost use Rattle.ppp_options.specs.DiffersLaw.{differs-both_ways};
ghost use Rattle.ppp_options.specs.declared.number.TheConstants.{OCTETS_U64};
ghost use Rattle.ppp_options.specs.RuleLaw.{rules_lawful};
ghost use Rattle.ppp_options.specs.Rules.{table_by, Sendable, IsUnknown, Allows};
ghost use Rattle.ppp_packet.specs.Options.{option_with};
ghost use Rattle.ppp_ncp.specs.Ipv6Law.{ipv6_is_table, ipv6_fits};
ghost use Rattle.ppp_ncp.specs.Ipv6Table as spec;
ghost use Rattle.ppp_ncp.specs.declared.ipv6_table.TheConstants.{IDENTIFIER};

use ppp_auto::{OptionTable, Verdict};
use ppp_options::{
    OCTETS_U64, OptionRules, first_list, is_new_u64, list_after_nak, list_after_reject,
    number_of_u64, number_u64, octets_u64, pick64,
};
use ppp_packet::{Opt, OptList, OptRef, Options};

/// The Type of an Interface-Identifier (RFC 5072 section 4.1).
pub const IDENTIFIER: u8 = 1;

/// What an end asks for of IPV6CP.
#[derive(Clone, Copy, Debug, PartialEq, Eq)]
pub struct Ipv6Table {
    /// The own interface identifier, or 0, which asks the peer for one.
    pub own: u64,
    /// Whether it is asked for.
    pub ask: bool,
}

impl OptionRules for Ipv6Table {
    ghost rules = { λ t. spec.ipv6_rules t.own t.ask };

    fn kinds(&self) -> &[u8] {
        &[IDENTIFIER]
    }

    fn first(&self, kind: u8, _word: u64) -> Option<Opt> {
        if kind == IDENTIFIER && self.ask {
            Some(Opt::new(IDENTIFIER, &octets_u64(self.own)))
        } else {
            None
        }
    }

    fn is_sent(&self, option: OptRef<'_>) -> bool {
        option.kind == IDENTIFIER && option.body.len() == OCTETS_U64
    }

    fn after_nak(&self, option: OptRef<'_>, nak: &[u8], _word: u64) -> Opt {
        if is_new_u64(0, nak) {
            Opt::new(option.kind, nak)
        } else {
            Opt::new(option.kind, option.body)
        }
    }

    ghost is_table = { λ t. ipv6_is_table t.own t.ask };
}

impl OptionTable for Ipv6Table {
    const PROTOCOL: u16 = 0x8057;

    ghost PROTOCOL = { proto_number Ipv6 };

    const EXTENDED: bool = false;

    ghost EXTENDED = { false };

    ghost table = { λ t. table_by false (spec.ipv6_rules t.own t.ask) (λ mine. 0) };

    ghost sendable = { λ t. Sendable (spec.ipv6_rules t.own t.ask) };

    ghost unknown = { λ t. IsUnknown (spec.ipv6_rules t.own t.ask) };

    ghost allows = { λ t. Allows (spec.ipv6_rules t.own t.ask) };

    ghost compat = { spec.FitsIdentifier };

    fn initial(&self, word: u64) -> OptList {
        first_list(self, word)
    }

    fn judge(&self, own: &OptList, option: OptRef<'_>, word: u64) -> Verdict {
        let mine = number_of_u64(own, IDENTIFIER);
        if option.kind != IDENTIFIER {
            Verdict::Unknown
        } else if is_new_u64(mine, option.body) {
            Verdict::Good
        } else {
            Verdict::Bad(better(mine, option.body, word))
        }
    }

    fn missing(&self, _own: &OptList, _theirs: &Options<'_>, _word: u64) -> Option<Opt> {
        None
    }

    fn adapt_nak(&self, last: &OptList, nak: &Options<'_>, word: u64) -> OptList {
        list_after_nak(self, last, nak, word)
    }

    fn adapt_reject(&self, last: &OptList, reject: &Options<'_>, _word: u64) -> OptList {
        list_after_reject(last, reject)
    }

    fn magic(&self, _mine: &OptList) -> u32 {
        0
    }

    ghost lawful = { λ t. rules_lawful false (spec.ipv6_rules t.own t.ask) (λ mine. 0) spec.FitsIdentifier
        (ipv6_is_table t.own t.ask) (ipv6_fits t.own t.ask) (differs-both_ways IDENTIFIER OCTETS_U64) };

    ghost extends = { λ t. refl };
}

/// What is suggested in the place of a peer's identifier that isn't good: itself where both ends have 0, so that it is
/// rejected, else a drawn one.
fn better(own: u64, body: &[u8], word: u64) -> Opt
    ensures { result ≡ option_with IDENTIFIER (spec.better_identifier own body.now word) }
{
    if body.len() == OCTETS_U64 && number_u64(body) == 0 && own == 0 {
        Opt::new(IDENTIFIER, body)
    } else {
        Opt::new(IDENTIFIER, &octets_u64(pick64(word, own)))
    }
}
