//! BACP's options (RFC 2125).

ghost use Rattle.std.specs.Prelude.{◌≡◌, ◌<◌, ◌↔◌, false, refl, IsTrue};
ghost use Rattle.ppp_packet.specs.Options.{option_with};
ghost use Rattle.ppp_packet.specs.Proto.{proto_number};
ghost use Rattle.ppp_packet.specs.declared.proto.Proto.TheVariants.{Bacp};
ghost use Rattle.ppp_auto.specs.Taken.{four_octets};
ghost use Rattle.ppp_options.specs.DiffersLaw.{differs-both_ways};
ghost use Rattle.ppp_options.specs.Number.{number_of, pick};
ghost use Rattle.ppp_options.specs.declared.number.TheConstants.{OCTETS_U32};
ghost use Rattle.ppp_options.specs.RuleLaw.{rules_lawful};
ghost use Rattle.ppp_options.specs.Rules.{table_by, Sendable, IsUnknown, Allows};
ghost use Rattle.ppp_bacp.specs.BacpLaw.{bacp_is_table, bacp_fits};
ghost use Rattle.ppp_bacp.specs.BacpTable.{FitsFavored, favours, is_favored, bacp_rules};
ghost use Rattle.ppp_bacp.specs.declared.bacp_table.TheConstants.{FAVORED_PEER};

use ppp_auto::{OptionTable, Verdict};
use ppp_options::{
    OptionRules, first_list, has_option, is_new_u32, list_after_nak, number_of_u32, number_taken,
    octets_u32, pick,
};
use ppp_packet::{Opt, OptList, OptRef, Options};

/// The Type of a Favored-Peer number (RFC 2125).
pub const FAVORED_PEER: u8 = 1;

/// What an end asks for of BACP.
#[derive(Clone, Copy, Debug, PartialEq, Eq)]
pub struct BacpTable {
    /// The own Favored-Peer number, which isn't 0.
    pub favored: u32,
    pub ghost is_favored: { IsTrue (is_favored favored) },
}

impl OptionRules for BacpTable {
    ghost rules = { λ t. bacp_rules t.favored };

    fn kinds(&self) -> &[u8] {
        &[FAVORED_PEER]
    }

    fn first(&self, kind: u8, _word: u64) -> Option<Opt> {
        if kind == FAVORED_PEER {
            Some(Opt::new(FAVORED_PEER, &octets_u32(self.favored)))
        } else {
            None
        }
    }

    fn is_sent(&self, option: OptRef<'_>) -> bool {
        option.kind == FAVORED_PEER && is_new_u32(0, option.body)
    }

    fn after_nak(&self, option: OptRef<'_>, nak: &[u8], word: u64) -> Opt {
        number_taken(option.kind, option.body, nak, word)
    }

    ghost is_table = { λ t. bacp_is_table t.favored t.is_favored };
}

impl OptionTable for BacpTable {
    const PROTOCOL: u16 = 0xc02b;

    ghost PROTOCOL = { proto_number Bacp };

    const EXTENDED: bool = false;

    ghost EXTENDED = { false };

    ghost table = { λ t. table_by false (bacp_rules t.favored) (λ mine. 0) };

    ghost sendable = { λ t. Sendable (bacp_rules t.favored) };

    ghost unknown = { λ t. IsUnknown (bacp_rules t.favored) };

    ghost allows = { λ t. Allows (bacp_rules t.favored) };

    ghost compat = { FitsFavored };

    fn initial(&self, word: u64) -> OptList {
        first_list(self, word)
    }

    fn judge(&self, own: &OptList, option: OptRef<'_>, word: u64) -> Verdict {
        if option.kind != FAVORED_PEER {
            Verdict::Unknown
        } else if is_new_u32(number_of_u32(own, FAVORED_PEER), option.body) {
            Verdict::Good
        } else {
            Verdict::Bad(drawn(own, word))
        }
    }

    fn missing(&self, own: &OptList, theirs: &Options<'_>, word: u64) -> Option<Opt> {
        if has_option(theirs, FAVORED_PEER) {
            None
        } else {
            Some(drawn(own, word))
        }
    }

    fn adapt_nak(&self, last: &OptList, nak: &Options<'_>, word: u64) -> OptList {
        list_after_nak(self, last, nak, word)
    }

    fn adapt_reject(&self, last: &OptList, _reject: &Options<'_>, _word: u64) -> OptList {
        last.copied()
    }

    fn magic(&self, _mine: &OptList) -> u32 {
        0
    }

    ghost lawful = { λ t. rules_lawful false (bacp_rules t.favored) (λ mine. 0) FitsFavored
        (bacp_is_table t.favored t.is_favored) (bacp_fits t.favored) (differs-both_ways FAVORED_PEER OCTETS_U32) };

    ghost extends = { λ t. refl };
}

/// Whether the end with the first number is favoured over the one with the other: the lower number is. Of two ends with
/// numbers that differ exactly one is.
pub fn favoured(mine: u32, peer: u32) -> bool
    ensures lower { IsTrue result ↔ (mine < peer) }
    ensures word { result ≡ favours mine peer }
{
    mine < peer
}

/// A Favored-Peer number drawn from a word, which isn't the own one.
fn drawn(own: &OptList, word: u64) -> Opt
    ensures { result ≡ option_with FAVORED_PEER
        (four_octets (pick word (number_of FAVORED_PEER OCTETS_U32 own.now))) }
{
    Opt::new(
        FAVORED_PEER,
        &octets_u32(pick(word, number_of_u32(own, FAVORED_PEER))),
    )
}
