//! IPCP's options (RFC 1332 section 3.3).

ghost use Rattle.std.specs.Prelude.{◌≡◌, ℕ, false, refl, List, IsTrue};
ghost use Rattle.ppp_packet.specs.ConfigOption.{ConfigOption};
ghost use Rattle.ppp_packet.specs.Proto.{proto_number};
ghost use Rattle.ppp_packet.specs.declared.proto.Proto.TheVariants.{Ip};
ghost use Rattle.ppp_options.specs.Fits.{FitsAny};
ghost use Rattle.ppp_options.specs.RuleLaw.{rules_lawful};
ghost use Rattle.ppp_options.specs.Rules.{verdict, table_by, Sendable, IsUnknown, Allows};
ghost use Rattle.ppp_ncp.specs.IpcpLaw.{ipcp_is_table};
ghost use Rattle.ppp_ncp.specs.IpcpTable as spec;

use ppp_auto::{OptionTable, Verdict};
use ppp_options::{
    OCTETS_U32, OptionRules, first_list, list_after_nak, list_after_reject, number_u32, octets_u32,
};
use ppp_packet::{Opt, OptList, OptRef, Options};

/// The Type of an IP-Address (RFC 1332 section 3.3).
pub const ADDRESS: u8 = 3;

/// What an end asks for of IPCP, and what it gives.
#[derive(Clone, Copy, Debug, PartialEq, Eq)]
pub struct IpcpTable {
    /// The own address, or 0, which asks the peer for one.
    pub own: u32,
    /// The address that a peer gets which asks for one, if there is one: it isn't 0.
    pub give: Option<u32>,
    pub ghost is_give: { IsTrue (spec.is_give give) },
}

impl OptionRules for IpcpTable {
    ghost rules = { λ t. spec.ipcp_rules t.own t.give };

    fn kinds(&self) -> &[u8] {
        &[ADDRESS]
    }

    fn first(&self, kind: u8, _word: u64) -> Option<Opt> {
        if kind == ADDRESS {
            Some(Opt::new(ADDRESS, &octets_u32(self.own)))
        } else {
            None
        }
    }

    fn is_sent(&self, option: OptRef<'_>) -> bool {
        option.kind == ADDRESS && option.body.len() == OCTETS_U32
    }

    fn after_nak(&self, option: OptRef<'_>, nak: &[u8], _word: u64) -> Opt {
        if self.own == 0 && is_address(nak) {
            Opt::new(option.kind, nak)
        } else {
            Opt::new(option.kind, option.body)
        }
    }

    ghost is_table = { λ t. ipcp_is_table t.own t.give };
}

impl OptionTable for IpcpTable {
    const PROTOCOL: u16 = 0x8021;

    ghost PROTOCOL = { proto_number Ip };

    const EXTENDED: bool = false;

    ghost EXTENDED = { false };

    ghost table = { λ t. table_by false (spec.ipcp_rules t.own t.give) (λ mine. 0) };

    ghost sendable = { λ t. Sendable (spec.ipcp_rules t.own t.give) };

    ghost unknown = { λ t. IsUnknown (spec.ipcp_rules t.own t.give) };

    ghost allows = { λ t. Allows (spec.ipcp_rules t.own t.give) };

    ghost compat = { FitsAny };

    fn initial(&self, word: u64) -> OptList {
        first_list(self, word)
    }

    fn judge(&self, _own: &OptList, option: OptRef<'_>, _word: u64) -> Verdict {
        if option.kind == ADDRESS {
            self.verdict(option.body)
        } else {
            Verdict::Unknown
        }
    }

    fn missing(&self, _own: &OptList, _theirs: &Options<'_>, _word: u64) -> Option<Opt> {
        None
    }

    fn adapt_nak(&self, last: &OptList, nak: &Options<'_>, word: u64) -> OptList {
        list_after_nak(self, last, nak, word)
    }

    fn adapt_reject(&self, last: &OptList, reject: &Options<'_>, _word: u64) -> OptList {
        list_after_reject(last, reject)
    }

    fn magic(&self, _mine: &OptList) -> u32 {
        0
    }

    ghost lawful = { λ t. rules_lawful false (spec.ipcp_rules t.own t.give) (λ mine. 0) FitsAny
        (ipcp_is_table t.own t.give) (λ own theirs sends allowed. tt) (λ one other fits. tt) };

    ghost extends = { λ t. refl };
}

impl IpcpTable {
    /// What is thought of a peer's address.
    fn verdict(&self, body: &[u8]) -> Verdict
        ensures { (own : List ConfigOption) (word : ℕ) → result
            ≡ verdict (spec.address_rule self.now.own self.now.give) own body.now word }
    {
        if is_address(body) {
            Verdict::Good
        } else if body.len() == OCTETS_U32 && self.give.is_none() {
            Verdict::Unknown
        } else {
            Verdict::Bad(Opt::new(ADDRESS, &octets_u32(self.give.unwrap_or(0))))
        }
    }
}

/// Whether a body is an address that isn't 0.0.0.0.
fn is_address(body: &[u8]) -> bool
    ensures { result ≡ spec.is_address body.now }
{
    body.len() == OCTETS_U32 && number_u32(body) != 0
}
