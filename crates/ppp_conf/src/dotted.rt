//! Dotted addresses.

ghost use Rattle.std.specs.Prelude.{◌≡◌, ◌≤◌, IfSome};
ghost use Rattle.ppp_conf.specs.Dotted.{dotted_of, given_of};

use std::net::Ipv4Addr;

/// A dotted address as a number.
pub(crate) fn read_dotted(text: &[u8]) -> Option<u32>
    ensures { result ≡ dotted_of text.now }
{
    match Ipv4Addr::parse_ascii(text) {
        Ok(address) => Some(address.to_bits()),
        Err(_) => None,
    }
}

/// A dotted address that isn't `0.0.0.0`.
#[tactic(auto, unfolding(crate::specs::Dotted::given_of))]
pub(crate) fn read_given(text: &[u8]) -> Option<u32>
    ensures value { result ≡ given_of text.now }
    ensures low { IfSome result (λ n. 1 ≤ n) }
{
    match read_dotted(text) {
        Some(0) | None => None,
        Some(address) => Some(address),
    }
}
