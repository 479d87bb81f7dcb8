//! Octets in lower-case hexadecimal digits.

ghost use Rattle.std.specs.Prelude.{◌≡◌, length};
ghost use Rattle.std.specs.List.{list_all};
ghost use Rattle.ppp_conf.specs.HexText.{hex_octets, ifid_of, is_lower_digit, IsRead};

/// Reads octets in lower-case hexadecimal digits, two for each octet of `octets`, and answers whether they are there.
pub(crate) fn read_octets(text: &[u8], octets: &mut [u8]) -> bool
    ensures { IsRead result octets.new (hex_octets (length octets.old) text.now) }
{
    has_lower_digits(text) && hex::decode_to_slice(text, octets).is_ok()
}

/// Whether a text has hexadecimal digits in lower case alone.
fn has_lower_digits(text: &[u8]) -> bool
    ensures { result ≡ list_all is_lower_digit text.now }
{
    text.iter().all(|x| is_lower_digit(*x))
}

/// Whether an octet is a hexadecimal digit in lower case.
fn is_lower_digit(x: u8) -> bool
    ensures { result ≡ is_lower_digit x }
{
    matches!(x, b'0'..=b'9' | b'a'..=b'f')
}

/// An interface identifier: `none`, or sixteen digits.
#[tactic(auto, unfolding(crate::specs::HexText::ifid_of))]
pub(crate) fn read_ifid(text: &[u8]) -> Option<Option<u64>>
    ensures { result ≡ ifid_of text.now }
{
    if text == b"none".as_slice() {
        return Some(None);
    }
    let mut octets = [0; 8];
    if read_octets(text, &mut octets) {
        Some(Some(u64::from_be_bytes(octets)))
    } else {
        None
    }
}
