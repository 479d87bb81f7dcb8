//! Telephone numbers, which name links here.

ghost use Rattle.std.specs.Prelude.{◌≡◌, ◌≤◌, length};
ghost use Rattle.ppp_packet.specs.Options.{written};
ghost use Rattle.ppp_bap.specs.PhoneDelta.{is_text_of, link_named, link_of_text, link_text, phone_delta, sub_kind};
ghost use Rattle.ppp_bap.specs.declared.phone_delta.TheConstants.{MOST_DELTA};

use crate::bap_option::put_option;
use crate::link_set::LINK_NUMBERS;
use arrayvec::ArrayVec;
use ppp_options::first_of;
use ppp_packet::{OptList, read_options};

/// The Type of a sub-option (RFC 2125, Phone-Delta).
#[derive(Clone, Copy, Debug, PartialEq, Eq)]
enum SubOption {
    /// Type 1, Unique-Digits: how many digits of a number differ from another's.
    UniqueDigits,
    /// Type 2, Subscriber-Number: the digits themselves.
    SubscriberNumber,
}

impl SubOption {
    /// The Type's number.
    const fn number(self) -> u8
        ensures { result ≡ sub_kind self }
    {
        match self {
            SubOption::UniqueDigits => 1,
            SubOption::SubscriberNumber => 2,
        }
    }
}

/// The most octets of such sub-options.
const MOST_DELTA: usize = 7;

/// The sub-options of a Phone-Delta that names a link: how many digits its number has, and these.
pub(crate) fn phone_delta(link: u8) -> OptList
    ensures value { result ≡ phone_delta link }
    ensures short { length (written result) ≤ MOST_DELTA }
{
    let digits = link_text(link);
    let mut parts = OptList::new();
    put_option(
        &mut parts,
        SubOption::UniqueDigits.number(),
        &[digits.len() as u8],
    );
    put_option(
        &mut parts,
        SubOption::SubscriberNumber.number(),
        digits.as_slice(),
    );
    parts
}

/// The link that a Phone-Delta names: the digits of its first number are the link's in decimal, without a leading zero.
pub(crate) fn link_named(body: &[u8]) -> Option<u8>
    ensures { result ≡ link_named body.now }
{
    let parts = read_options(body)?;
    let digits = first_of(&parts, SubOption::SubscriberNumber.number())?;
    link_of_text(digits)
}

/// The link whose number has these digits.
fn link_of_text(digits: &[u8]) -> Option<u8>
    ensures { result ≡ link_of_text digits.now }
{
    for &link in &LINK_NUMBERS {
        if is_text_of(digits, link) {
            return Some(link);
        }
    }
    None
}

/// Whether a link's number has these digits.
fn is_text_of(digits: &[u8], link: u8) -> bool
    ensures { result ≡ is_text_of digits.now link }
{
    link_text(link).as_slice() == digits
}

/// A link's number in decimal.
fn link_text(link: u8) -> ArrayVec<u8, 2>
    ensures value { result.items ≡ link_text link }
    ensures short { length result.items ≤ 2 }
{
    let mut digits = ArrayVec::new();
    if 10 <= link {
        digits.push(b'0' + link / 10);
    }
    digits.push(b'0' + link % 10);
    digits
}
