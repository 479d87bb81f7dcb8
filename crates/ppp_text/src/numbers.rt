//! Decimal numbers.

ghost use Rattle.std.specs.Prelude.{◌≡◌, ◌≤◌, IsTrue, IfSome};
ghost use Rattle.std.specs.List.{list_all};
ghost use Rattle.std.specs.Char.{is_ascii_digit};
ghost use Rattle.std.specs.Str.Parse.{digits_value};
ghost use Rattle.ppp_text.specs.Numbers.{number_in, up_to, is_number, has_leading_zero};

/// The number that a field is: decimal digits, without a sign or a leading zero. None exactly where it is no number, or
/// one that isn't within these bounds.
#[tactic(auto, unfolding(crate::specs::Numbers::number_in, crate::specs::Numbers::number_of))]
pub fn number(field: &[u8], least: u16, most: u16) -> Option<u16>
    ensures value { result ≡ number_in least most field.now }
    ensures within { IfSome result (λ n. (least ≤ n) × (n ≤ most)) }
{
    if !is_number(field) {
        return None;
    }
    match value_up_to(field, most) {
        Some(value) if least <= value => Some(value),
        _ => None,
    }
}

/// Whether a field is a number.
fn is_number(field: &[u8]) -> bool
    ensures { result ≡ is_number field.now }
{
    !field.is_empty() && all_digits(field) && !has_leading_zero(field)
}

/// Whether all octets of a field are digits.
fn all_digits(field: &[u8]) -> bool
    ensures { result ≡ list_all is_ascii_digit field.now }
{
    field.iter().all(|x| x.is_ascii_digit())
}

/// Whether a field has a `0` before another octet.
fn has_leading_zero(field: &[u8]) -> bool
    ensures { result ≡ has_leading_zero field.now }
{
    field.len() > 1 && field[0] == b'0'
}

/// The number that has these digits, where it isn't above `most`.
fn value_up_to(digits: &[u8], most: u16) -> Option<u16>
    requires { IsTrue (list_all is_ascii_digit digits.now) }
    ensures value { result ≡ up_to most (digits_value 10 digits.now) }
    ensures within { IfSome result (λ n. n ≤ most) }
{
    let mut value: u32 = 0;
    for digit in digits {
        value = value * 10 + u32::from(*digit - b'0');
        if value > u32::from(most) {
            return None;
        }
    }
    Some(value as u16)
}
