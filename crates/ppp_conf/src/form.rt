//! What a value of the settings reads as, by the form that its key has.

ghost use Rattle.std.specs.Prelude.{◌≡◌, ◌<◌, ◌≤◌, ℕ, slice_index, true, IfOk};
ghost use Rattle.toml.specs.View.{view, table_view};
ghost use Rattle.ppp_packet.specs.DiscClass.{is_good_disc};
ghost use Rattle.ppp_conf.specs.DiscText.{disc_of, disc_seen};
ghost use Rattle.ppp_conf.specs.Dotted.{dotted_of, given_of};
ghost use Rattle.ppp_conf.specs.Form.{whole, is_zero_or, zero_or, is_alignment, alignment, truth, text_of, names, table};
ghost use Rattle.ppp_conf.specs.HexText.{ifid_of};
ghost use Rattle.ppp_conf.specs.SocketText.{is_socket, socket_of};
ghost use Rattle.ppp_conf.specs.Results.{Gives};

use crate::conf_why::ConfWhy;
use crate::disc_text::read_disc;
use crate::dotted::{read_dotted, read_given};
use crate::hex_text::read_ifid;
use crate::protocols::read_names;
use crate::socket_text::is_socket;
use ppp_packet::Disc;
use toml::{Table, Value};

/// A whole number within these bounds.
pub(crate) fn large(value: &Value, least: u32, most: u32) -> Result<u32, ConfWhy>
    ensures value { result ≡ whole least most (view value.now) }
    ensures low { IfOk result (λ n. least ≤ n) }
    ensures high { IfOk result (λ n. n ≤ most) }
{
    match value.as_integer() {
        Some(n) => match u32::try_from(n) {
            Ok(n) if least <= n && n <= most => Ok(n),
            _ => Err(ConfWhy::Range),
        },
        None => Err(ConfWhy::Wrong),
    }
}

/// The same in 16 bits.
pub(crate) fn small(value: &Value, least: u16, most: u16) -> Result<u16, ConfWhy>
    ensures value { result ≡ whole least most (view value.now) }
    ensures low { IfOk result (λ n. least ≤ n) }
    ensures high { IfOk result (λ n. n ≤ most) }
{
    match large(value, u32::from(least), u32::from(most)) {
        Ok(n) => Ok(n as u16),
        Err(why) => Err(why),
    }
}

/// The same in 8 bits.
pub(crate) fn octet(value: &Value, least: u8, most: u8) -> Result<u8, ConfWhy>
    ensures value { result ≡ whole least most (view value.now) }
    ensures low { IfOk result (λ n. least ≤ n) }
    ensures high { IfOk result (λ n. n ≤ most) }
{
    match large(value, u32::from(least), u32::from(most)) {
        Ok(n) => Ok(n as u8),
        Err(why) => Err(why),
    }
}

/// 0, or a whole number within these bounds.
pub(crate) fn zero_or(value: &Value, least: u16, most: u16) -> Result<u16, ConfWhy>
    ensures value { result ≡ zero_or least most (view value.now) }
    ensures within { IfOk result (λ n. is_zero_or least most n ≡ true) }
{
    match value.as_integer() {
        Some(n) => match u16::try_from(n) {
            Ok(n) if n == 0 || least <= n && n <= most => Ok(n),
            _ => Err(ConfWhy::Range),
        },
        None => Err(ConfWhy::Wrong),
    }
}

/// 0 to 4, 254 or 255.
pub(crate) fn alignment(value: &Value) -> Result<u8, ConfWhy>
    ensures value { result ≡ alignment (view value.now) }
    ensures form { IfOk result (λ n. is_alignment n ≡ true) }
{
    match value.as_integer() {
        Some(n) => match u8::try_from(n) {
            Ok(n) if n <= 4 || n == 254 || n == 255 => Ok(n),
            _ => Err(ConfWhy::Range),
        },
        None => Err(ConfWhy::Wrong),
    }
}

/// A truth value.
pub(crate) fn truth(value: &Value) -> Result<bool, ConfWhy>
    ensures { result ≡ truth (view value.now) }
{
    value.as_bool().ok_or(ConfWhy::Wrong)
}

/// A dotted address.
pub(crate) fn dotted(value: &Value) -> Result<u32, ConfWhy>
    ensures { result ≡ text_of dotted_of (view value.now) }
{
    match value.as_str() {
        Some(text) => read_dotted(text.as_bytes()).ok_or(ConfWhy::Form),
        None => Err(ConfWhy::Wrong),
    }
}

/// A dotted address that isn't `0.0.0.0`.
pub(crate) fn given(value: &Value) -> Result<u32, ConfWhy>
    ensures value { result ≡ text_of given_of (view value.now) }
    ensures low { IfOk result (λ n. 1 ≤ n) }
{
    match value.as_str() {
        Some(text) => read_given(text.as_bytes()).ok_or(ConfWhy::Form),
        None => Err(ConfWhy::Wrong),
    }
}

/// An interface identifier.
pub(crate) fn ifid(value: &Value) -> Result<Option<u64>, ConfWhy>
    ensures { result ≡ text_of ifid_of (view value.now) }
{
    match value.as_str() {
        Some(text) => read_ifid(text.as_bytes()).ok_or(ConfWhy::Form),
        None => Err(ConfWhy::Wrong),
    }
}

/// An endpoint discriminator.
pub(crate) fn disc(value: &Value) -> Result<Disc, ConfWhy>
    ensures value { Gives disc_seen result (text_of disc_of (view value.now)) }
    ensures good { IfOk result (λ disc. is_good_disc disc.class disc.size ≡ true) }
    ensures octets { IfOk result (λ disc. (i : ℕ) → slice_index disc.address i < 256) }
{
    match value.as_str() {
        Some(text) => read_disc(text.as_bytes()).ok_or(ConfWhy::Form),
        None => Err(ConfWhy::Wrong),
    }
}

/// The text that names a socket.
pub(crate) fn socket(value: &Value) -> Result<&str, ConfWhy>
    ensures value { Gives (λ text. text.now) result (text_of socket_of (view value.now)) }
    ensures form { IfOk result (λ text. is_socket text.now ≡ true) }
{
    match value.as_str() {
        Some(text) if is_socket(text.as_bytes()) => Ok(text),
        Some(_) => Err(ConfWhy::Form),
        None => Err(ConfWhy::Wrong),
    }
}

/// The protocols that an array names.
pub(crate) fn names(value: &Value) -> Result<[bool; 4], ConfWhy>
    ensures { result ≡ names (view value.now) }
{
    match value.as_array() {
        Some(values) => read_names(values).ok_or(ConfWhy::Form),
        None => Err(ConfWhy::Wrong),
    }
}

/// A table.
pub(crate) fn table(value: &Value) -> Result<&Table, ConfWhy>
    ensures { Gives (λ members. table_view members.now) result (table (view value.now)) }
{
    value.as_table().ok_or(ConfWhy::Wrong)
}
