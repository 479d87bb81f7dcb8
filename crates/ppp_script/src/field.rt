//! The fields of an event line, read one after the other.

ghost use Rattle.std.specs.Prelude.{◌≡◌, ◌≤◌, IfOk};
ghost use Rattle.ppp_script.specs.Field.{next_field, no_more, number_field, end_in, link_in, next_link, protocol_in, last_protocol, last_field, IsLink};
ghost use Rattle.ppp_script.specs.Results.{Gives};

use crate::end::End;
use crate::line_why::LineWhy;
use ppp_packet::Proto;
use ppp_text::{Fields, number};

/// The most links that can be configured.
pub const MOST_LINKS: u16 = 255;

/// The first field, and those behind it.
pub(crate) fn next_field<'a>(fields: &Fields<'a>) -> Result<(&'a [u8], Fields<'a>), LineWhy>
    ensures { Gives (λ x. (x.0.now, x.1)) result (next_field fields.now) }
{
    fields.next().ok_or(LineWhy::Event)
}

/// That no field is left.
pub(crate) fn no_more(fields: &Fields<'_>) -> Result<(), LineWhy>
    ensures { result ≡ no_more fields.now }
{
    if fields.is_done() {
        Ok(())
    } else {
        Err(LineWhy::Event)
    }
}

/// The number that a field is, within these bounds.
pub(crate) fn number_field(field: &[u8], least: u16, most: u16) -> Result<u16, LineWhy>
    ensures value { result ≡ number_field least most field.now }
    ensures within { IfOk result (λ n. (least ≤ n) × (n ≤ most)) }
{
    number(field, least, most).ok_or(LineWhy::Event)
}

/// An end, `a` or `b`.
pub(crate) fn end(field: &[u8]) -> Result<End, LineWhy>
    ensures { result ≡ end_in field.now }
{
    if field == b"a".as_slice() {
        Ok(End::A)
    } else if field == b"b".as_slice() {
        Ok(End::B)
    } else {
        Err(LineWhy::Event)
    }
}

/// A link, of which so many are configured.
#[tactic(auto, unfolding(crate::specs::Field::link_in))]
pub(crate) fn link(field: &[u8], links: u8) -> Result<u8, LineWhy>
    ensures value { result ≡ link_in links field.now }
    ensures within { IfOk result (IsLink links) }
{
    let link = number_field(field, 1, MOST_LINKS)?;
    if link <= u16::from(links) {
        Ok(link as u8)
    } else {
        Err(LineWhy::Link)
    }
}

/// The link that the first field is, of which so many are configured, and the fields behind it.
#[tactic(auto, unfolding(crate::specs::Field::next_link))]
pub(crate) fn next_link<'a>(fields: &Fields<'a>, links: u8) -> Result<(u8, Fields<'a>), LineWhy>
    ensures value { result ≡ next_link links fields.now }
    ensures within { IfOk result (λ x. IsLink links x.0) }
{
    let (first, fields) = next_field(fields)?;
    let link = link(first, links)?;
    Ok((link, fields))
}

/// A control protocol, by its name.
pub(crate) fn protocol(field: &[u8]) -> Result<Proto, LineWhy>
    ensures { result ≡ protocol_in field.now }
{
    if field == b"lcp".as_slice() {
        Ok(Proto::Lcp)
    } else if field == b"ip".as_slice() {
        Ok(Proto::Ip)
    } else if field == b"ipv6".as_slice() {
        Ok(Proto::Ipv6)
    } else if field == b"osi".as_slice() {
        Ok(Proto::Osi)
    } else if field == b"mpls".as_slice() {
        Ok(Proto::Mpls)
    } else if field == b"bacp".as_slice() {
        Ok(Proto::Bacp)
    } else {
        Err(LineWhy::Event)
    }
}

/// Reads `P`, and no more.
#[tactic(auto, unfolding(crate::specs::Field::last_protocol))]
pub(crate) fn last_protocol(fields: &Fields<'_>) -> Result<Proto, LineWhy>
    ensures { result ≡ last_protocol fields.now }
{
    let (first, fields) = next_field(fields)?;
    let protocol = protocol(first)?;
    no_more(&fields)?;
    Ok(protocol)
}

/// The one field that is left.
pub(crate) fn last_field<'a>(fields: &Fields<'a>) -> Result<&'a [u8], LineWhy>
    ensures { Gives (λ x. x.now) result (last_field fields.now) }
{
    let (first, fields) = next_field(fields)?;
    no_more(&fields)?;
    Ok(first)
}
