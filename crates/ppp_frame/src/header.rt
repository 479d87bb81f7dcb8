//! Address, control and protocol before the information (RFC 1662 section 3.1).

ghost use Rattle.std.specs.Prelude.{◌≡◌, ◌≤◌, take, drop, length};
ghost use Rattle.ppp_frame.specs.Header.{header_of, is_none_left, is_short as short_header, leaves_out as leaves_address, read_of, behind_protocol, ReadsAs};

use crate::form::Form;

/// The address of every frame, that of all stations (RFC 1662 section 3.1).
pub const ALL_STATIONS: u8 = 0xff;

/// The control of every frame, that of unnumbered information (RFC 1662 section 3.1).
pub const UNNUMBERED: u8 = 0x03;

/// The protocol whose frames always have address and control (RFC 1661 section 6.6).
pub const LCP: u16 = 0xc021;

/// The octets before the information, of which the first as many count as the number says.
pub(crate) fn make_header(form: Form, protocol: u16, info: &[u8]) -> ([u8; 4], usize)
    ensures size { result.1 ≤ 4 }
    ensures octets { take result.1 result.0 ≡ header_of form protocol info.now }
{
    let high = (protocol / 256) as u8;
    let low = (protocol % 256) as u8;
    match (leaves_out(form, protocol), is_short(form, protocol, info)) {
        (true, true) => ([low, 0, 0, 0], 1),
        (true, false) => ([high, low, 0, 0], 2),
        (false, true) => ([ALL_STATIONS, UNNUMBERED, low, 0], 3),
        (false, false) => ([ALL_STATIONS, UNNUMBERED, high, low], 4),
    }
}

#[tactic(auto, unfolding(crate::specs::Header::leaves_out))]
fn leaves_out(form: Form, protocol: u16) -> bool
    ensures { result ≡ leaves_address form protocol }
{
    form.ac & (protocol != LCP) & (protocol / 256 != ALL_STATIONS as u16)
}

#[tactic(auto, unfolding(crate::specs::Header::is_short))]
fn is_short(form: Form, protocol: u16, info: &[u8]) -> bool
    ensures { result ≡ short_header form protocol info.now }
{
    let has_start = !leaves_out(form, protocol) | !is_empty(info);
    form.pf & (protocol < 256) & (protocol % 2 == 1) & (protocol != ALL_STATIONS as u16) & has_start
}

fn is_empty(info: &[u8]) -> bool
    ensures { result ≡ is_none_left info.now }
{
    match info {
        [] => true,
        _ => false,
    }
}

/// A header that was read: the protocol, and how many octets it has.
#[derive(Clone, Copy)]
pub(crate) struct Header {
    pub(crate) protocol: u16,
    pub(crate) size: usize,
}

/// Reads the header of a frame, where address and control (`ac`) and the protocol (`pf`) may be short.
pub(crate) fn read_header(ac: bool, pf: bool, octets: &[u8]) -> Option<Header>
    requires { 2 ≤ length octets.now }
    ensures { ReadsAs octets.now result (read_of ac pf octets.now) }
{
    let is_whole = (octets[0] == ALL_STATIONS) & (octets[1] == UNNUMBERED);
    if is_whole {
        read_protocol(pf, octets, 2)
    } else if ac {
        read_protocol(pf, octets, 0)
    } else {
        None
    }
}

/// Reads the protocol that begins at this place.
fn read_protocol(pf: bool, octets: &[u8], at: usize) -> Option<Header>
    requires { at ≤ length octets.now }
    ensures { ReadsAs octets.now result (behind_protocol pf (drop at octets.now)) }
{
    if at == octets.len() {
        return None;
    }
    let is_short = pf & (octets[at] % 2 == 1);
    if is_short {
        return Some(Header {
            protocol: octets[at] as u16,
            size: at + 1,
        });
    }
    if at + 1 == octets.len() {
        return None;
    }
    Some(Header {
        protocol: octets[at] as u16 * 256 + octets[at + 1] as u16,
        size: at + 2,
    })
}
