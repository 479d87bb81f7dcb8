//! The tables of options of a link.

ghost use Rattle.std.specs.Prelude.{◌≡◌, ◌≤◌, is_some, option_map};
ghost use Rattle.ppp_conf.specs.EndConfig.{end_seen};
ghost use Rattle.ppp_lcp.specs.LcpSettings.{settings_seen};
ghost use Rattle.ppp_link.specs.LinkSettings.{bacp_of, ip_of, ipv6_of, lcp_of_end, link_number, osi_of, speaks};
ghost use Rattle.ppp_link.specs.LinkTables.{bacp_seen, ip_seen, ipv6_seen, osi_seen};

use ppp_bacp::BacpTable;
use ppp_conf::EndConfig;
use ppp_lcp::LcpTable;
use ppp_ncp::{IpcpTable, Ipv6Table};
use ppp_osimpls::{MplsTable, OsiTable};

/// What an end of these settings asks for of LCP on a link, 1 to 16.
pub(crate) fn lcp_table(config: &EndConfig, link: u8) -> LcpTable
    requires least { 1 ≤ link }
    requires most { link ≤ 16 }
    ensures { settings_seen result ≡ lcp_of_end link (end_seen config.now) }
{
    LcpTable {
        mru: config.mru,
        accm: config.accm,
        magic: config.magic,
        mrru: config.mrru,
        short: config.short,
        classes: config.classes,
        disc: config.disc,
        link_disc: link_number(config, link),
        pfc: config.pfc,
        acfc: config.acfc,
    }
}

/// The own number of a link, if the links have numbers.
fn link_number(config: &EndConfig, link: u8) -> Option<u16>
    requires least { 1 ≤ link }
    requires most { link ≤ 16 }
    ensures { result ≡ link_number link config.now.link_disc }
{
    match config.link_disc {
        Some(first) => Some(first + u16::from(link - 1)),
        None => None,
    }
}

/// What it asks for of IPCP, where that is spoken.
pub(crate) fn ip_table(config: &EndConfig) -> Option<IpcpTable>
    ensures { option_map ip_seen result ≡ ip_of (end_seen config.now) }
{
    if !config.protocols[0] {
        return None;
    }
    Some(IpcpTable {
        own: config.ip,
        give: config.give,
    })
}

/// What it asks for of IPV6CP, where that is spoken: without an identifier nothing.
pub(crate) fn ipv6_table(config: &EndConfig) -> Option<Ipv6Table>
    ensures { option_map ipv6_seen result ≡ ipv6_of (end_seen config.now) }
{
    if !config.protocols[1] {
        return None;
    }
    Some(Ipv6Table {
        own: config.ifid.unwrap_or(0),
        ask: config.ifid.is_some(),
    })
}

/// What it asks for of OSINLCP, where that is spoken.
pub(crate) fn osi_table(config: &EndConfig) -> Option<OsiTable>
    ensures { option_map osi_seen result ≡ osi_of (end_seen config.now) }
{
    if !config.protocols[2] {
        return None;
    }
    Some(OsiTable {
        align: config.align,
    })
}

/// What it asks for of MPLSCP, where that is spoken.
pub(crate) fn mpls_table(config: &EndConfig) -> Option<MplsTable>
    ensures { is_some result ≡ speaks (end_seen config.now) 3 }
{
    if !config.protocols[3] {
        return None;
    }
    Some(MplsTable)
}

/// What it asks for of BACP, where that is spoken.
pub(crate) fn bacp_table(config: &EndConfig) -> Option<BacpTable>
    ensures { option_map bacp_seen result ≡ bacp_of (end_seen config.now) }
{
    if !config.bap {
        return None;
    }
    match config.favored {
        Some(favored) => Some(BacpTable { favored }),
        None => None,
    }
}
