//! The printed table of one end.

ghost use Rattle.std.specs.Prelude.{◌≡◌, ◌<◌, ◌≤◌, true, IfOk, OnOk, string_bytes};
ghost use Rattle.toml.specs.Data.{array};
ghost use Rattle.toml.specs.View.{view, items_view, table_view};
ghost use Rattle.ppp_conf.specs.DiscText.{disc_seen};
ghost use Rattle.ppp_conf.specs.EndConfig.{end_seen};
ghost use Rattle.ppp_conf.specs.EndTable.{conduct_fields, disc_text, dotted_text, dotted_there, end_table, ifid_text, lcp_fields, name_if, network_fields, protocol_items};
ghost use Rattle.ppp_conf.specs.Fields.{put_all, put_value};

use crate::end_config::EndConfig;
use crate::fields::{put, put_number, put_text, put_there, put_truth};
use ppp_memory::Memory;
use ppp_packet::Disc;
use std::alloc::Global;
use std::net::Ipv4Addr;
use toml::{Table, Value};

/// The table of an end, with every key that is there.
pub(crate) fn end_table(alloc: Global, end: &EndConfig) -> Result<Table, Memory>
    ensures { IfOk result (λ table. table_view table ≡ end_table (end_seen end.now)) }
{
    let mut table = Table::new(alloc);
    put_lcp(alloc, &mut table, end)?;
    put_network(alloc, &mut table, end)?;
    put_conduct(alloc, &mut table, end)?;
    Ok(table)
}

/// Puts what LCP asks for.
fn put_lcp(alloc: Global, table: &mut Table, end: &EndConfig) -> Result<(), Memory>
    ensures { OnOk result
        (table_view table.new ≡ put_all (lcp_fields (end_seen end.now)) (table_view table.old)) }
{
    put_number(alloc, table, "mru", u32::from(end.mru))?;
    put_number(alloc, table, "accm", end.accm)?;
    put_truth(alloc, table, "magic", end.magic)?;
    put_truth(alloc, table, "pfc", end.pfc)?;
    put_truth(alloc, table, "acfc", end.acfc)?;
    put_number(alloc, table, "mrru", u32::from(end.mrru))?;
    put_truth(alloc, table, "short", end.short)?;
    put_number(alloc, table, "classes", u32::from(end.classes))?;
    put_text(alloc, table, "disc", disc_text(alloc, &end.disc)?.as_str())
}

/// Puts what the bundle and the network protocols ask for.
fn put_network(alloc: Global, table: &mut Table, end: &EndConfig) -> Result<(), Memory>
    ensures { OnOk result
        (table_view table.new ≡ put_all (network_fields (end_seen end.now)) (table_view table.old)) }
{
    put_there(alloc, table, "link_disc", end.link_disc.map(u32::from))?;
    put_there(alloc, table, "favored", end.favored)?;
    put_truth(alloc, table, "bap", end.bap)?;
    put(
        alloc,
        table,
        "protocols",
        protocol_names(alloc, end.protocols)?,
    )?;
    put_text(alloc, table, "ip", dotted_text(alloc, end.ip)?.as_str())?;
    put_address(alloc, table, "give", end.give)?;
    put_text(alloc, table, "ifid", ifid_text(alloc, end.ifid)?.as_str())?;
    put_number(alloc, table, "align", u32::from(end.align))
}

/// Puts how the end itself goes about.
fn put_conduct(alloc: Global, table: &mut Table, end: &EndConfig) -> Result<(), Memory>
    ensures { OnOk result
        (table_view table.new ≡ put_all (conduct_fields (end_seen end.now)) (table_view table.old)) }
{
    put_number(alloc, table, "fragment", u32::from(end.fragment))?;
    put_number(alloc, table, "most", u32::from(end.most))?;
    put_number(alloc, table, "least", u32::from(end.least))?;
    put_truth(alloc, table, "calls", end.calls)?;
    put_truth(alloc, table, "callbacks", end.callbacks)?;
    put_number(alloc, table, "speed", u32::from(end.speed))?;
    put_number(alloc, table, "max_speed", u32::from(end.max_speed))?;
    put_text(alloc, table, "socket", end.socket.text())?;
    put_truth(alloc, table, "listen", end.listen)
}

/// Puts a dotted address at a key, if there is one.
fn put_address(
    alloc: Global,
    table: &mut Table,
    name: &str,
    address: Option<u32>,
) -> Result<(), Memory>
    ensures { OnOk result
        (table_view table.new ≡ put_value name.now (dotted_there address) (table_view table.old)) }
{
    match address {
        Some(address) => put_text(alloc, table, name, dotted_text(alloc, address)?.as_str()),
        None => Ok(()),
    }
}

/// A dotted address.
#[tactic(auto, unfolding(std::specs::Net::Addr::IsIpv4OfBits))]
fn dotted_text(alloc: Global, address: u32) -> Result<String, Memory>
    ensures { IfOk result (λ text. string_bytes text ≡ dotted_text address) }
{
    let address = Ipv4Addr::from_bits(address);
    Ok(format!(in alloc; "{address}")?)
}

/// An interface identifier.
fn ifid_text(alloc: Global, ifid: Option<u64>) -> Result<String, Memory>
    ensures { IfOk result (λ text. string_bytes text ≡ ifid_text ifid) }
{
    match ifid {
        Some(number) => Ok(hex::encode(alloc, number.to_be_bytes().as_slice())?),
        None => Ok(String::from_str(alloc, "none")?),
    }
}

/// An endpoint discriminator, whose Class is a digit.
fn disc_text(alloc: Global, disc: &Disc) -> Result<String, Memory>
    requires { disc.now.class ≤ 5 }
    ensures { IfOk result (λ text. string_bytes text ≡ disc_text (disc_seen disc.now)) }
{
    let address = hex::encode(alloc, disc.address())?;
    let mut text = String::new(alloc);
    text.push(char::from(b'0' + disc.class))?;
    text.push(':')?;
    text.push_str(address.as_str())?;
    Ok(text)
}

/// The names of the protocols of a set.
fn protocol_names(alloc: Global, protocols: [bool; 4]) -> Result<Value, Memory>
    ensures { IfOk result (λ value. view value ≡ array (protocol_items protocols)) }
{
    let mut names = Vec::new(alloc);
    put_name(alloc, &mut names, protocols[0], "ip")?;
    put_name(alloc, &mut names, protocols[1], "ipv6")?;
    put_name(alloc, &mut names, protocols[2], "osi")?;
    put_name(alloc, &mut names, protocols[3], "mpls")?;
    Ok(Value::from(names))
}

/// Puts a name behind the others, if it is in the set.
fn put_name(alloc: Global, names: &mut Vec<Value>, is_in: bool, name: &str) -> Result<(), Memory>
    ensures { OnOk result
        (items_view names.new.items ≡ name_if is_in name.now (items_view names.old.items)) }
{
    if is_in {
        names.push(Value::string(alloc, name)?)?;
    }
    Ok(())
}
