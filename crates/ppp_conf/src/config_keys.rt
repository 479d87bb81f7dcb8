//! The keys of settings, and what a text reads as.

ghost use Rattle.std.specs.Prelude.{◌≡◌, ◌≤◌, [], Ok, IfOk, IfErr, OnOk};
ghost use Rattle.toml.specs.View.{table_view};
ghost use Rattle.ppp_conf.specs.Config.{all_known, config_of, config_seen, end_at, settings_of};
ghost use Rattle.ppp_conf.specs.EndConfig.{IsEnd};
ghost use Rattle.ppp_conf.specs.Keys.{keys_seen};
ghost use Rattle.ppp_conf.specs.Refusal.{HasRead, Reads, IsRefusal};
ghost use Rattle.ppp_conf.specs.Unknown.{unknown_of};

use crate::conf_fault::ConfFault;
use crate::conf_why::ConfWhy;
use crate::config::Config;
use crate::end_config::EndConfig;
use crate::end_keys::read_end;
use crate::keys::Keys;
use crate::unknown::unknown;
use std::alloc::Global;
use toml::Table;

/// Reads settings, a TOML text. The first refusal is answered, in the order of the crate's first page; want of memory may
/// be answered in the place of any.
pub fn read_config(alloc: Global, text: &[u8]) -> Result<Config, ConfFault>
    ensures ok { IfOk result (λ config. config_of text.now ≡ Ok (config_seen config)) }
    ensures err { IfErr result (IsRefusal (config_of text.now)) }
{
    match toml::table_from_slice(alloc, text) {
        Ok(top) => read_document(alloc, &top),
        Err(error) => {
            if error.is_memory() {
                return Err(ConfFault::Memory);
            }
            let keys = Keys {
                alloc,
                prefix: "",
                table: None,
            };
            Err(keys.refused("-", ConfWhy::Toml))
        }
    }
}

/// Reads the settings of a document.
fn read_document(alloc: Global, top: &Table) -> Result<Config, ConfFault>
    ensures ok { IfOk result (λ config.
        settings_of (record { prefix = []; members = table_view top.now }) ≡ Ok (config_seen config)) }
    ensures err { IfErr result (IsRefusal
        (settings_of (record { prefix = []; members = table_view top.now }))) }
{
    let keys = Keys {
        alloc,
        prefix: "",
        table: Some(top),
    };
    let version = keys.required("version", 1, 2)?;
    check_known(alloc, top, version)?;
    let links = keys.octet("links", 1, 16, 1)?;
    let a = end_at(alloc, &keys, "a", "a.", links)?;
    let b = end_at(alloc, &keys, "b", "b.", links)?;
    let a = a?;
    let b = b?;
    Ok(Config { links, a, b })
}

/// Looks for unknown keys.
fn check_known(alloc: Global, top: &Table, version: u8) -> Result<(), ConfFault>
    ensures ok { OnOk result (all_known (unknown_of version (table_view top.now)) ≡ Ok tt) }
    ensures err { IfErr result (IsRefusal (all_known (unknown_of version (table_view top.now)))) }
{
    match unknown(alloc, top, version) {
        Ok(None) => Ok(()),
        Ok(Some(key)) => Err(ConfFault::Refused {
            key,
            why: ConfWhy::Unknown,
        }),
        Err(_) => Err(ConfFault::Memory),
    }
}

/// Reads the keys of the end whose table has this name.
fn end_at(
    alloc: Global,
    top: &Keys<'_>,
    name: &'static str,
    prefix: &'static str,
    links: u8,
) -> Result<Result<EndConfig, ConfFault>, ConfFault>
    requires least { 1 ≤ links }
    requires most { links ≤ 16 }
    ensures ok { IfOk result (HasRead (Reads IsEnd)
        (end_at links name.now prefix.now (keys_seen top.now))) }
    ensures err { IfErr result (IsRefusal
        (end_at links name.now prefix.now (keys_seen top.now))) }
    ensures links { IfOk result (λ read. IfOk read (λ config. config.links ≡ links)) }
{
    let table = top.table(name)?;
    let keys = Keys {
        alloc,
        prefix,
        table,
    };
    read_end(&keys, links)
}
