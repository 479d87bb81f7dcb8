//! Settings as a text.

ghost use Rattle.std.specs.Prelude.{◌≡◌, Some, Ok, IfOk, string_bytes};
ghost use Rattle.toml.specs.View.{table_view};
ghost use Rattle.ppp_conf.specs.Config.{config_of, config_seen, toml_of};
ghost use Rattle.ppp_conf.specs.ConfigText.{top_table};

use crate::config::Config;
use crate::end_table::end_table;
use crate::fields::{put, put_number};
use ppp_memory::Memory;
use std::alloc::Global;
use toml::{Table, Value};

/// Prints settings as a TOML text of version 2 with every key that is there, which reads as the same settings. Where
/// it is printed with memory wanting, there is no text.
pub fn print_config(alloc: Global, config: &Config) -> Result<String, Memory>
    ensures printed { IfOk result
        (λ text. toml_of (string_bytes text) ≡ Some (top_table (config_seen config.now))) }
    ensures reads_back { IfOk result
        (λ text. config_of (string_bytes text) ≡ Ok (config_seen config.now)) }
{
    let table = config_table(alloc, config)?;
    let Ok(text) = toml::table_to_string(alloc, &table) else {
        return Err(Memory);
    };
    let _text = text.as_str();
    Ok(text)
}

/// The table of settings.
fn config_table(alloc: Global, config: &Config) -> Result<Table, Memory>
    ensures { IfOk result (λ table. table_view table ≡ top_table (config_seen config.now)) }
{
    let mut table = Table::new(alloc);
    put_number(alloc, &mut table, "version", 2)?;
    put_number(alloc, &mut table, "links", u32::from(config.links))?;
    put(
        alloc,
        &mut table,
        "a",
        Value::from(end_table(alloc, &config.a)?),
    )?;
    put(
        alloc,
        &mut table,
        "b",
        Value::from(end_table(alloc, &config.b)?),
    )?;
    Ok(table)
}
