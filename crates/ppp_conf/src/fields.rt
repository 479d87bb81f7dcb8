//! Tables as they are printed: members that are put in one behind the other.

ghost use Rattle.std.specs.Prelude.{◌≡◌, pos, Some, OnOk};
ghost use Rattle.toml.specs.Data.{boolean, integer, string};
ghost use Rattle.toml.specs.View.{view, table_view};
ghost use Rattle.ppp_conf.specs.Fields.{number_there, put_member, put_value};

use ppp_memory::Memory;
use std::alloc::Global;
use toml::{Table, Value};

/// Puts a value at a key.
pub(crate) fn put(alloc: Global, table: &mut Table, name: &str, value: Value) -> Result<(), Memory>
    ensures { OnOk result
        (table_view table.new ≡ put_member name.now (view value) (table_view table.old)) }
{
    let key = String::from_str(alloc, name)?;
    match table.insert(key, value) {
        Ok(_) => Ok(()),
        Err(_) => Err(Memory),
    }
}

/// Puts a whole number at a key.
pub(crate) fn put_number(alloc: Global, table: &mut Table, name: &str, n: u32) -> Result<(), Memory>
    ensures { OnOk result
        (table_view table.new ≡ put_member name.now (integer (pos n)) (table_view table.old)) }
{
    put(alloc, table, name, Value::from(n))
}

/// Puts a whole number at a key, if there is one.
pub(crate) fn put_there(
    alloc: Global,
    table: &mut Table,
    name: &str,
    n: Option<u32>,
) -> Result<(), Memory>
    ensures { OnOk result
        (table_view table.new ≡ put_value name.now (number_there n) (table_view table.old)) }
{
    match n {
        Some(n) => put_number(alloc, table, name, n),
        None => Ok(()),
    }
}

/// Puts a truth value at a key.
pub(crate) fn put_truth(
    alloc: Global,
    table: &mut Table,
    name: &str,
    value: bool,
) -> Result<(), Memory>
    ensures { OnOk result
        (table_view table.new ≡ put_member name.now (boolean value) (table_view table.old)) }
{
    put(alloc, table, name, Value::from(value))
}

/// Puts a text at a key.
pub(crate) fn put_text(
    alloc: Global,
    table: &mut Table,
    name: &str,
    text: &str,
) -> Result<(), Memory>
    ensures { OnOk result
        (table_view table.new ≡ put_member name.now (string text.now) (table_view table.old)) }
{
    put(alloc, table, name, Value::string(alloc, text)?)
}
