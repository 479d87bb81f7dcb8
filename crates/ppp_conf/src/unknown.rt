//! Unknown keys.

ghost use Rattle.std.specs.Prelude.{◌≡◌, bytes_eq, not, find, option_map, string_bytes, IfOk};
ghost use Rattle.std.specs.BTreeMap.{keys, IsOrdered};
ghost use Rattle.std.specs.List.{list_any};
ghost use Rattle.toml.specs.Data.{get_member};
ghost use Rattle.toml.specs.View.{table_view};
ghost use Rattle.ppp_conf.specs.Keys.{members_in};
ghost use Rattle.ppp_conf.specs.Unknown.{is_end_key, knows, lesser, least_unknown, inside, unknown_of};

use crate::key_path::KeyPath;
use std::alloc::{AllocError, Global};
use std::cmp::Ordering;
use toml::{Table, Value};

const TOP_KEYS: [&str; 4] = ["version", "links", "a", "b"];

const END_KEYS: [&str; 24] = [
    "mru",
    "accm",
    "magic",
    "mrru",
    "short",
    "classes",
    "disc",
    "link_disc",
    "favored",
    "bap",
    "protocols",
    "ip",
    "give",
    "ifid",
    "align",
    "fragment",
    "most",
    "least",
    "calls",
    "callbacks",
    "speed",
    "max_speed",
    "socket",
    "listen",
];

/// The keys of an end that version 2 adds.
const SHORT_HEADER_KEYS: [&str; 2] = ["pfc", "acfc"];

/// What a table of the settings is.
#[derive(Clone, Copy)]
pub(crate) enum Level {
    /// All of them.
    Top,
    /// Those of an end, in this version.
    End(u8),
}

impl Level {
    /// Whether such a table has a key of this name.
    fn knows(self, name: &str) -> bool
        ensures { result ≡ knows self name.now }
    {
        match self {
            Level::Top => is_among(&TOP_KEYS, name),
            Level::End(version) => is_end_key(version, name),
        }
    }
}

/// Whether an end has a key of this name in this version.
fn is_end_key(version: u8, name: &str) -> bool
    ensures { result ≡ is_end_key version name.now }
{
    is_among(&END_KEYS, name) || version == 2 && is_among(&SHORT_HEADER_KEYS, name)
}

/// Whether a name is one of these.
fn is_among(names: &[&str], name: &str) -> bool
    ensures { result ≡ list_any (λ known. bytes_eq name.now known.now) names.now }
{
    names.iter().any(|known| name == *known)
}

/// The first key of a table that isn't known.
fn first_unknown<'t>(table: &'t Table, level: Level) -> Option<&'t String>
    ensures first { option_map (λ key. key.now) result
        ≡ find (λ key. not (knows level (string_bytes key))) (keys table.now) }
    ensures ordered { IsOrdered (⟦<String as Ord>⟧.cmp) table.now }
{
    table.keys().find(|key| !level.knows(key.as_str()))
}

/// The least path of the keys of a table that aren't known, where the paths begin with this prefix.
fn least_unknown(
    alloc: Global,
    prefix: &str,
    table: Option<&Table>,
    level: Level,
) -> Result<Option<KeyPath>, AllocError>
    ensures { IfOk result (λ path.
        path ≡ least_unknown prefix.now (knows level) (members_in table.entry)) }
{
    let Some(table) = table else {
        return Ok(None);
    };
    match first_unknown(table, level) {
        Some(key) => Ok(Some(KeyPath::new(alloc, prefix, key.as_str())?)),
        None => Ok(None),
    }
}

/// The one of two paths that comes first.
fn lesser(one: Option<KeyPath>, other: Option<KeyPath>) -> Option<KeyPath>
    ensures { result ≡ lesser one other }
{
    let Some(path) = one else {
        return other;
    };
    let Some(rival) = other else {
        return Some(path);
    };
    match path.text().cmp(rival.text()) {
        Ordering::Greater => Some(rival),
        _ => Some(path),
    }
}

/// The table at a key, where there is one.
fn inside<'t>(top: &'t Table, name: &str) -> Option<&'t Table>
    ensures { members_in result ≡ inside (get_member name.now (table_view top.now)) }
{
    match top.get(name) {
        Some(value) => value.as_table(),
        None => None,
    }
}

/// The least path of all keys that aren't known.
pub(crate) fn unknown(
    alloc: Global,
    top: &Table,
    version: u8,
) -> Result<Option<KeyPath>, AllocError>
    ensures { IfOk result (λ path. path ≡ unknown_of version (table_view top.now)) }
{
    let at_top = least_unknown(alloc, "", Some(top), Level::Top)?;
    let in_a = least_unknown(alloc, "a.", inside(top, "a"), Level::End(version))?;
    let in_b = least_unknown(alloc, "b.", inside(top, "b"), Level::End(version))?;
    Ok(lesser(at_top, lesser(in_a, in_b)))
}
