//! The values at the keys of a TOML table.

ghost use Rattle.std.specs.Prelude.{◌≡◌, ◌↔◌, IfOk, IfErr, IsTrue, option_map, Some, map, true, string_bytes};
ghost use Rattle.std.specs.List.{All};
ghost use Rattle.std.specs.BTreeMap.{keys};
ghost use Rattle.toml.specs.View.{view, table_view, array_view};
ghost use Rattle.toml.specs.Data.{get_member};
ghost use Rattle.request.specs.Text.{is_among, has_only, IsTextFault, optional_number_at, number_at, text_at, hex_at, list_at};

use crate::plan_fault::PlanFault;
use hex::FromHexError;
use std::alloc::Global;
use toml::value::Array;
use toml::{Table, Value};

/// Whether the key is one of the names.
fn is_known(names: &[&str], key: &str) -> bool
    ensures { result ≡ is_among (map (λ name. name.now) names.now) key.now }
{
    for name in names {
        if key == *name {
            return true;
        }
    }
    false
}

/// Whether all keys of the table are among the names.
fn knows_all(names: &[&str], table: &Table) -> bool
    ensures { IsTrue result ↔ All (λ key. is_among (map (λ name. name.now) names.now)
        (string_bytes key) ≡ true) (keys table.now) }
{
    table.keys().all(|key| is_known(names, key.as_str()))
}

/// Whether the table has no other keys than these.
pub fn is_closed(names: &[&str], table: &Table) -> bool
    ensures { result ≡ has_only (map (λ name. name.now) names.now) (table_view table.now) }
{
    knows_all(names, table)
}

/// The value at a key.
fn get<'a>(table: &'a Table, key: &str) -> Option<&'a Value>
    ensures { option_map (λ v. view v.now) result ≡ get_member key.now (table_view table.now) }
{
    table.get(key)
}

/// The number at a key that needn't be there. `None` where the value is of another type.
pub fn optional_number(table: &Table, key: &str) -> Option<Option<i64>>
    ensures { result ≡ optional_number_at key.now (table_view table.now) }
{
    match get(table, key) {
        Some(value) => match value.as_integer() {
            Some(number) => Some(Some(number)),
            None => None,
        },
        None => Some(None),
    }
}

/// The number at a key.
pub fn number(table: &Table, key: &str) -> Option<i64>
    ensures { result ≡ number_at key.now (table_view table.now) }
{
    match optional_number(table, key) {
        Some(number) => number,
        None => None,
    }
}

/// The text at a key.
pub fn text<'a>(table: &'a Table, key: &str) -> Option<&'a str>
    ensures { option_map (λ s. s.now) result ≡ text_at key.now (table_view table.now) }
{
    match get(table, key) {
        Some(value) => value.as_str(),
        None => None,
    }
}

/// The list at a key.
pub fn list<'a>(table: &'a Table, key: &str) -> Option<&'a Array>
    ensures { option_map (λ v. array_view v.now) result ≡ list_at key.now (table_view table.now) }
{
    match get(table, key) {
        Some(value) => value.as_array(),
        None => None,
    }
}

/// The bytes that the text at a key stands for in hex digits.
pub fn hex_bytes(alloc: Global, table: &Table, key: &str) -> Result<Vec<u8>, PlanFault>
    ensures ok { IfOk result (λ v. hex_at key.now (table_view table.now) ≡ Some v.items) }
    ensures err { IfErr result (IsTextFault (hex_at key.now (table_view table.now))) }
{
    let digits = text(table, key).ok_or(PlanFault::BadText)?;
    match hex::decode(alloc, digits.as_bytes()) {
        Ok(bytes) => Ok(bytes),
        Err(FromHexError::OutOfMemory) => Err(PlanFault::Memory),
        Err(_) => Err(PlanFault::BadText),
    }
}
