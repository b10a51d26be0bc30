//! The tables of a plan's text.

use std::alloc::{AllocError, Global};
use toml::{Table, Value};

/// Adds the tables of a list.
fn add_tables<'a>(found: &mut Vec<&'a Table>, list: Option<&'a Value>) -> Result<(), AllocError> {
    let Some(list) = list else {
        return Ok(());
    };
    let Some(items) = list.as_array() else {
        return Ok(());
    };
    for item in items {
        if let Some(table) = item.as_table() {
            found.push(table)?;
        }
    }
    Ok(())
}

/// The tables of a list, as `input`, or of a list in each table of a list, as `service.stream`.
pub(crate) fn tables_of<'a>(
    alloc: Global,
    table: &'a Table,
    list: &str,
) -> Result<Vec<&'a Table>, AllocError> {
    let mut found = Vec::new(alloc);
    let Some((outer, inner)) = list.split_once(".") else {
        add_tables(&mut found, table.get(list))?;
        return Ok(found);
    };
    let mut outer_tables = Vec::new(alloc);
    add_tables(&mut outer_tables, table.get(outer))?;
    for outer_table in &outer_tables {
        add_tables(&mut found, outer_table.get(inner))?;
    }
    Ok(found)
}
