//! How many streams a plan has.

ghost use Rattle.std.specs.Prelude.{◌≡◌, IfOk, OnOk, length, map};
ghost use Rattle.request.specs.Parts.{service_parts_value};
ghost use Rattle.std.specs.List.{list_any};
ghost use Rattle.request.specs.Request.{has_same_source, stream_rows_of, without_repeats};
ghost use Rattle.request.specs.Collected.{with_row};
ghost use Rattle.request_causes.specs.Causes.{stream_row};
ghost use Rattle.request_causes.specs.declared.placed_row.PlacedRow.{PlacedRow};

use crate::placed_row::PlacedRow;
use crate::rows::placed_rows;
use request::ServiceParts;
use std::alloc::{AllocError, Global};

/// Whether one of the rows has the source of this one.
fn is_found(found: &[PlacedRow], row: &PlacedRow) -> bool
    ensures { result ≡ list_any (λ (other : PlacedRow). has_same_source (stream_row row.now) (stream_row other)) found.now }
{
    found.iter().any(|other| row.has_same_source(other))
}

/// Adds a row unless its source was found.
fn add_row(found: &mut Vec<PlacedRow>, row: &PlacedRow) -> Result<(), AllocError>
    ensures { OnOk result (map stream_row found.new.items
        ≡ with_row (map stream_row found.old.items) (stream_row row.now)) }
{
    if is_found(found, row) {
        return Ok(());
    }
    found.push(*row)?;
    Ok(())
}

#[tactic(auto, unfolding(request::specs::Collected::with_rows))]
/// How many of the rows are left without those that repeat the input and the PID of an earlier one.
fn count_sources(alloc: Global, rows: &[PlacedRow]) -> Result<usize, AllocError>
    ensures { IfOk result (λ count. count ≡ length (without_repeats (map stream_row rows.now))) }
{
    let mut found = Vec::new(alloc);
    for row in rows {
        add_row(&mut found, row)?;
    }
    Ok(found.len())
}

/// How many streams the services have.
pub fn count_streams(alloc: Global, services: &[ServiceParts]) -> Result<usize, AllocError>
    ensures { IfOk result (λ count. count
        ≡ length (stream_rows_of (map service_parts_value services.now))) }
{
    let rows = placed_rows(alloc, services)?;
    count_sources(alloc, &rows)
}
