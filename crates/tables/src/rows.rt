//! Rows of a table whose descriptors stand behind their length.

ghost use Rattle.std.specs.Prelude.{◌≡◌, ◌+◌, ◌<◌, ◌≤◌, ◌^◌, ◌↔◌, ◌⊎◌, ◌++◌, true, length, take, drop, map, sum, None, Some, Err, option_map, IsSome, IfSome, IfOk, IfErr, OnOk, vec_capacity};
ghost use Rattle.std.specs.List.{All, flat_map};
ghost use Rattle.tables.specs.Rows.{has_whole_loop, loop_length_of, first_row, rows_of};

use crate::descriptors::are_whole;
use crate::row::Row;
use crate::table_fault::TableFault;
use std::alloc::{AllocError, Global};

/// The bytes of a row in two parts, and those behind it.
#[derive(Clone, Copy)]
pub struct RowSlices<'a> {
    /// The fields of the row, and the length of its descriptors in the last 12 bits.
    pub head: &'a [u8],
    /// Whole descriptors.
    pub descriptors: &'a [u8],
    /// What stands behind the row.
    pub rest: &'a [u8],
}

/// The length in the last 12 bits of the head.
#[tactic(auto, using(crate::proofs::RowLaws::loop_length_at))]
pub fn loop_length(bytes: &[u8], head_length: usize) -> usize
    requires some { 2 ≤ head_length }
    requires head { head_length ≤ length bytes.now }
    ensures { result ≡ loop_length_of head_length bytes.now }
{
    usize::from(bytes[head_length - 2] % 16) * 256 + usize::from(bytes[head_length - 1])
}

/// The row that the bytes begin with; none where its head or its descriptors aren't whole.
pub fn split_row(bytes: &[u8], head_length: usize) -> Option<RowSlices<'_>>
    requires some { 2 ≤ head_length }
    requires small { head_length ≤ 6 }
    ensures whole { IsSome result ↔ (has_whole_loop head_length bytes.now ≡ true) }
    ensures head { IfSome result (λ row. row.head.now ≡ (first_row head_length bytes.now).head) }
    ensures descriptors { IfSome result (λ row. row.descriptors.now ≡ (first_row head_length bytes.now).descriptors) }
    ensures rest { IfSome result (λ row.
        row.rest.now ≡ drop (head_length + loop_length_of head_length bytes.now) bytes.now) }
{
    if bytes.len() < head_length {
        return None;
    }
    let count = loop_length(bytes, head_length);
    let behind = &bytes[head_length..];
    if behind.len() < count {
        return None;
    }
    let descriptors = &behind[..count];
    if !are_whole(descriptors) {
        return None;
    }
    Some(RowSlices {
        head: &bytes[..head_length],
        descriptors,
        rest: &behind[count..],
    })
}

/// How many rows the bytes are; none where they are no whole rows.
fn count_rows(bytes: &[u8], head_length: usize) -> Option<usize>
    requires some { 2 ≤ head_length }
    requires small { head_length ≤ 6 }
    ensures { result ≡ option_map length (rows_of head_length 0 bytes.now) }
{
    let mut count = 0;
    let mut rest = bytes;
    while !rest.is_empty() {
        let row = split_row(rest, head_length)?;
        rest = row.rest;
        count += 1;
    }
    Some(count)
}

/// The rows that the bytes are. Memory is asked for once it is known that there is no fault: one piece with room for just the rows,
/// and one for the descriptors of each.
pub fn read_rows<R: Row>(alloc: Global, bytes: &[u8]) -> Result<Vec<R>, TableFault>
    ensures rows { IfOk result (λ v. option_map (map R.row_of) (rows_of R.head_bytes 0 bytes.now) ≡ Some v.items) }
    ensures fault { IfErr result (λ e.
        (e ≡ TableFault.Memory) ⊎ ((e ≡ TableFault.BadLoop) × (rows_of R.head_bytes 0 bytes.now ≡ None))) }
    ensures memory { result ≡ Err TableFault.Memory → IsSome (rows_of R.head_bytes 0 bytes.now) }
    ensures room { IfOk result (λ v. vec_capacity v ≡ length v.items) }
{
    let head_length = R::head_length();
    let Some(count) = count_rows(bytes, head_length) else {
        return Err(TableFault::BadLoop);
    };
    let mut rows = Vec::with_capacity(alloc, count)?;
    let mut rest = bytes;
    while let Some(row) = split_row(rest, head_length) {
        rows.push_reserved(R::read(alloc, row.head, row.descriptors)?);
        rest = row.rest;
    }
    Ok(rows)
}

/// How many bytes the rows are as they are written; none where they are more than `most`. No sum here is above that.
pub fn rows_length<R: Row>(rows: &[R], most: usize) -> Option<usize>
    ensures value { IfSome result (λ n. n ≡ sum (map (λ r. R.head_bytes + length (R.descriptor_bytes r)) rows.now)) }
    ensures fits { IfSome result (λ n. n ≤ most) }
    ensures too_large { result ≡ None → most < sum (map (λ r. R.head_bytes + length (R.descriptor_bytes r)) rows.now) }
{
    let mut room = most;
    for row in rows {
        room = room
            .checked_sub(R::head_length())?
            .checked_sub(row.descriptors().len())?;
    }
    Some(most - room)
}

/// Adds the rows as they are written. An `Err` is want of memory.
pub fn write_rows<R: Row>(out: &mut Vec<u8>, rows: &[R]) -> Result<(), AllocError>
    requires rows { All R.IsRow rows.now }
    requires short { All (λ r. length (R.descriptor_bytes r) < 2 ^ 12) rows.now }
    ensures { OnOk result (out.new.items ≡ out.old.items ++ flat_map R.written rows.now) }
{
    for row in rows {
        row.write(out)?;
    }
    Ok(())
}
