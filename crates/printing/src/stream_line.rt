//! What a stream looks like, in a line, and where it lost its sync.

use files::{has_size, shape_of};
use std::io;
use std::io::Write;
use tspkt::PacketSize;

/// Prints what a stream looks like by its first bytes: where it is empty, and where it is wrong and these bytes aren't packets of the size at
/// which it was read; and with which `--size` it can be read, if with one. A stream is wrong that has a fault or no packet. Of another one
/// whose slots follow one another it prints at which byte sync was lost, if it was, by the slot.
pub fn print_shape<E: Write>(
    name: &str,
    size: PacketSize,
    head: &[u8],
    is_wrong: bool,
    loss: Option<u64>,
    err: &mut E,
) -> io::Result<()> {
    let is_odd = head.is_empty() || is_wrong && !has_size(head, size);
    if !is_odd {
        return print_loss(name, size, loss, err);
    }
    let shape = shape_of(head);
    match shape.size() {
        Some(other) => writeln!(err, "{name}: {shape}: state --size {}", other.stride()),
        None => writeln!(err, "{name}: {shape}"),
    }
}

/// Prints at which byte a stream of this size lost its sync, by the slot, where it did.
fn print_loss<E: Write>(
    name: &str,
    size: PacketSize,
    loss: Option<u64>,
    err: &mut E,
) -> io::Result<()> {
    let Some(slot) = loss else {
        return Ok(());
    };
    let byte = slot.saturating_mul(size.stride() as u64);
    writeln!(
        err,
        "{name}: sync was lost by byte {byte}: with --sync packets are sought behind it"
    )
}
