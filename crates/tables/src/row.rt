//! A row of a table.

use std::alloc::{AllocError, Global};

/// A row of a PMT, of an SDT or of an NIT: a head, the last 12 bits of which are the length of its descriptors, and these.
pub trait Row: Drop {
    ghost use Rattle.std.specs.Prelude.{◌≡◌, ◌≤◌, ◌<◌, ◌^◌, ◌++◌, ℕ, List, true, length, IfOk, OnOk};
    ghost use Rattle.tables.specs.Descriptors.{are_whole};
    ghost use Rattle.tables.specs.Rows.{RowParts};

    // How many bytes its head has.
    ghost head_bytes: { ℕ };

    // What its bytes say, and its bytes as it is written.
    ghost row_of: { RowParts → Self };

    ghost written: { Self → List ℕ };

    ghost descriptor_bytes: { Self → List ℕ };

    // Its fields have their widths, and its descriptors are whole.
    ghost IsRow: { Self → Type 0 };

    /// How many bytes its head has.
    fn head_length() -> usize
        ensures value { result ≡ head_bytes }
        ensures some { 2 ≤ result }
        ensures small { result ≤ 6 };

    /// The row with this head and these descriptors. An `Err` is want of memory.
    fn read(alloc: Global, head: &[u8], descriptors: &[u8]) -> Result<Self, AllocError>
        requires head { length head.now ≡ head_bytes }
        requires descriptors { are_whole 0 descriptors.now ≡ true }
        ensures { IfOk result (λ row. row ≡ row_of (record { head = head.now; descriptors = descriptors.now })) };

    /// Its descriptors.
    fn descriptors(&self) -> &[u8]
        ensures { result.now ≡ descriptor_bytes self.now };

    /// Adds it as it is written. An `Err` is want of memory.
    fn write(&self, out: &mut Vec<u8>) -> Result<(), AllocError>
        requires row { IsRow self.now }
        requires short { length (descriptor_bytes self.now) < 2 ^ 12 }
        ensures { OnOk result (out.new.items ≡ out.old.items ++ written self.now) };
}
