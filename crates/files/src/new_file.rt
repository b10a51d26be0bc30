//! An output that hasn't its name yet.

ghost use Rattle.std.specs.Prelude.{◌≡◌, IfOk, string_bytes};
ghost use Rattle.files.specs.Names.{partial_of};

use std::alloc::{AllocError, Global};

/// An output that is to get a name.
#[derive(Drop)]
pub(crate) struct NewFile {
    /// The name under which it stands.
    pub partial: String,
    /// The name that it is to get.
    pub name: String,
}

/// The name under which the output of this name is written: `out.ts.part`, or `out.ts.part2` and so on, the one with this
/// number, where those before it are taken.
pub fn partial_name(alloc: Global, name: &str, number: u64) -> Result<String, AllocError>
    ensures { IfOk result (λ partial. string_bytes partial ≡ partial_of name.now number) }
{
    if number < 2 {
        format!(in alloc; "{name}.part")
    } else {
        format!(in alloc; "{name}.part{number}")
    }
}
