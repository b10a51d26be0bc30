//! The opening of an output.

ghost use Rattle.std.specs.Prelude.{IfOk};
ghost use Rattle.files.specs.Identity.{IsAmong};

use crate::files::Files;
use crate::notices::Notices;
use crate::{CommandFault, FileCause, FileIdentity, is_among};
use std::alloc::Global;

/// A writer to the output with this name, and which file it takes the place of, where that is known: none of those that are
/// read, whatever its name is.
///
/// An output that is one of them is refused as `FileCause::IsRead`, before a file is made; one that can't be made is refused with
/// its cause. Want of memory is `CommandFault::Memory`. `notices` is told what is waited for.
pub fn open_output<F: Files, N: Notices>(
    alloc: Global,
    files: &mut F,
    notices: &mut N,
    name: &str,
    read: &[FileIdentity],
) -> Result<(F::Writer, Option<FileIdentity>), CommandFault>
    ensures { IfOk result (λ opened. IsAmong opened.1 read.now → ⊥) }
{
    let identity = files.output_identity(name);
    if is_among(identity, read) {
        return Err(CommandFault::file(alloc, name, FileCause::IsRead));
    }
    notices.opens(name);
    let opened = files.writer(name);
    notices.goes_on();
    match opened {
        Ok(writer) => Ok((writer, identity)),
        Err(cause) => Err(CommandFault::file(alloc, name, cause)),
    }
}
