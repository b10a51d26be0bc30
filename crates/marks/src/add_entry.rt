//! The step of a sequence.

use crate::entry::Entry;
use logbook::{Plain, Play};

/// Adds an entry behind all others, where none was added in between.
pub(crate) struct AddEntry;

impl Play<Entry, u64> for AddEntry {
    ghost use Rattle.marks.specs.SealedLast.{Adds};

    ghost then = { Adds };
}

impl Plain<Entry, Entry, u64> for AddEntry {
    ghost use Rattle.std.specs.Prelude.{None};

    ghost ask = { λ entry. entry };

    ghost state = { λ entry. None };
}
