//! The rule of a sequence.

use crate::entry::Entry;
use logbook::Rule;

/// What holds of a sequence between any two steps: its word is the number of its entries, and nothing follows the seal.
pub struct SealedLast;

impl Rule<Entry, u64> for SealedLast {
    ghost use Rattle.std.specs.Prelude.{[]};
    ghost use base.Fml.{ftrue};
    ghost use Rattle.marks.specs.SealedLast.{IsKept};

    ghost holds = { λ cells entries. IsKept cells entries };

    ghost first = { [] };

    ghost hinted = { λ n entries. Unit {0} };

    ghost shows = { λ entries. [] };

    ghost keeps = { λ names entries. ftrue };

    ghost moves = { λ ask before after answer. Unit {0} };
}
