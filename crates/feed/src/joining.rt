//! The step by which a reader is told of its feed.

ghost use Rattle.std.specs.Prelude.{◌≡◌};
ghost use Rattle.feed.specs.Knowing.{newcomer};

use crate::knowledge::Knowledge;
use atomic_table::{Join, Split};

/// A new reader is told what the writer knows, which knows it still.
pub struct Joining;

impl Split<Knowledge> for Joining {
    ghost left = { λ knows. knows };

    ghost right = { λ knows. knows };
}

impl Join<Knowledge> for Joining {
    ghost both = { λ _ told. told };

    ghost spent = { newcomer };
}
