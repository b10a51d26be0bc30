//! The step of the writer.

ghost use Rattle.feed.specs.FeedRule.{Publishes};

use crate::knowledge::Knowledge;
use crate::version::Version;
use crossbeam_utils::rule::Outcome;

/// The writer publishes a version.
pub struct Publishing;

impl Outcome<Version, Knowledge> for Publishing {
    ghost then = { λ _ _ version knows. Publishes version knows };
}
