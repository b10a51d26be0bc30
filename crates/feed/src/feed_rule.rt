//! The rule of a feed.

ghost use Rattle.feed.specs.FeedRule.{Keeps};
ghost use Rattle.feed.specs.Knowing.{newcomer};

use crate::knowledge::Knowledge;
use crate::version::Version;
use crossbeam_utils::rule::Protocol;

/// What holds of a feed between any two steps: the version that readers see is an emission of the schedule, its mark is that of its
/// packets, and each end knows nothing yet, or the schedule and which feed it is.
pub struct FeedRule;

impl Protocol<Version, Knowledge> for FeedRule {
    ghost holds = { Keeps };

    ghost first = { newcomer };
}
