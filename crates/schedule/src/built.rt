//! What is known of plans that were built.

ghost use Rattle.schedule.specs.Schedule.{schedule_of};
ghost use Rattle.schedule.specs.Laws.{AreBuilt};

use plan::Plan;

/// What the plans of a schedule keep is known after it.
pub(crate) fn know_plans(first: &Plan, later: &[(u64, Plan)])
    ensures { AreBuilt (schedule_of first.now later.now) }
{
    first.known();
    for after in later {
        after.1.known();
    }
}
