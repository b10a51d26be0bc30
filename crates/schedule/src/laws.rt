//! What holds of every schedule.

ghost use Rattle.std.specs.Prelude.{◌≡◌, ℕ};
ghost use Rattle.schedule.specs.Schedule.{single, number_in_slot, number_for};
ghost use Rattle.schedule.specs.Laws.{IsInForce, IsOfPlan, HavePidsOneUse};
ghost use Rattle.schedule.specs.Streams.{AreStreamsOf, ArePlaces, all_streams, scheduled_place};
ghost use Rattle.plan.specs.StreamPlace.{stream_place};

use crate::schedule::Schedule;
use plan::Plan;

/// In each slot the last plan is in force that has begun.
pub fn plans_in_force(schedule: &Schedule)
    ensures { (slot : ℕ) → IsInForce schedule.now slot (number_in_slot schedule.now slot) }
{
    schedule.known();
}

/// A packet belongs to the last plan whose first slot goes out at the packet's time or before, or to the first plan.
pub fn plans_of_packets(schedule: &Schedule)
    ensures { (stamp : ℕ) → IsOfPlan schedule.now stamp (number_for schedule.now stamp) }
{
    schedule.known();
}

/// An output PID has one use in all plans, a stream or the PMT of a service, and doesn't come back once it went.
pub fn uses_of_pids(schedule: &Schedule)
    ensures { HavePidsOneUse schedule.now }
{
    schedule.known();
}

/// The streams of a schedule are those of its plans, each once.
pub fn streams_of_plans(schedule: &Schedule)
    ensures { AreStreamsOf schedule.now (all_streams schedule.now) }
{
    schedule.known();
}

/// A packet's place is that of its stream, and there is none exactly where the plan that it belongs to has no such stream.
pub fn places_of_packets(schedule: &Schedule)
    ensures { ArePlaces schedule.now }
{
    schedule.known();
}

/// Where there is one plan, a stream's place is its number in the plan.
pub fn places_of_one_plan(plan: &Plan)
    ensures { (input pid stamp : ℕ) → scheduled_place (single plan.now) input pid stamp ≡ stream_place plan.now.request.streams input pid }
{
    plan.known();
}
