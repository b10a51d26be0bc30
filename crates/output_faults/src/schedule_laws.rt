//! What the analyser tells of every emission of a schedule of plans.

ghost use Rattle.std.specs.Prelude.{ℕ, List};
ghost use Rattle.request.specs.declared.stream.Stream.{Stream};
ghost use Rattle.schedule.specs.Streams.{all_streams};
ghost use Rattle.emission.specs.Spans.{IsEmissionOf};
ghost use Rattle.analyse.specs.Faults.{faults};
ghost use Rattle.output_faults.specs.ToldFaults.{TellsNoSyncFault, TellsNoTableFault, CounterFaultsAreOfStreams, AreLawfulAsTaken, CounterFaultsAreAsTaken};

use schedule::Schedule;
use schedule::laws::{plans_in_force, streams_of_plans, uses_of_pids};

/// Sync is never lost and no sync byte is wrong, at any rate (bits a second) and any period (slots).
pub fn no_sync_fault(schedule: &Schedule)
    ensures { (rate period : ℕ) (out : List (List ℕ)) → IsEmissionOf schedule.now out →
        TellsNoSyncFault (faults rate period out) }
{
    schedule.known();
    plans_in_force(schedule);
    uses_of_pids(schedule);
}

/// At the schedule's rate no fault of the PAT and none of a PMT is told, at any period (slots), across switches too.
pub fn no_table_fault(schedule: &Schedule)
    ensures { (period : ℕ) (out : List (List ℕ)) → IsEmissionOf schedule.now out →
        TellsNoTableFault (faults schedule.now.first.request.rate period out) }
{
    schedule.known();
    plans_in_force(schedule);
    uses_of_pids(schedule);
}

/// A wrong counter is told at exactly the packets of streams that aren't lawful among those of their PID, across switches too.
pub fn counter_faults_are_of_streams(schedule: &Schedule)
    ensures { (rate period : ℕ) (out : List (List ℕ)) → IsEmissionOf schedule.now out →
        CounterFaultsAreOfStreams (all_streams schedule.now) out (faults rate period out) }
{
    schedule.known();
    plans_in_force(schedule);
    uses_of_pids(schedule);
    streams_of_plans(schedule);
}

/// Where what went out of each stream is lawful exactly as what was taken for it, a wrong counter is told at exactly the
/// slots that carry what was taken and isn't lawful.
pub fn counter_faults_are_as_taken(schedule: &Schedule)
    ensures { (rate period : ℕ) (out : List (List ℕ)) (taken : Stream → List (List ℕ)) → IsEmissionOf schedule.now out →
        AreLawfulAsTaken (all_streams schedule.now) taken out →
        CounterFaultsAreAsTaken (all_streams schedule.now) taken out (faults rate period out) }
{
    schedule.known();
    plans_in_force(schedule);
    uses_of_pids(schedule);
    streams_of_plans(schedule);
}
