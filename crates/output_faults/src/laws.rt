//! What the analyser tells of every emission of a plan.

ghost use Rattle.std.specs.Prelude.{ℕ, List};
ghost use Rattle.request.specs.declared.stream.Stream.{Stream};
ghost use Rattle.emission.specs.Emission.{IsEmission};
ghost use Rattle.analyse.specs.Faults.{faults};
ghost use Rattle.output_faults.specs.ToldFaults.{TellsNoSyncFault, TellsNoTableFault, CounterFaultsAreOfStreams, AreLawfulAsTaken, CounterFaultsAreAsTaken};

use plan::Plan;

/// Sync is never lost and no sync byte is wrong, at any rate (bits a second) and any period (slots).
pub fn no_sync_fault(plan: &Plan)
    ensures { (rate period : ℕ) (out : List (List ℕ)) → IsEmission plan.now out →
        TellsNoSyncFault (faults rate period out) }
{
    plan.known();
}

/// At the plan's rate no fault of the PAT and none of a PMT is told, at any period (slots).
pub fn no_table_fault(plan: &Plan)
    ensures { (period : ℕ) (out : List (List ℕ)) → IsEmission plan.now out →
        TellsNoTableFault (faults plan.now.request.rate period out) }
{
    plan.known();
}

/// A wrong counter is told at exactly the packets of streams that aren't lawful among those of their PID.
pub fn counter_faults_are_of_streams(plan: &Plan)
    ensures { (rate period : ℕ) (out : List (List ℕ)) → IsEmission plan.now out →
        CounterFaultsAreOfStreams plan.now.request.streams out (faults rate period out) }
{
    plan.known();
}

/// Where what went out of each stream is lawful exactly as what was taken for it, a wrong counter is told at exactly the
/// slots that carry what was taken and isn't lawful.
pub fn counter_faults_are_as_taken(plan: &Plan)
    ensures { (rate period : ℕ) (out : List (List ℕ)) (taken : Stream → List (List ℕ)) → IsEmission plan.now out →
        AreLawfulAsTaken plan.now.request.streams taken out →
        CounterFaultsAreAsTaken plan.now.request.streams taken out (faults rate period out) }
{
    plan.known();
}
