//! What holds of every emission of a plan.

ghost use Rattle.std.specs.Prelude.{ℕ, List};
ghost use Rattle.emission.specs.Emission.{IsEmission};
ghost use Rattle.emission.specs.Agreement.{TablesAgree};
ghost use Rattle.emission.specs.Recurrence.{TablesRecur};
ghost use Rattle.emission.specs.TableBuffers.{TableBuffersFit};

use plan::Plan;

/// The packets on each table's PID repeat the plan's sections of that table, with lawful counters.
pub fn tables_agree(plan: &Plan)
    ensures { (out : List (List ℕ)) → IsEmission plan.now out → TablesAgree plan.now out }
{
    plan.known();
}

/// Each table comes within its limit.
pub fn tables_recur(plan: &Plan)
    ensures { (out : List (List ℕ)) → IsEmission plan.now out → TablesRecur plan.now out }
{
    plan.known();
}

/// No transport buffer of a table ever holds more than 512 bytes, though none is looked at when the packets are sent.
pub fn table_buffers_fit(plan: &Plan)
    ensures { (out : List (List ℕ)) → IsEmission plan.now out → TableBuffersFit plan.now out }
{
    plan.known();
}
