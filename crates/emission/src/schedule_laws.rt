//! What holds of every emission of a schedule of plans.

ghost use Rattle.std.specs.Prelude.{◌↔◌, ℕ, List};
ghost use Rattle.schedule.specs.Schedule.{single};
ghost use Rattle.emission.specs.Emission.{IsEmission};
ghost use Rattle.emission.specs.Spans.{IsEmissionOf, SpansAgree, SpansRecur, SpanBuffersFit, StreamsBegin};

use plan::Plan;
use schedule::Schedule;
use schedule::laws::{plans_in_force, uses_of_pids};

/// What a schedule of one plan sends is what the plan sends.
pub fn one_plan_sends(plan: &Plan)
    ensures { (out : List (List ℕ)) → IsEmissionOf (single plan.now) out ↔ IsEmission plan.now out }
{
    plan.known();
}

/// In each span the packets on each table's PID repeat the sections of its plan, from their beginning on, and the counters go on over
/// switches.
pub fn spans_agree(schedule: &Schedule)
    ensures { (out : List (List ℕ)) → IsEmissionOf schedule.now out → SpansAgree schedule.now out }
{
    schedule.known();
    plans_in_force(schedule);
    uses_of_pids(schedule);
}

/// Each window of a table's limit that lies inside a span has a beginning of each of the table's sections in the plan of the span.
pub fn spans_recur(schedule: &Schedule)
    ensures { (out : List (List ℕ)) → IsEmissionOf schedule.now out → SpansRecur schedule.now out }
{
    schedule.known();
    plans_in_force(schedule);
    uses_of_pids(schedule);
}

/// No transport buffer of a table of any of the plans ever holds more than 512 bytes, across switches too.
pub fn span_buffers_fit(schedule: &Schedule)
    ensures { (out : List (List ℕ)) → IsEmissionOf schedule.now out → SpanBuffersFit schedule.now out }
{
    schedule.known();
    plans_in_force(schedule);
    uses_of_pids(schedule);
}

/// Nothing goes out on a stream's PID before the stream comes into force, so its transport buffer has the same level over all windows as
/// over those that begin there.
pub fn streams_begin(schedule: &Schedule)
    ensures { (out : List (List ℕ)) → IsEmissionOf schedule.now out → StreamsBegin schedule.now out }
{
    schedule.known();
    plans_in_force(schedule);
    uses_of_pids(schedule);
}
