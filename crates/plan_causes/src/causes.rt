//! The cause of a plan's fault.

ghost use Rattle.std.specs.Prelude.{◌≡◌, IfSome, map, option_map};
ghost use Rattle.acquire.specs.Seen.{findings_of};
ghost use Rattle.plan.specs.Build.{build_fault_of};
ghost use Rattle.plan_causes.specs.Causes.{IsCauseOf, fault_of};

use crate::choice_causes::choice_cause;
use crate::plan_cause::PlanCause;
use crate::table_causes::chosen_cause;
use acquire::Found;
use request::Request;
use selection::choose;

/// A cause of the fault that a plan of this request has, by what was found in each of its inputs: of the fault that
/// `Plan::build` answers, and none where the plan has no fault. The first service in the plan's order is named to which the
/// fault applies. It takes no memory.
#[tactic(auto, unfolding(plan::specs::Build::build_fault_of))]
pub fn cause_of(request: &Request, found: &[Found]) -> Option<PlanCause>
    ensures fault { option_map fault_of result
        ≡ build_fault_of request.now (map findings_of found.now) }
    ensures cause { IfSome result (IsCauseOf request.now (map findings_of found.now)) }
{
    request.known();
    match choose(request, found) {
        Ok(chosen) => chosen_cause(request, chosen.as_slice()),
        Err(_) => choice_cause(request, found),
    }
}
