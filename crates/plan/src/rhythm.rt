//! When the tables of a plan are sent.

ghost use Rattle.std.specs.Prelude.{◌≡◌, None, Some, IfOk, IfErr, OnOk, map};
ghost use Rattle.request.specs.Request.{IsRequest};
ghost use Rattle.rounds.specs.declared.rounds_fault.RoundsFault.{RoundsFault};
ghost use Rattle.selection.specs.Chosen.{AreServicesOf};
ghost use Rattle.selection.specs.ChosenView.{chosen_value};
ghost use Rattle.output_tables.specs.Room.{HaveRoom};
ghost use Rattle.plan.specs.Build.{output_rounds, fault_of_rounds, chosen_fault_of};

use output_tables::{fast_count, is_too_large, slow_count};
use request::{PlanFault, Request};
use rounds::{RoundsFault, TableRounds};
use selection::{ChosenService, program_fault};

/// The fault of a plan with such rounds.
fn plan_fault(fault: RoundsFault) -> PlanFault
    ensures { fault_of_rounds (Some fault) ≡ Some result }
{
    match fault {
        RoundsFault::RoundTooLong => PlanFault::RoundTooLong,
        RoundsFault::PeriodTooLong => PlanFault::PeriodTooLong,
    }
}

/// When the tables of the chosen services are sent, or the fault of the least number by these
/// services: that of their programs, `TooLarge`, `RoundTooLong` or `PeriodTooLong`. It takes no
/// memory.
#[tactic(auto, unfolding(crate::specs::Build::chosen_fault_of))]
pub fn plan_rounds(
    request: &Request,
    chosen: &[ChosenService<'_>],
) -> Result<TableRounds, PlanFault>
    requires request { IsRequest request.now }
    requires services { AreServicesOf request.now (map chosen_value chosen.now) }
    ensures rounds { IfOk result (λ rounds.
        rounds ≡ output_rounds request.now (map chosen_value chosen.now)) }
    ensures room { OnOk result (HaveRoom request.now (map chosen_value chosen.now)) }
    ensures no_fault { IfOk result (λ _.
        chosen_fault_of request.now (map chosen_value chosen.now) ≡ None) }
    ensures fault { IfErr result (λ e.
        chosen_fault_of request.now (map chosen_value chosen.now) ≡ Some e) }
{
    if let Some(fault) = program_fault(request, chosen) {
        return Err(fault);
    }
    if is_too_large(request, chosen) {
        return Err(PlanFault::TooLarge);
    }
    let fast = fast_count(request, chosen);
    let slow = slow_count(request, chosen);
    match TableRounds::new(request.rate(), request.period(), fast, slow) {
        Ok(rounds) => Ok(rounds),
        Err(fault) => Err(plan_fault(fault)),
    }
}
