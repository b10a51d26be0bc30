//! A first plan.

ghost use Rattle.std.specs.Prelude.{◌≡◌, ◌≤◌, string_bytes, map, IfOk, IfSome};
ghost use Rattle.acquire.specs.Seen.{findings_of};
ghost use Rattle.request.specs.Request.{IsRequest};
ghost use Rattle.selection.specs.Chosen.{AreServicesOf};
ghost use Rattle.selection.specs.ChosenView.{chosen_value};
ghost use Rattle.draft.specs.Accepted.{IsAccepted, IsPlanOfSome};

use crate::candidate::Candidate;
use crate::candidates::Candidates;
use crate::left_out::LeftOut;
use crate::parts::Lineup;
use crate::plan_text::plan_text;
use crate::rhythm::rounds_for;
use crate::surveyed::Surveyed;
use acquire::Found;
use output_tables::{fast_count, is_too_large, slow_count};
use plan::Plan;
use probe::Survey;
use request::{MAX_SERVICES, Parts, PlanFault, Request};
use rounds::TableRounds;
use selection::{ChosenService, choose, program_fault};
use std::alloc::{AllocError, Global};

/// Any rate and period: how many packets the tables have depends on neither.
const ANY_RATE: u64 = 1_000_000;

const ANY_PERIOD: u64 = 100;

/// A first plan of some files.
#[derive(Drop)]
pub struct Draft {
    /// The plan's text; none where no service can be taken.
    pub text: Option<String>,
    /// What is left out, and why.
    pub left_out: Vec<LeftOut>,
}

/// Takes what was found of the services of a file: their PMTs, in their order, and the SDT.
fn take_found(
    alloc: Global,
    services: &[Candidate],
    file: usize,
    survey: &mut Survey,
) -> Result<Found, AllocError> {
    let mut pmts = Vec::new(alloc);
    for service in services {
        if service.file == file {
            pmts.push(survey.take_pmt(service.program))?;
        }
    }
    Ok(Found {
        pmts,
        sdt: survey.found.sdt.take(),
    })
}

/// Takes what was found in the files that have one of the services, in their order.
fn take_all_found(
    alloc: Global,
    services: &[Candidate],
    files: &mut [Surveyed<'_>],
) -> Result<Vec<Found>, AllocError> {
    let mut all = Vec::new(alloc);
    for (file, surveyed) in files.iter_mut().enumerate() {
        if services.iter().any(|service| service.file == file) {
            all.push(take_found(alloc, services, file, &mut surveyed.survey)?)?;
        }
    }
    Ok(all)
}

/// How many packets the tables of the chosen services take: the PAT and the PMTs, and the SDT and the NIT. None where a plan of them
/// has a fault.
fn counts_of(request: &Request, chosen: &[ChosenService<'_>]) -> Option<(usize, usize)>
    requires request { IsRequest request.now }
    requires services { AreServicesOf request.now (map chosen_value chosen.now) }
    ensures some { IfSome result (λ counts. (1 ≤ counts.0) × (1 ≤ counts.1)) }
    ensures few { IfSome result (λ counts. (counts.0 ≤ 1000) × (counts.1 ≤ 1000)) }
{
    if program_fault(request, chosen).is_some() || is_too_large(request, chosen) {
        return None;
    }
    Some((fast_count(request, chosen), slow_count(request, chosen)))
}

/// The rounds of a multiplex of what a request asks for, whose streams need this rate; none where it can't be made.
fn rounds_of(request: &Request, found: &[Found], needed: u64) -> Option<TableRounds> {
    request.known();
    let Ok(chosen) = choose(request, found) else {
        return None;
    };
    let (fast, slow) = counts_of(request, chosen.as_slice())?;
    rounds_for(needed, fast, slow)
}

/// The rounds of a plan of these services; none where it can't be made.
fn rhythm_of(
    alloc: Global,
    files: &[Surveyed<'_>],
    services: &[Candidate],
    found: &[Found],
) -> Result<Option<TableRounds>, PlanFault> {
    let lineup = Lineup::new(alloc, files, services)?;
    let needed = lineup.needed;
    let request = Request::new(alloc, lineup.parts(alloc, ANY_RATE, ANY_PERIOD)?)?;
    Ok(rounds_of(&request, found, needed))
}

/// The text that these parts are, of these services, if a run takes it: a request reads it, and a plan is made of that by what was found.
fn accepted_text(
    alloc: Global,
    parts: &Parts,
    services: &[Candidate],
    found: &[Found],
) -> Result<String, PlanFault>
    ensures { IfOk result (λ text. IsAccepted (string_bytes text) (map findings_of found.now)) }
{
    let text = plan_text(alloc, parts, services)?;
    let request = Request::read(alloc, &text)?;
    let _plan = Plan::build(alloc, &request, found)?;
    Ok(text)
}

/// The text of a plan of these services.
fn text_of(
    alloc: Global,
    files: &[Surveyed<'_>],
    services: &[Candidate],
    found: &[Found],
) -> Result<String, PlanFault>
    ensures { IfOk result (λ text. IsAccepted (string_bytes text) (map findings_of found.now)) }
{
    let Some(rounds) = rhythm_of(alloc, files, services, found)? else {
        return Err(PlanFault::RoundTooLong);
    };
    let lineup = Lineup::new(alloc, files, services)?;
    let parts = lineup.parts(alloc, rounds.rate(), rounds.period())?;
    accepted_text(alloc, &parts, services, found)
}

/// The text of a plan of as many of these services as there is room for, the first ones, and how many they are.
fn longest_text(
    alloc: Global,
    files: &[Surveyed<'_>],
    services: &[Candidate],
    found: &[Found],
) -> Result<Option<(usize, String)>, AllocError>
    ensures { IfOk result (λ made. IfSome made (λ m. IsAccepted (string_bytes m.1) (map findings_of found.now))) }
{
    let most = services.len().min(MAX_SERVICES);
    for left in 0..most {
        let count = most - left;
        match text_of(alloc, files, &services[..count], found) {
            Ok(text) => return Ok(Some((count, text))),
            Err(PlanFault::Memory) => return Err(AllocError),
            Err(_) => {}
        }
    }
    Ok(None)
}

/// A first plan of what was found in files. It takes all services that can be taken; where the plan has no room for all of them,
/// the first ones. An `Err` is want of memory.
///
/// A text that it hands out is one that a run takes: a request reads it, and of what was found in the files a plan is made of it.
pub fn make_draft(alloc: Global, mut files: Vec<Surveyed<'_>>) -> Result<Draft, AllocError>
    ensures { IfOk result (λ made. IfSome made.text (λ text. IsPlanOfSome (string_bytes text))) }
{
    let mut candidates = Candidates::of(alloc, &files)?;
    let found = take_all_found(alloc, &candidates.services, &mut files)?;
    let (count, text) = match longest_text(alloc, &files, &candidates.services, &found)? {
        Some((count, text)) => (count, Some(text)),
        None => (0, None),
    };
    candidates.leave_behind(count)?;
    Ok(Draft {
        text,
        left_out: candidates.left_out,
    })
}
