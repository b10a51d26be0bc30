//! Why a plan is refused that was read well, in words.

ghost use Rattle.std.specs.Prelude.{◌≡◌, Some, true, map, is_some, IfSome};
ghost use Rattle.acquire.specs.Seen.{findings_of};
ghost use Rattle.plan.specs.Build.{build_fault_of};
ghost use Rattle.plan_causes.specs.Causes.{IsCauseOf, fault_of};

use crate::input_file::InputFile;
use crate::kept_reader::TOO_LATE;
use crate::pat_programs::PatPrograms;
use crate::{CommandFault, FfmpegCommand, StreamShape, has_size, shape_of};
use acquire::Found;
use plan_causes::{PlanCause, RowLack, ServiceNumbers, cause_of};
use request::{PlanFault, Request, Service};
use std::alloc::{AllocError, Global};
use tspkt::PacketSize;

/// Whether programs are sought in an input that has no complete PAT and none of them, and whose first bytes aren't packets of its size.
fn is_no_stream(found: &Found, programs: &PatPrograms, size: PacketSize, head: &[u8]) -> bool {
    programs.numbers.is_none()
        && !found.pmts.is_empty()
        && found.pmts.iter().all(|pmt| pmt.is_none())
        && !has_size(head, size)
}

/// What an input looks like, in words, and what the plan has to state where it can be read so.
fn shape_words(alloc: Global, shape: StreamShape) -> Result<String, AllocError> {
    match shape.size() {
        Some(size) => format!(in alloc; "{shape}: state size = {}", size.stride()),
        None => format!(in alloc; "{shape}"),
    }
}

/// A cause of this fault of a plan, by what was found in its inputs. There is one wherever they give the plan this fault, and
/// none of want of memory.
fn cause_in(fault: PlanFault, request: &Request, found: &[Found]) -> Option<PlanCause>
    ensures cause { IfSome result (IsCauseOf request.now (map findings_of found.now)) }
    ensures fault { IfSome result (λ cause. fault_of cause ≡ fault) }
    ensures some { build_fault_of request.now (map findings_of found.now) ≡ Some fault
        → is_some result ≡ true }
{
    match cause_of(request, found) {
        Some(cause) if cause.fault() == fault => Some(cause),
        _ => None,
    }
}

/// The first service of a plan whose program isn't among those of its input's PAT, where that is known.
pub(crate) fn find_lacking<'a>(
    request: &'a Request,
    programs: &[PatPrograms],
) -> Option<&'a Service> {
    for service in request.services() {
        if let Some(known) = programs.get(service.input)
            && known.lacks(service.program)
        {
            return Some(service);
        }
    }
    None
}

/// In words that a service's program isn't in its input, and what its input's PAT has.
fn lacking_words(
    alloc: Global,
    service: ServiceNumbers,
    programs: &PatPrograms,
) -> Result<String, AllocError> {
    format!(in alloc; "{service}: the input has no such program; {programs}")
}

/// In words that a service isn't described in its input, and how it gets a description: a command of ffmpeg writes the service alone
/// into a file of packets of 188 bytes, at the rate that the plan states, with an SDT and PIDs of its own.
fn undescribed_words(
    alloc: Global,
    request: &Request,
    service: ServiceNumbers,
    lack: RowLack,
) -> Result<String, AllocError> {
    let Some(input) = request.inputs().get(service.input) else {
        return format!(in alloc; "{service}: {lack}");
    };
    let file = input.file.as_str();
    let command = FfmpegCommand::keeping(file, service.program, input.size, input.rate);
    format!(in alloc;
        "{service}: {lack}\nffmpeg writes a file with one, and with other PIDs: {command}"
    )
}

/// A cause in words. A program that isn't found is told with what its input's PAT has.
fn cause_words(
    alloc: Global,
    cause: &PlanCause,
    programs: &[PatPrograms],
) -> Result<String, AllocError> {
    if let PlanCause::NoProgram(service) = cause
        && let Some(programs) = programs.get(service.input)
    {
        return if programs.has(service.program) {
            format!(in alloc; "{service}: the input's PAT has it, and its PMT was not found")
        } else {
            lacking_words(alloc, *service, programs)
        };
    }
    format!(in alloc; "{cause}")
}

/// The cause of `NoProgram` in words: of the first input that is no stream of packets what it looks like, else the first service whose
/// program its input's PAT lacks; none where there is neither.
fn program_words<R: InputFile>(
    alloc: Global,
    request: &Request,
    found: &[Found],
    programs: &[PatPrograms],
    readers: &[R],
) -> Result<Option<String>, AllocError> {
    let read = found.iter().zip(programs.iter().zip(readers.iter()));
    for (number, (input, (found, (programs, reader)))) in request
        .inputs()
        .iter()
        .zip(read)
        .enumerate()
    {
        let head = reader.head();
        if is_no_stream(found, programs, input.size, head) {
            let (file, words) = (&input.file, shape_words(alloc, shape_of(head))?);
            return Ok(Some(format!(in alloc; "input {number}, {file}: {words}")?));
        }
    }
    let Some(service) = find_lacking(request, programs) else {
        return Ok(None);
    };
    let Some(programs) = programs.get(service.input) else {
        return Ok(None);
    };
    Ok(Some(lacking_words(alloc, ServiceNumbers::of(service), programs)?))
}

/// The words of a fault's cause, where one is known. Where a program isn't there, and an input has none of those that are sought in
/// it, they say what the input looks like, if it is no stream of packets; else where the plan is at fault.
fn fault_words<R: InputFile>(
    alloc: Global,
    fault: PlanFault,
    request: &Request,
    found: &[Found],
    programs: &[PatPrograms],
    readers: &[R],
) -> Result<Option<String>, AllocError> {
    if fault == PlanFault::NoProgram
        && let Some(words) = program_words(alloc, request, found, programs, readers)?
    {
        return Ok(Some(words));
    }
    match cause_in(fault, request, found) {
        Some(PlanCause::NoSdtRow(service, lack)) => {
            Ok(Some(undescribed_words(alloc, request, service, lack)?))
        }
        Some(cause) => Ok(Some(cause_words(alloc, &cause, programs)?)),
        None => Ok(None),
    }
}

/// Words, and behind them a line for the first input that can be read only once and was read as far as it is kept, if there is one.
fn with_bound<R: InputFile>(
    alloc: Global,
    words: String,
    request: &Request,
    readers: &[R],
) -> Result<String, AllocError> {
    for (number, (input, reader)) in request.inputs().iter().zip(readers.iter()).enumerate() {
        if reader.cause().is_past_kept() {
            let file = &input.file;
            return format!(in alloc; "{words}\ninput {number}, {file}: {TOO_LATE}");
        }
    }
    Ok(words)
}

/// The fault of a plan, with its cause in words, where one is known.
pub(crate) fn plan_fault<R: InputFile>(
    alloc: Global,
    fault: PlanFault,
    request: &Request,
    found: &[Found],
    programs: &[PatPrograms],
    readers: &[R],
) -> Result<CommandFault, AllocError> {
    match fault_words(alloc, fault, request, found, programs, readers)? {
        Some(words) => Ok(CommandFault::PlanCause(
            fault,
            with_bound(alloc, words, request, readers)?,
        )),
        None => Ok(CommandFault::from(fault)),
    }
}
