//! A plan from its file and the files of its inputs.

ghost use Rattle.std.specs.Prelude.{◌≡◌, ◌≤◌, ◌++◌, [], Ok, false, length, IfOk, OnOk};

use crate::file_identity::FileIdentity;
use crate::input_file::InputFile;
use crate::notices::Notices;
use crate::pat_programs::PatPrograms;
use crate::placed_cause::PlacedCause;
use crate::plan_faults::{find_lacking, plan_fault};
use crate::plan_read::ReadPlan;
use crate::schedule_faults::{of_later, schedule_of};
use crate::schedule_read::ReadSchedule;
use crate::sources::Sources;
use crate::{CommandFault, FileCause, StreamShape, shape_of};
use acquire::{Acquire, Found};
use plan::Plan;
use reading::{Source, Stop, StreamReader};
use request::{Input, PlanFault, Request};
use selection::seek;
use std::alloc::{AllocError, Global};
use std::str;
use tables::Pat;
use text_causes::{bytes_cause, text_cause};
use tspkt::{Item, Packet};

/// How many bytes are read at once.
const PIECE: usize = 1 << 16;
/// The most bytes of a plan's file.
const PLAN_LIMIT: usize = 1_048_576;
/// How many of its first bytes say whether it is a transport stream.
const HEAD: usize = 2_048;

/// Adds bytes that were read of a plan's file to those before them, if there are no more than a mebibyte.
fn add_read(bytes: &mut Vec<u8>, read: &[u8]) -> Result<(), Stop>
    ensures added { OnOk result (bytes.new.items ≡ bytes.old.items ++ read.now) }
    ensures bound { OnOk result (length bytes.new.items ≤ 1048576) }
{
    if bytes.extend_from_slice(read).is_err() {
        return Err(Stop::Memory);
    }
    if bytes.len() > PLAN_LIMIT {
        return Err(Stop::TooMuch);
    }
    Ok(())
}

/// All bytes of a plan's file, at most a mebibyte.
fn read_text<R: Source>(alloc: Global, source: &mut R) -> Result<Vec<u8>, Stop>
    ensures { IfOk result (λ bytes. length bytes.items ≤ 1048576) }
{
    let Ok(mut piece) = vec![in alloc; 0; PIECE] else {
        return Err(Stop::Memory);
    };
    let mut bytes = Vec::new(alloc);
    for _ in 0..=PLAN_LIMIT {
        let Ok(count) = source.read(piece.as_mut_slice()) else {
            return Err(Stop::ReadFailed);
        };
        add_read(&mut bytes, &piece[..count])?;
        if count == 0 {
            return Ok(bytes);
        }
    }
    Err(Stop::TooMuch)
}

/// A reader of the file with this name.
fn open<F: Sources, N: Notices>(
    alloc: Global,
    files: &mut F,
    notices: &mut N,
    name: &str,
) -> Result<F::Reader, CommandFault> {
    notices.opens(name);
    let opened = files.reader(name);
    notices.goes_on();
    match opened {
        Ok(reader) => Ok(reader),
        Err(cause) => Err(CommandFault::file(alloc, name, cause)),
    }
}

/// The fault of a file whose reading stopped before its end, which may have so many bytes.
pub fn stopped<R: InputFile>(
    alloc: Global,
    name: &str,
    reader: &R,
    stop: Stop,
    limit: u64,
) -> CommandFault {
    match stop {
        Stop::Memory => CommandFault::Memory,
        Stop::TooMuch => CommandFault::file(alloc, name, FileCause::TooLong(limit)),
        _ => CommandFault::file(alloc, name, reader.cause()),
    }
}

/// The fault of a plan's text with the words of its cause.
fn text_fault(alloc: Global, fault: PlanFault, text: &str) -> Result<CommandFault, AllocError> {
    let words = match PlacedCause::find(alloc, fault, text)? {
        Some(cause) => Some(format!(in alloc; "{cause}")?),
        None if fault == PlanFault::BadText => text_cause(alloc, text)?,
        None => None,
    };
    match words {
        Some(words) => Ok(CommandFault::PlanCause(fault, words)),
        None => Ok(CommandFault::from(fault)),
    }
}

/// The request that a text writes. The fault says why the text is no plan's, or where its values are at fault, where there is
/// memory for its words.
fn request_of(alloc: Global, text: &str) -> Result<Request, CommandFault> {
    match Request::read(alloc, text) {
        Ok(request) => Ok(request),
        Err(fault) => Err(text_fault(alloc, fault, text).unwrap_or(CommandFault::from(fault))),
    }
}

/// Whether these bytes begin as a transport stream does.
fn is_stream(bytes: &[u8]) -> bool {
    let head = bytes.get(..HEAD).unwrap_or(bytes);
    matches!(shape_of(head), StreamShape::Packets(_))
}

/// Why bytes are no text.
fn no_text_cause(alloc: Global, bytes: &[u8]) -> Result<Option<String>, AllocError> {
    if is_stream(bytes) {
        return Ok(Some(format!(in alloc; "{}", FileCause::IsStream)?));
    }
    bytes_cause(alloc, bytes)
}

/// The fault of a plan's file whose bytes are no text, with its cause where there is memory for its words.
fn no_text_fault(alloc: Global, bytes: &[u8]) -> CommandFault {
    match no_text_cause(alloc, bytes) {
        Ok(Some(cause)) => CommandFault::PlanCause(PlanFault::BadText, cause),
        _ => CommandFault::from(PlanFault::BadText),
    }
}

/// The request that a plan's file writes, and which file that is.
pub fn read_request<F: Sources, N: Notices>(
    alloc: Global,
    files: &mut F,
    notices: &mut N,
    name: &str,
) -> Result<(Request, Option<FileIdentity>), CommandFault> {
    let mut source = open(alloc, files, notices, name)?;
    match read_text(alloc, &mut source) {
        Ok(bytes) => match str::from_utf8(&bytes) {
            Ok(text) => Ok((request_of(alloc, text)?, source.identity())),
            Err(_) => Err(no_text_fault(alloc, &bytes)),
        },
        Err(Stop::TooMuch) if is_stream(source.head()) => {
            Err(CommandFault::file(alloc, name, FileCause::IsStream))
        }
        Err(stop) => Err(stopped(alloc, name, &source, stop, PLAN_LIMIT as u64)),
    }
}

/// Pushes the packet of an item, where it is one, and answers whether all that is wanted was found.
fn push_item(acquire: &mut Acquire, item: &Item) -> Result<bool, AllocError> {
    if let Item::Packet(_, bytes) = item
        && let Ok(packet) = Packet::read(bytes)
    {
        return acquire.push(&packet);
    }
    Ok(false)
}

/// Pushes the packets among the items that a stream has told, until all that is wanted was found.
fn push_told<R: Source>(
    acquire: &mut Acquire,
    stream: &mut StreamReader<R>,
) -> Result<bool, AllocError>
    ensures none { result ≡ Ok false → stream.new.items.ahead ≡ [] }
    ensures stays { stream.new ≡ record stream.old {
      items = record stream.old.items { ahead = stream.new.items.ahead };
    } }
{
    while let Some(item) = stream.peek() {
        let is_found = push_item(acquire, item)?;
        stream.pass();
        if is_found {
            return Ok(true);
        }
    }
    Ok(false)
}

/// Whether the sections of a PAT name this program.
fn names(pat: &[Pat], program: u16) -> bool {
    pat.iter()
        .flat_map(|section| section.rows())
        .any(|row| row.program_number == program)
}

/// Whether the first complete PAT of the input with this number was found, and lacks a program that is sought there. No packet behind it
/// changes that.
fn is_lacking(acquire: &Acquire, request: &Request, number: usize) -> bool {
    let Some(pat) = acquire.pat() else {
        return false;
    };
    for service in request.services() {
        if service.input == number && !names(pat, service.program) {
            return true;
        }
    }
    false
}

/// Reads the input with this number until all that is wanted was found, or a program can't be found any more, or it ends. The answer is
/// its reader, and why it couldn't be read, if it couldn't.
fn read_tables<R: Source + Drop, N: Notices>(
    alloc: Global,
    notices: &mut N,
    acquire: &mut Acquire,
    request: &Request,
    number: usize,
    input: &Input,
    source: R,
) -> Result<(R, Option<Stop>), AllocError> {
    let mut piece = vec![in alloc; 0; PIECE]?;
    let size = input.size;
    let mut stream = StreamReader::new(alloc, size, source, size.limit());
    loop {
        if push_told(acquire, &mut stream)? || stream.is_over() {
            return Ok((stream.into_source(), None));
        }
        if is_lacking(acquire, request, number) {
            return Ok((stream.into_source(), None));
        }
        notices.seeks(number, input.file.as_str(), acquire.pat().is_some());
        if let Err(stop) = stream.read(piece.as_mut_slice()) {
            return Ok((stream.into_source(), Some(stop)));
        }
    }
}

/// A reader of the file with this name, from its beginning: the one that an earlier plan's tables were read from, if there is one.
fn open_input<F: Sources, N: Notices>(
    alloc: Global,
    files: &mut F,
    notices: &mut N,
    name: &str,
    earlier: Option<F::Reader>,
) -> Result<F::Reader, CommandFault> {
    let Some(earlier) = earlier else {
        return open(alloc, files, notices, name);
    };
    match files.anew(name, earlier) {
        Ok(reader) => Ok(reader),
        Err(cause) => Err(CommandFault::file(alloc, name, cause)),
    }
}

/// What is found in the input with this number, the programs of its PAT, and its reader. Of one that can be read only once no more is
/// looked at than is kept.
fn find<F: Sources, N: Notices>(
    alloc: Global,
    files: &mut F,
    notices: &mut N,
    request: &Request,
    number: usize,
    input: &Input,
    earlier: Option<F::Reader>,
) -> Result<(Found, PatPrograms, F::Reader), CommandFault> {
    let name = input.file.as_str();
    let source = open_input(alloc, files, notices, name, earlier)?;
    let mut acquire = seek(alloc, request, number)?;
    let read = read_tables(alloc, notices, &mut acquire, request, number, input, source);
    notices.goes_on();
    let (reader, stop) = read?;
    let programs = PatPrograms::of(alloc, acquire.pat())?;
    match stop {
        Some(stop) if !reader.cause().is_past_kept() => {
            Err(stopped(alloc, name, &reader, stop, input.size.limit()))
        }
        _ => Ok((acquire.found(), programs, reader)),
    }
}

/// Sees that the inputs of a plan behind the first so many are there.
fn open_others<F: Sources, N: Notices>(
    alloc: Global,
    files: &mut F,
    notices: &mut N,
    request: &Request,
    count: usize,
) -> Result<(), CommandFault> {
    for input in request.inputs().iter().skip(count) {
        open(alloc, files, notices, input.file.as_str())?;
    }
    Ok(())
}

/// Whether the input with this number is read from this file.
fn is_input(inputs: &[Input], number: usize, file: &str) -> bool {
    match inputs.get(number) {
        Some(input) => input.file.as_str() == file,
        None => false,
    }
}

/// The plan in the file with this name, as `read_plan`; `inputs` and `readers` are those of the plan before it, if there is one: where
/// both plans have the same file as an input, its reader begins anew.
fn read_behind<F: Sources, N: Notices>(
    alloc: Global,
    files: &mut F,
    notices: &mut N,
    name: &str,
    inputs: &[Input],
    readers: Vec<F::Reader>,
) -> Result<ReadPlan<F::Reader>, CommandFault> {
    let (request, identity) = read_request(alloc, files, notices, name)?;
    let mut earlier = readers.into_iter();
    let mut found = Vec::new(alloc);
    let mut programs = Vec::new(alloc);
    let mut readers = Vec::new(alloc);
    for (number, input) in request.inputs().iter().enumerate() {
        let first = earlier
            .next()
            .filter(|_| is_input(inputs, number, input.file.as_str()));
        let (tables, named, reader) = find(alloc, files, notices, &request, number, input, first)?;
        found.push(tables)?;
        programs.push(named)?;
        readers.push(reader)?;
        if find_lacking(&request, &programs).is_some() {
            open_others(alloc, files, notices, &request, programs.len())?;
            break;
        }
    }
    match Plan::build(alloc, &request, &found) {
        Ok(plan) => Ok(ReadPlan {
            plan,
            plan_file: identity,
            readers,
        }),
        Err(fault) => Err(plan_fault(alloc, fault, &request, &found, &programs, &readers).unwrap_or(
            CommandFault::from(fault),
        )),
    }
}

/// The plan in the file with this name, made by what is found in its inputs, each of which is read from its beginning.
///
/// The first fault ends it: of the plan's file, which may have 1,048,576 bytes; of its text; of the inputs in their order; and
/// of the plan, without its cause where there is no memory for its words. Behind an input whose PAT lacks a program that is sought
/// there no further one is read: each has only to be there. `notices` is told what is waited for.
pub fn read_plan<F: Sources, N: Notices>(
    alloc: Global,
    files: &mut F,
    notices: &mut N,
    name: &str,
) -> Result<ReadPlan<F::Reader>, CommandFault> {
    read_behind(alloc, files, notices, name, &[], Vec::new(alloc))
}

/// The inputs of the last of these plans, or of the first one where no other was read.
fn inputs_before<'p>(first: &'p Plan, later: &'p [(u64, Plan)]) -> &'p [Input] {
    match later.last() {
        Some((_, plan)) => plan.inputs(),
        None => first.inputs(),
    }
}

/// The plans that follow the first, each with its slot, and the readers from which the tables of their inputs were read last. Which files
/// the plans are read from is added to `plan_files`.
fn read_later<F: Sources, N: Notices>(
    alloc: Global,
    files: &mut F,
    notices: &mut N,
    first: &Plan,
    readers: Vec<F::Reader>,
    later: &[(u64, &str)],
    plan_files: &mut Vec<Option<FileIdentity>>,
) -> Result<(Vec<(u64, Plan)>, Vec<F::Reader>), CommandFault> {
    let mut plans: Vec<(u64, Plan)> = Vec::new(alloc);
    let mut readers = readers;
    for (slot, name) in later {
        let inputs = inputs_before(first, plans.as_slice());
        let read = match read_behind(alloc, files, notices, name, inputs, readers) {
            Ok(read) => read,
            Err(fault) => return Err(of_later(alloc, *slot, fault)),
        };
        plan_files.push(read.plan_file)?;
        readers = read.readers;
        plans.push((*slot, read.plan))?;
    }
    Ok((plans, readers))
}

/// The schedule of the plan in the file with this name and of those that follow it, each with the slot from which on it is in force and
/// the name of its file.
///
/// The first fault ends it: of the plans in their order, each as by `read_plan`, and then of the schedule. In words it says of which plan
/// it is, where that isn't the first, and its cause, where there is memory for them. An input that all plans have is opened once where it
/// can be read only once.
pub fn read_schedule<F: Sources, N: Notices>(
    alloc: Global,
    files: &mut F,
    notices: &mut N,
    name: &str,
    later: &[(u64, &str)],
) -> Result<ReadSchedule<F::Reader>, CommandFault> {
    let ReadPlan {
        plan: first,
        plan_file,
        readers,
    } = read_plan(alloc, files, notices, name)?;
    let mut plan_files = Vec::new(alloc);
    plan_files.push(plan_file)?;
    let (plans, readers) = read_later(
        alloc,
        files,
        notices,
        &first,
        readers,
        later,
        &mut plan_files,
    )?;
    let schedule = schedule_of(alloc, first, plans)?;
    Ok(ReadSchedule {
        schedule,
        plan_files,
        readers,
    })
}
