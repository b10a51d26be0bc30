//! The reading of a file, for what is in it.

ghost use Rattle.std.specs.Prelude.{◌≡◌, [], Ok, false};

use crate::file_survey::FileSurvey;
use crate::first_bytes::FirstBytes;
use files::{CommandFault, FileCause, InputFile, Sources, StreamShape, shape_of, stopped};
use measuring::Metered;
use probe::{Probe, ProgramSearch, Survey};
use rate_meter::{Meter, RateMeter};
use reading::{PIECE, Source, Stop, StreamReader};
use std::alloc::{AllocError, Global};
use tables::PatRow;
use tspkt::{Item, Packet, PacketSize};

/// How much of a file is read, in bytes: 64 MiB, which is as much as is kept of one that can be read only once.
const READ: u64 = 67_108_864;

/// How many of its first bytes say what it looks like.
const HEAD: usize = 2_048;

/// How many programs of a PAT are looked at: more than any multiplex has, and few enough that a forged PAT costs no time.
const MOST_PROGRAMS: usize = 1_024;

/// What takes the packets of a stream, each with its position, and answers whether it has enough.
trait Taker {
    fn take(&mut self, position: u64, packet: &Packet) -> Result<bool, AllocError>;
}

impl Taker for ProgramSearch {
    fn take(&mut self, _position: u64, packet: &Packet) -> Result<bool, AllocError> {
        self.push(packet)
    }
}

impl Taker for Probe {
    fn take(&mut self, position: u64, packet: &Packet) -> Result<bool, AllocError> {
        self.push(position, packet)?;
        Ok(false)
    }
}

/// Gives the packet of an item, if it is one.
fn give_item<T: Taker>(taker: &mut T, item: &Item) -> Result<bool, AllocError> {
    if let Item::Packet(position, bytes) = item
        && let Ok(packet) = Packet::read(bytes)
    {
        return taker.take(*position, &packet);
    }
    Ok(false)
}

/// Gives the packets among the items that a stream has told, until there are enough, and answers whether there are.
fn give_told<R: Source, T: Taker>(
    taker: &mut T,
    stream: &mut StreamReader<R>,
) -> Result<bool, AllocError>
    ensures none { result ≡ Ok false → stream.new.items.ahead ≡ [] }
    ensures stays { stream.new ≡ record stream.old {
      items = record stream.old.items { ahead = stream.new.items.ahead };
    } }
{
    while let Some(item) = stream.peek() {
        let is_enough = give_item(taker, item)?;
        stream.pass();
        if is_enough {
            return Ok(true);
        }
    }
    Ok(false)
}

/// Reads the beginning of a source of this size, and gives its packets, until there are enough. The answer is the source, and why it
/// couldn't be read, if it couldn't.
fn read_packets<R: Source + Drop, T: Taker>(
    alloc: Global,
    taker: &mut T,
    size: PacketSize,
    source: R,
) -> Result<(R, Option<Stop>), AllocError> {
    let mut piece = vec![in alloc; 0; PIECE]?;
    let mut stream = StreamReader::new(alloc, size, FirstBytes::new(source, READ), READ);
    loop {
        if give_told(taker, &mut stream)? || stream.is_over() {
            return Ok((stream.into_source().into_inner(), None));
        }
        if let Err(stop) = stream.read(piece.as_mut_slice()) {
            return Ok((stream.into_source().into_inner(), Some(stop)));
        }
    }
}

/// Reads as much of a file as says what it looks like.
fn look<R: InputFile>(alloc: Global, reader: &mut R) -> Result<Option<StreamShape>, AllocError> {
    let mut piece = vec![in alloc; 0; HEAD]?;
    for _ in 0..HEAD {
        match reader.read(piece.as_mut_slice()) {
            Ok(0) => break,
            Ok(_) if reader.head().len() >= HEAD => break,
            Ok(_) => {}
            Err(_) => return Ok(None),
        }
    }
    Ok(Some(shape_of(reader.head())))
}

/// The programs of a file of this size, and its reader, which has read some of it.
fn find_programs<R: InputFile + Drop>(
    alloc: Global,
    name: &str,
    size: PacketSize,
    reader: R,
) -> Result<(Vec<PatRow>, R), CommandFault> {
    let mut search = ProgramSearch::new(alloc)?;
    let (reader, stop) = read_packets(alloc, &mut search, size, reader)?;
    match stop {
        Some(stop) => Err(stopped(alloc, name, &reader, stop, READ)),
        None => {
            let mut programs = search.programs()?;
            programs.truncate(MOST_PROGRAMS);
            Ok((programs, reader))
        }
    }
}

/// The answer for a file, or the fault of the file with this name.
fn opened<R>(alloc: Global, name: &str, answer: Result<R, FileCause>) -> Result<R, CommandFault> {
    match answer {
        Ok(reader) => Ok(reader),
        Err(cause) => Err(CommandFault::file(alloc, name, cause)),
    }
}

/// What a file looks like, its programs at the size that it has, or else of 188 bytes, and that size; and its reader, which has read
/// some of it.
fn find_shape<F: Sources>(
    alloc: Global,
    files: &mut F,
    name: &str,
) -> Result<(StreamShape, PacketSize, Vec<PatRow>, F::Reader), CommandFault> {
    let mut reader = opened(alloc, name, files.reader(name))?;
    let Some(shape) = look(alloc, &mut reader)? else {
        return Err(CommandFault::file(alloc, name, reader.cause()));
    };
    let size = shape.size().unwrap_or(PacketSize::Ts188);
    let reader = opened(alloc, name, files.anew(name, reader))?;
    let (programs, reader) = find_programs(alloc, name, size, reader)?;
    Ok((shape, size, programs, reader))
}

/// The rate of the fastest second of a stream by the PID that its rate is known by, in bits a second, where that was measured.
fn fastest_of(survey: &Survey, meter: Option<&RateMeter>) -> Option<u64> {
    meter?.fastest(survey.measured?.pid)
}

/// What is in a file, by its first 67,108,864 bytes, and what it looks like. It is read at the size that it has, and where it has none,
/// as one of packets of 188 bytes.
pub(crate) fn survey_file<F: Sources>(
    alloc: Global,
    files: &mut F,
    name: &str,
) -> Result<FileSurvey, CommandFault> {
    let (shape, size, programs, first) = find_shape(alloc, files, name)?;
    let reader = opened(alloc, name, files.again(name, Some(first)))?;
    let mut probe = Probe::new(alloc, size, programs)?;
    let source: Metered<F::Again> = Metered::new(alloc, size, reader);
    let (source, stop) = read_packets(alloc, &mut probe, size, source)?;
    if let Some(stop) = stop {
        return Err(stopped(alloc, name, &source, stop, READ));
    }
    let survey = probe.into_survey(alloc, source.meter())?;
    let fastest = fastest_of(&survey, source.meter());
    Ok(FileSurvey {
        survey,
        shape,
        fastest,
    })
}
