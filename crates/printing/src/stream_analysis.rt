//! The analysis of a stream's file.

mod framed;

ghost use Rattle.std.specs.Prelude.{◌≡◌, ◌≤◌, ◌+◌, ◌-◌, length, min, vec_len, IfNone, IfOk, IfSome, None};

use crate::analysis_summary::AnalysisSummary;
use crate::end_document::EndDocument;
use crate::fault_document::FaultDocument;
use crate::level_document::LevelDocument;
use crate::level_lines::print_levels;
use crate::shown::Shown;
use advice::{packets_rate, reached};
use analyse::{Analyser, Fault, FaultKind};
use documents::{FORMAT, print_document};
use files::CommandFault;
use levels::Levels;
use reading::Source;
use std::alloc::{AllocError, Global};
use std::io;
use std::io::Write;
use tspkt::PacketSize;

/// The length of a packet, in bytes.
pub(crate) const PACKET: usize = 188;
/// How many packets are analysed at once.
const PACKETS: usize = 348;

/// What is shown where nothing else is asked for.
const ALL_FAULTS: Shown = Shown {
    limit: None,
    places: false,
    summary: false,
    json: false,
};

/// Reads until the piece is full or the source ends, and answers how many bytes; none where a read fails.
fn fill<R: Source>(source: &mut R, piece: &mut [u8]) -> Option<usize>
    ensures room { length piece.new ≡ length piece.old }
    ensures count { IfSome result (λ count. count ≤ length piece.new) }
{
    let mut filled = 0;
    while filled < piece.len() {
        match source.read(&mut piece[filled..]) {
            Err(_) => return None,
            Ok(0) => return Some(filled),
            Ok(count) => filled += count,
        }
    }
    Some(filled)
}

/// The analysis of a stream that is read in pieces, and printed as it goes.
#[derive(Drop)]
pub struct StreamAnalysis {
    size: PacketSize,
    analyser: Analyser,
    /// The faults that were not printed yet.
    found: Vec<Fault>,
    slots: u64,
    faults: u64,
    rate: u64,
    shown: Shown,
    summary: Option<AnalysisSummary>,
    /// The levels of the transport buffers that are shown, if any.
    levels: Option<Levels>,
    /// How many bytes stood in no packet, where packets are sought; else 0.
    lost: u64,
    /// The slot at which sync was lost first.
    loss: Option<u64>,
}

impl StreamAnalysis {
    /// That of a stream of this size and of this rate, in bits a second, which counts all of its bytes, and of which nothing was
    /// read. Each PID that a PMT refers to has to come within `period` slots. It shows each fault by its slot.
    pub fn new(alloc: Global, size: PacketSize, rate: u64, period: u64) -> StreamAnalysis
        ensures slots { result.slots ≡ 0 }
        ensures faults { result.faults ≡ 0 }
        ensures shown { result.shown.limit ≡ None }
    {
        StreamAnalysis {
            size,
            analyser: Analyser::new(alloc, packets_rate(size, rate), period),
            found: Vec::new(alloc),
            slots: 0,
            faults: 0,
            rate,
            shown: ALL_FAULTS,
            summary: None,
            levels: None,
            lost: 0,
            loss: None,
        }
    }

    /// From now on it shows this.
    pub fn show(&mut self, shown: Shown)
        ensures { self.new ≡ record self.old { shown = shown } }
    {
        self.shown = shown;
    }

    /// From now on it shows these levels too.
    pub fn watch(&mut self, levels: Levels) {
        self.levels = Some(levels);
    }

    /// How many slots were read.
    pub fn slots(&self) -> u64
        ensures { result ≡ self.now.slots }
    {
        self.slots
    }

    /// The slot at which sync was lost first (ETSI TR 101 290, 5.2.1, TS_sync_loss).
    pub fn loss(&self) -> Option<u64>
        ensures { result ≡ self.now.loss }
    {
        self.loss
    }

    /// Begins the analysis.
    fn begin<O: Write>(&mut self, alloc: Global, out: &mut O) -> Result<(), CommandFault> {
        if self.shown.summary {
            self.summary = Some(AnalysisSummary::new(alloc)?);
        }
        if self.shown.json {
            writeln!(
                out,
                "{{\"format\":{FORMAT},\"command\":\"analyse\",\"found\":["
            )?;
        }
        Ok(())
    }

    /// Reads the stream to its end, and prints a line for each fault that is shown, those of the summary where it is, and one for the
    /// stream; or all of this as one JSON document, each fault on a line of its own. The lines of a piece's faults go out with it. The answer is the number of faults, or none where a read fails, and where
    /// 2^64 - 1 pieces are no end.
    pub fn read<R: Source, O: Write>(
        &mut self,
        alloc: Global,
        source: &mut R,
        out: &mut O,
    ) -> Result<Option<u64>, CommandFault>
        ensures { IfOk result (λ ended. IfSome ended (λ faults. faults ≡ self.new.faults)) }
    {
        self.begin(alloc, out)?;
        let mut piece = vec![in alloc; 0; PACKETS * self.size.stride()]?;
        for _ in 0..u64::MAX {
            let Some(count) = fill(source, piece.as_mut_slice()) else {
                return Ok(None);
            };
            let rest = self.analyse(&piece[..count])?;
            self.count(&piece[..count])?;
            self.print_found(alloc, None, out)?;
            if count < piece.len() {
                self.print_end(alloc, rest as u64, out)?;
                return Ok(Some(self.faults));
            }
        }
        Ok(None)
    }

    /// Analyses the packets of the next piece, without the bytes that follow each, and answers how many bytes are left at its end
    /// that are no whole packet.
    fn analyse(&mut self, piece: &[u8]) -> Result<usize, AllocError> {
        let mut rest = 0;
        for chunk in piece.chunks(self.size.stride()) {
            match chunk.first_chunk::<PACKET>() {
                Some(slot) => {
                    self.analyser.push(slot, &mut self.found)?;
                    self.slots = self.slots.saturating_add(1);
                }
                None => rest = chunk.len(),
            }
        }
        Ok(rest)
    }

    /// Counts for the summary, where it is shown, the packets of a piece and the faults that were found in it, and follows the levels by it,
    /// where these are.
    fn count(&mut self, piece: &[u8]) -> Result<(), AllocError> {
        if let Some(levels) = &mut self.levels {
            levels.see(piece, self.size.stride());
        }
        if let Some(summary) = &mut self.summary {
            summary.see(piece, self.size.stride());
            for fault in &self.found {
                summary.add(fault)?;
            }
        }
        Ok(())
    }

    /// The byte at which the slot of a fault begins: the one that is said, or where slots follow one another.
    fn byte_of(&self, fault: &Fault, byte: Option<u64>) -> u64 {
        match byte {
            Some(byte) => byte,
            None => fault.slot.saturating_mul(self.size.stride() as u64),
        }
    }

    /// Prints a line for each fault that was found and is shown, and counts all of them. Their slot begins at `byte`, where slots don't follow
    /// one another. The lines go out.
    fn print_found<O: Write>(
        &mut self,
        alloc: Global,
        byte: Option<u64>,
        out: &mut O,
    ) -> Result<(), CommandFault>
        ensures { IfOk result (λ _. self.new.faults
            ≡ min (self.old.faults + vec_len self.old.found) 18446744073709551615) }
    {
        let found = self.found.len();
        let shown = shown_of(self.shown.limit, self.faults, found);
        for (number, fault) in self.found[..shown].iter().enumerate() {
            let byte = self.byte_of(fault, byte);
            if self.shown.json {
                let is_first = self.faults == 0 && number == 0;
                print_member(alloc, fault, byte, self.rate, is_first, out)?;
            } else {
                print_told(fault, byte, self.rate, self.shown.places, out)?;
            }
        }
        if shown > 0 {
            out.flush()?;
        }
        self.faults = self.faults.saturating_add(found as u64);
        self.loss = self.loss.or(first_loss(&self.found));
        self.found.clear();
        Ok(())
    }

    /// Prints the summary, where it is shown, and the line of the stream, which has so many bytes after its last whole packet; or the end
    /// of the document.
    fn print_end<O: Write>(
        &self,
        alloc: Global,
        rest: u64,
        out: &mut O,
    ) -> Result<(), CommandFault> {
        if self.shown.json {
            return self.print_document_end(alloc, rest, out);
        }
        let (slots, faults) = (self.slots, self.faults);
        if let Some(summary) = &self.summary {
            summary.print(packets_rate(self.size, self.rate), slots, out)?;
        }
        if let Some(levels) = &self.levels {
            print_levels(levels, out)?;
        }
        writeln!(out, "slots {slots} faults {faults} rest {rest}")?;
        Ok(())
    }

    /// Prints the end of the document.
    fn print_document_end<O: Write>(
        &self,
        alloc: Global,
        rest: u64,
        out: &mut O,
    ) -> Result<(), CommandFault> {
        let (slots, faults) = (self.slots, self.faults);
        let rate = packets_rate(self.size, self.rate);
        let summary = match &self.summary {
            Some(summary) => Some(summary.document(alloc, rate, slots)?),
            None => None,
        };
        let levels = match &self.levels {
            Some(levels) => Some(LevelDocument::all_of(alloc, levels)?),
            None => None,
        };
        let end = EndDocument {
            slots,
            faults,
            rest,
            summary,
            levels,
        };
        write!(out, "],\"end\":")?;
        print_document(alloc, &end, out)?;
        writeln!(out, "}}")?;
        Ok(())
    }
}

/// The slot at which these faults say first that sync was lost.
fn first_loss(faults: &[Fault]) -> Option<u64> {
    let loss = faults
        .iter()
        .find(|fault| fault.kind == FaultKind::TsSyncLoss)?;
    Some(loss.slot)
}

/// How many of so many further faults have a line, where so many came before, and at most `limit` have one.
fn shown_of(limit: Option<u64>, before: u64, found: usize) -> usize
    ensures all { IfNone limit (result ≡ found) }
    ensures some { IfSome limit (λ most. result ≡ min found (most - before)) }
    ensures within { result ≤ found }
{
    match limit {
        Some(most) => most.saturating_sub(before).min(found as u64) as usize,
        None => found,
    }
}

/// Prints the line of a fault whose slot begins at this byte of a stream of this rate; where places are shown, it ends with that byte, and
/// when that comes, in milliseconds.
fn print_told<O: Write>(
    fault: &Fault,
    byte: u64,
    rate: u64,
    places: bool,
    out: &mut O,
) -> io::Result<()> {
    if !places {
        return writeln!(out, "{fault}");
    }
    let time = reached(0, rate, byte);
    writeln!(out, "{fault} byte {byte} ms {time}")
}

/// Prints a fault whose slot begins at this byte of a stream of this rate as a member of a document's list, the first one or one behind others.
fn print_member<O: Write>(
    alloc: Global,
    fault: &Fault,
    byte: u64,
    rate: u64,
    is_first: bool,
    out: &mut O,
) -> Result<(), CommandFault> {
    if !is_first {
        write!(out, ",")?;
    }
    print_document(alloc, &FaultDocument::of(fault, byte, rate), out)
}
