//! What is in a stream, packet by packet.

ghost use Rattle.std.specs.Prelude.{◌≡◌, map, IfOk};
ghost use Rattle.tables.specs.declared.pat_row.PatRow.{PatRow as ProgramRow};
ghost use Rattle.probe.specs.Probing.{sighting_of as sighting_said};

use crate::pcr_watches::PcrWatches;
use crate::pid_counts::PidCounts;
use crate::place::Place;
use crate::section_watches::SectionWatches;
use crate::sighting::Sighting;
use crate::survey::Survey;
use crate::surveying::{Kept, survey_pids, tables_in};
use acquire::Acquire;
use rate_meter::{RateMeter, Reading};
use std::alloc::{AllocError, Global};
use std::marker::Model;
use tables::PatRow;
use tspkt::{Packet, PacketSize};

/// Reads the packets of a stream, from its first one on, and keeps what is asked of them. Contracts see what was counted of them, newest
/// first, and what was found in them.
#[derive(Drop)]
pub struct Probe {
    size: PacketSize,
    programs: Vec<PatRow>,
    acquire: Acquire,
    sections: SectionWatches,
    counts: PidCounts,
    pcrs: PcrWatches,
}

impl Model for Probe {
    ghost use Rattle.probe.specs.Probing.{ProbeValue};

    ghost Value = { ProbeValue };

    ghost view = { λ p. record { programs = p.programs.items; seen = p.counts; acquire = p.acquire } };
}

/// The numbers of programs, in their order.
fn numbers(alloc: Global, programs: &[PatRow]) -> Result<Vec<u16>, AllocError>
    ensures { IfOk result (λ v. v.items ≡ map (λ (r : ProgramRow). r.program_number) programs.now) }
{
    programs.iter().map(|row| row.program_number).collect(alloc)
}

/// What is counted of a packet at this place.
fn sighting_of(place: Place, packet: &Packet) -> Sighting
    ensures { result ≡ sighting_said place packet.now }
{
    let has_error = packet.bytes()[1] / 128 % 2 == 1;
    Sighting {
        pid: packet.pid(),
        is_scrambled: !has_error && packet.scrambling() != 0,
        has_error,
        place,
    }
}

/// The PCR of a packet at this position.
fn reading_of(position: u64, packet: &Packet) -> Option<Reading> {
    let pcr = packet.pcr()?;
    Some(Reading {
        position,
        pcr,
        is_discontinuous: packet.discontinuity(),
    })
}

impl Probe {
    ghost use Rattle.std.specs.Prelude.{◌≡◌, ◌∷◌, [], map, length, IfOk, OnOk, OnErr};
    ghost use Rattle.tables.specs.declared.pat_row.PatRow.{PatRow as ProgramRow};
    ghost use Rattle.acquire.specs.Seen.{HasSeen, Sees, IsFound};
    ghost use Rattle.rate_meter.specs.Line.{within_64};
    ghost use Rattle.probe.specs.Probing.{sighting_of as sighting_said, place_behind, AreSurveyed};

    /// One that has seen no packet of a stream of this size that has these programs. An `Err` is want of memory.
    pub fn new(alloc: Global, size: PacketSize, programs: Vec<PatRow>) -> Result<Probe, AllocError>
        ensures seen { IfOk result (λ p. p.seen ≡ []) }
        ensures programs { IfOk result (λ p. p.programs ≡ programs.items) }
        ensures acquire { IfOk result (λ p.
            HasSeen (map (λ (r : ProgramRow). r.program_number) programs.items) p.acquire []) }
    {
        let acquire = Acquire::new(alloc, &numbers(alloc, &programs)?)?;
        let sections = SectionWatches::new(alloc, &programs)?;
        Ok(Probe {
            size,
            programs,
            acquire,
            sections,
            counts: PidCounts::new(alloc)?,
            pcrs: PcrWatches::new(alloc),
        })
    }

    /// Reads the next packet, whose first byte is at this position in the stream, in bytes. An `Err` is want of memory: the packet isn't
    /// counted, and what was found may be forgotten.
    pub fn push(&mut self, position: u64, packet: &Packet) -> Result<(), AllocError>
        ensures seen { OnOk result (self.new.seen
            ≡ sighting_said (place_behind self.old.seen position) packet.now ∷ self.old.seen) }
        ensures unseen { OnErr result (self.new.seen ≡ self.old.seen) }
        ensures programs { self.new.programs ≡ self.old.programs }
        ensures acquire { OnOk result (Sees self.old.acquire packet.now self.new.acquire) }
    {
        let place = Place {
            packet: self.counts.packets(),
            position,
        };
        let sighting = sighting_of(place, packet);
        if !sighting.has_error {
            self.read(packet, place)?;
        }
        self.acquire.push(packet)?;
        self.counts.add(sighting);
        Ok(())
    }

    /// Reads the PCR and the sections of a packet. Nothing more is told of one with the transport_error_indicator (ETSI TR 101 290, 2.1).
    fn read(&mut self, packet: &Packet, place: Place) -> Result<(), AllocError>
        ensures seen { self.new.seen ≡ self.old.seen }
        ensures programs { self.new.programs ≡ self.old.programs }
        ensures acquire { self.new.acquire ≡ self.old.acquire }
    {
        if let Some(reading) = reading_of(place.position, packet) {
            self.pcrs.add(packet.pid(), reading, place)?;
        }
        self.sections.push(packet, place)
    }

    /// What was found, with the rates that this meter measured of the stream's bytes. An `Err` is want of memory.
    pub fn into_survey(
        mut self,
        alloc: Global,
        meter: Option<&RateMeter>,
    ) -> Result<Survey, AllocError>
        ensures packets { IfOk result (λ s. s.packets ≡ within_64 (length self.seen)) }
        ensures programs { IfOk result (λ s. s.programs.items ≡ self.programs) }
        ensures found { IfOk result (λ s. IsFound self.acquire s.found) }
        ensures pids { IfOk result (λ s. AreSurveyed self.seen s.pids.items) }
    {
        let (has_pat, is_whole) = match self.acquire.pat() {
            Some(pat) => (true, self.sections.add_pat(pat, &self.programs)),
            None => (false, false),
        };
        let found = self.acquire.found();
        let knows_references = is_whole && self.sections.add_programs(&found.pmts);
        let pids = survey_pids(
            alloc,
            &Kept {
                size: self.size,
                counts: &self.counts,
                pcrs: &self.pcrs,
                sections: &self.sections,
                meter,
                knows_references,
            },
        )?;
        Ok(Survey {
            size: self.size,
            packets: self.counts.packets(),
            measured: match meter {
                Some(meter) => meter.measured(),
                None => None,
            },
            tables: tables_in(alloc, has_pat, &found, &self.sections)?,
            programs: self.programs,
            found,
            pids,
        })
    }
}
