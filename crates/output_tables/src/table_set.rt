//! The output's tables.

ghost use Rattle.std.specs.Prelude.{◌≡◌, [], ◌∷◌, ◌++◌, IfOk};
ghost use Rattle.std.specs.List.{All, flat_map};
ghost use Rattle.tspkt.specs.Packet.{IsPacket};
ghost use Rattle.output_tables.specs.OnPid.{packets_on_pid};

use crate::output_section::OutputSection;
use crate::output_sections::{nit_section, pat_section, pmt_sections, sdt_sections};
use request::Request;
use selection::ChosenService;
use std::alloc::{AllocError, Global};
use std::marker::Model;
use tables::WriteFault;
use tspkt::Packet;

/// The output's tables: their sections, each on its PID, and the packets that they take. Contracts see the sections;
/// the packets are those of the sections, one behind the other.
#[derive(Drop)]
pub struct TableSet {
    pat: OutputSection,
    pmts: Vec<OutputSection>,
    sdt: Vec<OutputSection>,
    nit: OutputSection,
    fast: Vec<Packet>,
    slow: Vec<Packet>,
}

impl Model for TableSet {
    ghost use Rattle.std.specs.Prelude.{◌≡◌, [], ◌∷◌, ◌++◌};
    ghost use Rattle.std.specs.List.{flat_map};
    ghost use Rattle.output_tables.specs.OnPid.{packets_on_pid};
    ghost use Rattle.output_tables.specs.TableSet.{TableSetValue};

    ghost Value = { TableSetValue };

    ghost view = { λ t. record { pat = t.pat; pmts = t.pmts.items; sdt = t.sdt.items; nit = t.nit } };

    ghost invariant = { λ t. (t.fast.items ≡ flat_map packets_on_pid (t.pat ∷ t.pmts.items))
        × (t.slow.items ≡ flat_map packets_on_pid (t.sdt.items ++ t.nit ∷ [])) };
}

impl TableSet {
    ghost use Rattle.std.specs.Prelude.{◌≡◌, map, IfOk, IfErr};
    ghost use Rattle.request.specs.Request.{IsRequest};
    ghost use Rattle.selection.specs.ChosenView.{chosen_value};
    ghost use Rattle.selection.specs.Chosen.{AreServicesOf, AreInputRows};
    ghost use Rattle.output_tables.specs.Room.{HaveRoom};
    ghost use Rattle.output_tables.specs.TableSet.{IsTableSet, fast_packets, slow_packets};

    /// The tables for these services, one for each of the request. None must be too large, which `is_too_large` tells.
    /// It fails only for want of memory.
    pub fn new(
        alloc: Global,
        request: &Request,
        chosen: &[ChosenService],
    ) -> Result<TableSet, AllocError>
        requires request { IsRequest request.now }
        requires services { AreServicesOf request.now (map chosen_value chosen.now) }
        requires rows { AreInputRows (map chosen_value chosen.now) }
        requires room { HaveRoom request.now (map chosen_value chosen.now) }
        ensures { IfOk result (IsTableSet request.now (map chosen_value chosen.now)) }
    {
        match TableSet::write(alloc, request, chosen) {
            Ok(tables) => Ok(tables),
            Err(WriteFault::Memory) => Err(AllocError),
            Err(WriteFault::TooLarge) => unreachable!(),
        }
    }

    /// The tables for these services, of which none is too large.
    fn write(
        alloc: Global,
        request: &Request,
        chosen: &[ChosenService],
    ) -> Result<TableSet, WriteFault>
        requires request { IsRequest request.now }
        requires services { AreServicesOf request.now (map chosen_value chosen.now) }
        requires rows { AreInputRows (map chosen_value chosen.now) }
        requires room { HaveRoom request.now (map chosen_value chosen.now) }
        ensures tables { IfOk result (IsTableSet request.now (map chosen_value chosen.now)) }
        ensures memory { IfErr result (λ e. e ≡ WriteFault.Memory) }
    {
        let pat = pat_section(alloc, request, chosen)?;
        let pmts = pmt_sections(alloc, request, chosen)?;
        let sdt = sdt_sections(alloc, request, chosen)?;
        let nit = nit_section(alloc, request, chosen)?;
        let fast = packets_behind(alloc, &pat, &pmts)?;
        let slow = packets_before(alloc, &sdt, &nit)?;
        Ok(TableSet {
            pat,
            pmts,
            sdt,
            nit,
            fast,
            slow,
        })
    }

    /// An equal set. It fails only for want of memory.
    pub fn copy(&self, alloc: Global) -> Result<TableSet, AllocError>
        ensures { IfOk result (λ copy. copy ≡ self.now) }
    {
        Ok(TableSet {
            pat: self.pat.copy(alloc)?,
            pmts: copied_sections(alloc, &self.pmts)?,
            sdt: copied_sections(alloc, &self.sdt)?,
            nit: self.nit.copy(alloc)?,
            fast: Vec::from_slice(alloc, &self.fast)?,
            slow: Vec::from_slice(alloc, &self.slow)?,
        })
    }

    /// The packets of the PAT and, in the order of the services, of the PMTs: whole packets, each with the counter 0.
    pub fn fast_packets(&self) -> &[Packet]
        ensures { result.now ≡ fast_packets self.now }
    {
        &self.fast
    }

    /// The packets of the SDT and, behind them, of the NIT: whole packets, each with the counter 0.
    pub fn slow_packets(&self) -> &[Packet]
        ensures { result.now ≡ slow_packets self.now }
    {
        &self.slow
    }
}

/// Equal sections.
fn copied_sections(
    alloc: Global,
    sections: &[OutputSection],
) -> Result<Vec<OutputSection>, AllocError>
    ensures { IfOk result (λ v. v.items ≡ sections.now) }
{
    let mut copies = Vec::with_capacity(alloc, sections.len())?;
    for section in sections {
        copies.push_reserved(section.copy(alloc)?);
    }
    Ok(copies)
}

/// Puts the packets of the sections behind others.
fn push_all(
    alloc: Global,
    sections: &[OutputSection],
    packets: &mut Vec<Packet>,
) -> Result<(), AllocError>
    ensures value { IfOk result (λ _.
        packets.new.items ≡ packets.old.items ++ flat_map packets_on_pid sections.now) }
    ensures whole { IfOk result (λ _. All IsPacket (flat_map packets_on_pid sections.now)) }
{
    for section in sections {
        section.push_packets(alloc, packets)?;
    }
    Ok(())
}

/// The packets of a section and of those behind it.
fn packets_behind(
    alloc: Global,
    first: &OutputSection,
    others: &[OutputSection],
) -> Result<Vec<Packet>, AllocError>
    ensures value { IfOk result (λ v. v.items ≡ flat_map packets_on_pid (first.now ∷ others.now)) }
    ensures whole { IfOk result (λ v. All IsPacket v.items) }
{
    let mut packets = Vec::new(alloc);
    first.push_packets(alloc, &mut packets)?;
    push_all(alloc, others, &mut packets)?;
    Ok(packets)
}

/// The packets of some sections and of one behind them.
fn packets_before(
    alloc: Global,
    others: &[OutputSection],
    last: &OutputSection,
) -> Result<Vec<Packet>, AllocError>
    ensures value { IfOk result (λ v. v.items ≡ flat_map packets_on_pid (others.now ++ last.now ∷ [])) }
    ensures whole { IfOk result (λ v. All IsPacket v.items) }
{
    let mut packets = Vec::new(alloc);
    push_all(alloc, others, &mut packets)?;
    last.push_packets(alloc, &mut packets)?;
    Ok(packets)
}
