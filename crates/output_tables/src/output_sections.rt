//! The sections of the output's tables.

ghost use Rattle.std.specs.Prelude.{◌≡◌, ◌+◌, ◌*◌, ◌<◌, ◌≤◌, ◌^◌, length, map, IfOk, IfErr};
ghost use Rattle.std.specs.List.{AllZip};
ghost use Rattle.tables.specs.Pmt.{pmt_section_length_of};
ghost use Rattle.tables.specs.Nit.{nit_section_length_of};
ghost use Rattle.tables.specs.Sdt.{sdt_section_length_of};
ghost use Rattle.request.specs.Request.{IsRequest};
ghost use Rattle.selection.specs.ChosenView.{chosen_value};
ghost use Rattle.output_tables.specs.Output.{output_pat, output_pmt, output_sdt, output_nit};
ghost use Rattle.selection.specs.Chosen.{AreServicesOf, AreInputRows};
ghost use Rattle.output_tables.specs.Room.{AreInRoom, HavePmtsRoom};
ghost use Rattle.output_tables.specs.TableSet.{IsSectionFor, IsPatSection, IsNitSection, IsPmtFor, IsSdtFor};

use crate::output_nit::output_nit;
use crate::output_pat::output_pat;
use crate::output_pmt::output_pmt;
use crate::output_sdt::output_sdt;
use crate::output_section::OutputSection;
use request::Request;
use selection::ChosenService;
use std::alloc::Global;
use tables::{Sdt, WriteFault};

/// The PID of the PAT (ISO/IEC 13818-1, 2.4.4.3).
const PAT_PID: u16 = 0x0000;

/// The PID of the NIT (EN 300 468, 5.1.3).
const NIT_PID: u16 = 0x0010;

/// The PID of the SDT (EN 300 468, 5.1.3).
const SDT_PID: u16 = 0x0011;

/// The PAT.
pub fn pat_section(
    alloc: Global,
    request: &Request,
    chosen: &[ChosenService],
) -> Result<OutputSection, WriteFault>
    requires request { IsRequest request.now }
    requires services { AreServicesOf request.now (map chosen_value chosen.now) }
    ensures section { IfOk result (IsSectionFor IsPatSection 0x0000 (9 + 4 * (1 + length chosen.now))
        (output_pat request.now (map chosen_value chosen.now))) }
    ensures memory { IfErr result (λ e. e ≡ WriteFault.Memory) }
{
    let bytes = output_pat(alloc, request, chosen)?.write(alloc)?;
    Ok(OutputSection::new(PAT_PID, bytes))
}

/// The NIT, which must not be too large.
pub fn nit_section(
    alloc: Global,
    request: &Request,
    chosen: &[ChosenService],
) -> Result<OutputSection, WriteFault>
    requires request { IsRequest request.now }
    requires services { AreServicesOf request.now (map chosen_value chosen.now) }
    requires room { nit_section_length_of (output_nit request.now (map chosen_value chosen.now)) ≤ 1021 }
    ensures section { IfOk result (IsSectionFor IsNitSection 0x0010
        (nit_section_length_of (output_nit request.now (map chosen_value chosen.now)))
        (output_nit request.now (map chosen_value chosen.now))) }
    ensures memory { IfErr result (λ e. e ≡ WriteFault.Memory) }
{
    let bytes = output_nit(alloc, request, chosen)?.write(alloc)?;
    Ok(OutputSection::new(NIT_PID, bytes))
}

/// The PMT of a service, which must not be too large.
fn pmt_section(
    alloc: Global,
    request: &Request,
    chosen: &ChosenService,
) -> Result<OutputSection, WriteFault>
    requires request { IsRequest request.now }
    requires pid { chosen.now.service.now.pmt < 2 ^ 13 }
    requires room { pmt_section_length_of (output_pmt request.now (chosen_value chosen.now)) ≤ 1021 }
    ensures section { IfOk result (λ s. IsPmtFor request.now s (chosen_value chosen.now)) }
    ensures memory { IfErr result (λ e. e ≡ WriteFault.Memory) }
{
    let bytes = output_pmt(alloc, request, chosen)?.write(alloc)?;
    Ok(OutputSection::new(chosen.service.pmt, bytes))
}

/// The PMTs in the order of the services. None must be too large.
pub fn pmt_sections(
    alloc: Global,
    request: &Request,
    chosen: &[ChosenService],
) -> Result<Vec<OutputSection>, WriteFault>
    requires request { IsRequest request.now }
    requires services { AreServicesOf request.now (map chosen_value chosen.now) }
    requires room { HavePmtsRoom request.now (map chosen_value chosen.now) }
    ensures sections { IfOk result (λ v. AllZip (IsPmtFor request.now) v.items (map chosen_value chosen.now)) }
    ensures memory { IfErr result (λ e. e ≡ WriteFault.Memory) }
{
    let mut sections = Vec::with_capacity(alloc, chosen.len())?;
    for service in chosen {
        sections.push_reserved(pmt_section(alloc, request, service)?);
    }
    Ok(sections)
}

/// A section of the SDT, which must not be too large.
fn sdt_section(alloc: Global, table: &Sdt) -> Result<OutputSection, WriteFault>
    requires { sdt_section_length_of table.now ≤ 1021 }
    ensures section { IfOk result (λ s. IsSdtFor s table.now) }
    ensures memory { IfErr result (λ e. e ≡ WriteFault.Memory) }
{
    let bytes = table.write(alloc)?;
    Ok(OutputSection::new(SDT_PID, bytes))
}

/// The sections of the SDT. No row must be too large for a section.
pub fn sdt_sections(
    alloc: Global,
    request: &Request,
    chosen: &[ChosenService],
) -> Result<Vec<OutputSection>, WriteFault>
    requires request { IsRequest request.now }
    requires services { AreServicesOf request.now (map chosen_value chosen.now) }
    requires rows { AreInputRows (map chosen_value chosen.now) }
    requires room { AreInRoom (map chosen_value chosen.now) }
    ensures sections { IfOk result (λ v. AllZip IsSdtFor v.items (output_sdt request.now (map chosen_value chosen.now))) }
    ensures memory { IfErr result (λ e. e ≡ WriteFault.Memory) }
{
    let tables = output_sdt(alloc, request, chosen)?;
    let mut sections = Vec::with_capacity(alloc, tables.len())?;
    for table in &tables {
        sections.push_reserved(sdt_section(alloc, table)?);
    }
    Ok(sections)
}
