//! Calls on tables.

use crate::printed::{print_digits, yes_or_no};
use anyhow::Result;
use std::alloc::Global;
use std::io;
use std::io::Write;
use tables::{
    DescriptorLoop, Header, Nit, NitRow, Pat, PatRow, Pmt, PmtRow, Sdt, SdtRow, ServiceDescriptor,
    TableFault, WriteFault, are_whole, has_ca_descriptor,
};

/// `pat BYTES`, `pmt`, `nit` or `sdt`: what the table has, and whether it is written as it was; or its fault.
pub fn table<W: Write>(alloc: Global, name: &str, bytes: &[u8], out: &mut W) -> io::Result<()> {
    match name {
        "pat" => pat(alloc, bytes, out),
        "pmt" => pmt(alloc, bytes, out),
        "nit" => nit(alloc, bytes, out),
        _ => sdt(alloc, bytes, out),
    }
}

fn print_fault<W: Write>(fault: TableFault, out: &mut W) -> io::Result<()> {
    write!(out, "{fault:?}: {fault}")
}

fn print_header<W: Write>(header: Header, out: &mut W) -> io::Result<()> {
    write!(
        out,
        "extension {} version {} current {} ",
        header.table_id_extension,
        header.version_number,
        yes_or_no(header.current_next_indicator)
    )?;
    write!(
        out,
        "section {} of {}:",
        header.section_number, header.last_section_number
    )
}

/// Prints whether a table was written as it was.
fn print_end<W: Write>(
    written: Result<Vec<u8>, WriteFault>,
    bytes: &[u8],
    out: &mut W,
) -> io::Result<()> {
    let told = match written {
        Ok(written) => yes_or_no(written.as_slice() == bytes),
        Err(_) => "refused",
    };
    write!(out, " written again: {told}")
}

/// Prints descriptors in brackets.
fn print_descriptors<W: Write>(descriptors: &DescriptorLoop, out: &mut W) -> io::Result<()> {
    write!(out, " [")?;
    print_digits(descriptors.bytes(), out)?;
    write!(out, "]")
}

fn print_pat<W: Write>(pat: &Pat, out: &mut W) -> io::Result<()> {
    print_header(pat.header(), out)?;
    for row in pat.rows() {
        let PatRow {
            program_number,
            pid,
        } = *row;
        write!(out, " {program_number} 0x{pid:04x},")?;
    }
    Ok(())
}

fn pat<W: Write>(alloc: Global, bytes: &[u8], out: &mut W) -> io::Result<()> {
    match Pat::read(alloc, bytes) {
        Ok(pat) => {
            print_pat(&pat, out)?;
            print_end(pat.write(alloc), bytes, out)
        }
        Err(fault) => print_fault(fault, out),
    }
}

/// Prints an elementary stream of a PMT.
fn print_pmt_row<W: Write>(row: &PmtRow, out: &mut W) -> io::Result<()> {
    write!(out, " {} 0x{:04x}", row.stream_type, row.elementary_pid)?;
    print_descriptors(&row.descriptors, out)?;
    write!(out, ",")
}

fn print_pmt<W: Write>(pmt: &Pmt, out: &mut W) -> io::Result<()> {
    print_header(pmt.header(), out)?;
    write!(out, " PCR 0x{:04x}", pmt.pcr_pid())?;
    print_descriptors(pmt.program_info(), out)?;
    for row in pmt.rows() {
        print_pmt_row(row, out)?;
    }
    Ok(())
}

fn pmt<W: Write>(alloc: Global, bytes: &[u8], out: &mut W) -> io::Result<()> {
    match Pmt::read(alloc, bytes) {
        Ok(pmt) => {
            print_pmt(&pmt, out)?;
            print_end(pmt.write(alloc), bytes, out)
        }
        Err(fault) => print_fault(fault, out),
    }
}

/// Prints a transport stream of an NIT.
fn print_nit_row<W: Write>(row: &NitRow, out: &mut W) -> io::Result<()> {
    let (stream, network) = (row.transport_stream_id, row.original_network_id);
    write!(out, " {stream} of {network}")?;
    print_descriptors(&row.descriptors, out)?;
    write!(out, ",")
}

fn print_nit<W: Write>(nit: &Nit, out: &mut W) -> io::Result<()> {
    print_header(nit.header(), out)?;
    print_descriptors(nit.network_descriptors(), out)?;
    for row in nit.rows() {
        print_nit_row(row, out)?;
    }
    Ok(())
}

fn nit<W: Write>(alloc: Global, bytes: &[u8], out: &mut W) -> io::Result<()> {
    match Nit::read(alloc, bytes) {
        Ok(nit) => {
            print_nit(&nit, out)?;
            print_end(nit.write(alloc), bytes, out)
        }
        Err(fault) => print_fault(fault, out),
    }
}

/// Prints a service of an SDT.
fn print_sdt_row<W: Write>(row: &SdtRow, out: &mut W) -> io::Result<()> {
    write!(
        out,
        " {} schedule {} present {} ",
        row.service_id,
        yes_or_no(row.eit_schedule_flag),
        yes_or_no(row.eit_present_following_flag)
    )?;
    let (status, scrambled) = (row.running_status, yes_or_no(row.free_ca_mode));
    write!(out, "status {status} scrambled {scrambled} ")?;
    print_service(&row.descriptors, out)?;
    write!(out, ",")
}

fn print_sdt<W: Write>(sdt: &Sdt, out: &mut W) -> io::Result<()> {
    print_header(sdt.header(), out)?;
    write!(out, " network {}", sdt.original_network_id())?;
    for row in sdt.rows() {
        print_sdt_row(row, out)?;
    }
    Ok(())
}

fn sdt<W: Write>(alloc: Global, bytes: &[u8], out: &mut W) -> io::Result<()> {
    match Sdt::read(alloc, bytes) {
        Ok(sdt) => {
            print_sdt(&sdt, out)?;
            print_end(sdt.write(alloc), bytes, out)
        }
        Err(fault) => print_fault(fault, out),
    }
}

/// Prints the first service descriptor whose lengths fill it: its type, and the names of its provider and its own in hex digits.
fn print_service<W: Write>(descriptors: &DescriptorLoop, out: &mut W) -> io::Result<()> {
    let Some(found) = ServiceDescriptor::first_in(descriptors) else {
        return write!(out, "no service descriptor");
    };
    write!(out, "service type {} [", found.service_type)?;
    print_digits(found.service_provider_name, out)?;
    write!(out, "] [")?;
    print_digits(found.service_name, out)?;
    write!(out, "]")
}

/// `descriptors BYTES`: whether they are whole descriptors, and then whether there is a CA descriptor among them, and the first service
/// descriptor.
pub fn descriptors<W: Write>(alloc: Global, bytes: &[u8], out: &mut W) -> Result<()> {
    let whole = yes_or_no(are_whole(bytes));
    match DescriptorLoop::from_bytes(bytes.to_vec(alloc)?) {
        Ok(descriptors) => {
            let ca = yes_or_no(has_ca_descriptor(&descriptors));
            write!(out, "whole {whole}, CA {ca}, ")?;
            print_service(&descriptors, out)?;
        }
        Err(back) => {
            let same = yes_or_no(back.as_slice() == bytes);
            write!(out, "whole {whole}, came back {same}")?;
        }
    }
    Ok(())
}
