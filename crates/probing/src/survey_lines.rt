//! The lines of what was found in a stream.

use advice::reached;
use files::StreamShape;
use probe::{Codec, DvbText, Occurrences, PidSurvey, Survey, codec_of, language_of};
use std::fmt::Display;
use std::io::Write;
use std::{io, str};
use tables::{PatRow, Pmt, PmtRow, SdtRow, ServiceDescriptor};

/// Prints a word and what it says, or `-` where that isn't known.
fn print_known<T: Display + Drop, O: Write>(
    word: &str,
    known: Option<T>,
    out: &mut O,
) -> io::Result<()> {
    match known {
        Some(value) => write!(out, " {word} {value}"),
        None => write!(out, " {word} -"),
    }
}

/// `yes` or `no`.
fn answer(is_so: bool) -> &'static str {
    if is_so { "yes" } else { "no" }
}

/// The length of a stream's packets, if five stand in step.
pub(crate) fn packet_length(shape: StreamShape) -> Option<usize> {
    match shape {
        StreamShape::Packets(length) => Some(length),
        _ => None,
    }
}

/// Prints the line of a file: its packets and its rate.
fn print_file<O: Write>(
    number: usize,
    name: &str,
    shape: StreamShape,
    survey: &Survey,
    out: &mut O,
) -> io::Result<()> {
    let packets = survey.packets;
    write!(out, "file {number} packets {packets}")?;
    print_known("size", packet_length(shape), out)?;
    match survey.measured {
        Some(measured) => {
            let (rate, pid) = (measured.rate, measured.pid);
            let variable = answer(measured.is_variable);
            write!(out, " rate {rate} variable {variable} clock 0x{pid:04X}")?;
        }
        None => write!(out, " rate - variable - clock -")?,
    }
    writeln!(out, " name {name}")
}

/// Prints the line of a file's tables.
fn print_tables<O: Write>(survey: &Survey, out: &mut O) -> io::Result<()> {
    write!(out, "tables")?;
    for table in &survey.tables {
        write!(out, " {table}")?;
    }
    writeln!(out, "")
}

/// Prints what the PMT of a program says of it.
fn print_pmt<O: Write>(
    survey: &Survey,
    pmt: Option<&Pmt>,
    row: Option<&SdtRow>,
    out: &mut O,
) -> io::Result<()> {
    let Some(pmt) = pmt else {
        return write!(out, " pcr - scrambled -");
    };
    let pcr_pid = pmt.pcr_pid();
    let scrambled = answer(survey.is_scrambled(pmt, row));
    write!(out, " pcr 0x{pcr_pid:04X} scrambled {scrambled}")
}

/// What the SDT says of a program, by its row.
pub(crate) fn described(row: Option<&SdtRow>) -> Option<ServiceDescriptor<'_>> {
    ServiceDescriptor::first_in(&row?.descriptors)
}

/// Prints what the SDT says of a program.
fn print_description<O: Write>(row: Option<&SdtRow>, out: &mut O) -> io::Result<()> {
    let Some(described) = described(row) else {
        return writeln!(out, " type - name -");
    };
    let service_type = described.service_type;
    let name = DvbText(described.service_name);
    writeln!(out, " type 0x{service_type:02X} name {name}")
}

/// A language's code as text; none where it isn't three letters or digits.
fn code_text(code: &[u8]) -> Option<&str> {
    if !code.iter().all(|byte| byte.is_ascii_alphanumeric()) {
        return None;
    }
    str::from_utf8(code).ok()
}

/// The language of a stream as text.
pub(crate) fn language(row: &PmtRow) -> Option<&str> {
    code_text(language_of(&row.descriptors)?)
}

/// Prints the line of a stream of a program.
fn print_stream<O: Write>(
    survey: &Survey,
    program: u16,
    row: &PmtRow,
    out: &mut O,
) -> io::Result<()> {
    let (pid, stream_type) = (row.elementary_pid, row.stream_type);
    let codec: Codec = codec_of(row);
    let scrambled = answer(survey.is_scrambled_stream(row));
    write!(
        out,
        "stream 0x{pid:04X} program {program} type 0x{stream_type:02X}"
    )?;
    print_known("language", language(row), out)?;
    writeln!(out, " scrambled {scrambled} codec {codec}")
}

/// Prints the lines of a program: its own, and one for each of its streams.
fn print_program<O: Write>(
    survey: &Survey,
    place: usize,
    program: &PatRow,
    out: &mut O,
) -> io::Result<()> {
    let (number, pmt_pid) = (program.program_number, program.pid);
    let pmt = survey.pmt(place);
    let row = survey.row(number);
    write!(out, "program {number} pmt 0x{pmt_pid:04X}")?;
    print_pmt(survey, pmt, row, out)?;
    print_description(row, out)?;
    if let Some(pmt) = pmt {
        for row in pmt.rows() {
            print_stream(survey, number, row, out)?;
        }
    }
    Ok(())
}

/// Prints how often something is wrong on a PID, if it is, and where first: the number of the packet, the byte at which it begins, and when
/// that comes at the stream's rate, in milliseconds.
fn print_trouble<O: Write>(
    pid: u16,
    word: &str,
    trouble: Occurrences,
    rate: Option<u64>,
    out: &mut O,
) -> io::Result<()> {
    let Some(first) = trouble.first else {
        return Ok(());
    };
    let (count, packet, byte) = (trouble.count, first.packet, first.position);
    write!(
        out,
        "trouble 0x{pid:04X} {word} {count} packet {packet} byte {byte}"
    )?;
    print_known("ms", rate.map(|rate| reached(0, rate, byte)), out)?;
    writeln!(out, "")
}

/// What may be wrong on a PID, each by its word.
pub(crate) fn troubles_of(survey: &PidSurvey) -> [(&'static str, Occurrences); 6] {
    [
        ("error", survey.errors),
        ("crc", survey.wrong_sections),
        ("late", survey.late_pcrs),
        ("jump", survey.pcr_jumps),
        ("scrambled", survey.scrambled),
        ("unreferenced", survey.unreferenced),
    ]
}

/// Prints the line of a PID, and those of what is wrong there.
fn print_pid<O: Write>(survey: &PidSurvey, rate: Option<u64>, out: &mut O) -> io::Result<()> {
    let (pid, packets) = (survey.pid, survey.packets);
    write!(out, "pid 0x{pid:04X} packets {packets}")?;
    print_known("rate", survey.rate, out)?;
    print_known("highest", survey.highest, out)?;
    let pcrs = survey.pcrs;
    write!(out, " pcrs {pcrs}")?;
    print_known("jitter", survey.jitter, out)?;
    writeln!(out, "")?;
    for (word, trouble) in troubles_of(survey) {
        print_trouble(pid, word, trouble, rate, out)?;
    }
    Ok(())
}

/// Prints the lines of the file with this number and name, which looks like this: one for the file, one for its tables, those of its
/// programs, and those of each PID that has packets.
pub(crate) fn print_survey<O: Write>(
    number: usize,
    name: &str,
    shape: StreamShape,
    survey: &Survey,
    out: &mut O,
) -> io::Result<()> {
    print_file(number, name, shape, survey, out)?;
    print_tables(survey, out)?;
    for (place, program) in survey.programs.iter().enumerate() {
        print_program(survey, place, program, out)?;
    }
    let rate = survey.measured.map(|measured| measured.rate);
    for pid in &survey.pids {
        print_pid(pid, rate, out)?;
    }
    Ok(())
}
