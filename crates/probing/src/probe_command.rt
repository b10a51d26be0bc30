//! The command that says what is in streams.

use crate::file_document::FileDocument;
use crate::file_survey::FileSurvey;
use crate::probe_answer::ProbeAnswer;
use crate::probe_document::ProbeDocument;
use crate::survey_file::survey_file;
use crate::survey_lines::print_survey;
use documents::print_document;
use draft::{Draft, Lack, LeftOut, Surveyed, make_draft};
use files::{CommandFault, FfmpegCommand, Sources, StreamShape};
use probe::Survey;
use std::alloc::{AllocError, Global};
use std::io::Write;

/// The status where a file has no packet, or no plan can be made.
const LACKING: u8 = 1;

/// Says of a file that has no packet what it looks like, and answers whether it has one.
fn print_shape<E: Write>(name: &str, survey: &Survey, shape: StreamShape, err: &mut E) -> bool {
    if survey.packets > 0 {
        return true;
    }
    let _ = writeln!(err, "{name}: {shape}");
    false
}

/// Says of a file of variable rate that no plan of it has right times, and by which command its first program gets a constant one.
fn tell_variable<E: Write>(number: usize, name: &str, found: &FileSurvey, err: &mut E) {
    if !found.is_variable() {
        return;
    }
    let _ = writeln!(
        err,
        "file {number} is of variable rate: its packets have no right times until null packets make it constant"
    );
    if let Some(program) = found.survey.programs.first()
        && let Some(command) = found.command(name, program.program_number)
    {
        let _ = writeln!(
            err,
            "file {number} gets them by ffmpeg, and other PIDs: {command}"
        );
    }
}

/// The commands of ffmpeg by which the programs of a file get a description, where its SDT has none: of each the program's number and
/// the command.
fn push_commands<'a>(
    file: usize,
    name: &'a str,
    found: &FileSurvey,
    commands: &mut Vec<(usize, FfmpegCommand<'a>)>,
) -> Result<(), AllocError> {
    for program in &found.survey.programs {
        if let Some(command) = found.command(name, program.program_number) {
            commands.push((file, command))?;
        }
    }
    Ok(())
}

/// Says what is left out of a plan, and of a program that isn't described how it gets a description.
fn tell_left_out<E: Write>(
    left_out: &LeftOut,
    commands: &[(usize, FfmpegCommand<'_>)],
    err: &mut E,
) {
    let _ = writeln!(err, "{left_out}");
    if left_out.lack != Lack::NoRow {
        return;
    }
    let found = commands.iter().find(|(file, command)| *file == left_out.file
        && Some(command.program) == left_out.program);
    if let Some((_, command)) = found {
        let _ = writeln!(
            err,
            "ffmpeg writes a file with one, and with other PIDs: {command}"
        );
    }
}

/// Prints a plan of all files, or says why there is none; the answer is the status.
fn print_draft<O: Write, E: Write>(
    alloc: Global,
    surveys: Vec<Surveyed<'_>>,
    commands: &[(usize, FfmpegCommand<'_>)],
    out: &mut O,
    err: &mut E,
) -> Result<u8, CommandFault> {
    let Draft { text, left_out } = make_draft(alloc, surveys)?;
    for lack in &left_out {
        tell_left_out(lack, commands, err);
    }
    let Some(text) = text else {
        let _ = writeln!(err, "no plan: none of the services can be taken");
        return Ok(LACKING);
    };
    write!(out, "{text}")?;
    Ok(0)
}

/// Says what is in the files with these names, each by its first 67,108,864 bytes, in lines or as JSON, or prints a plan of them. With a
/// plan, `err` has what is left out of it and why, which file is of variable rate, and commands of ffmpeg that mend these; and always which file has no packet, and what it
/// looks like. The answer is the status: 1 where a file has no packet, or no plan can be made. The first file that fails ends it.
pub fn probe_files<F: Sources, O: Write, E: Write>(
    alloc: Global,
    files: &mut F,
    names: &[&str],
    answer: ProbeAnswer,
    out: &mut O,
    err: &mut E,
) -> Result<u8, CommandFault> {
    let mut surveys = Vec::new(alloc);
    let mut commands = Vec::new(alloc);
    let mut documents = Vec::new(alloc);
    let mut status = 0;
    for (number, name) in names.iter().enumerate() {
        let file: &str = name;
        let found = survey_file(alloc, files, file)?;
        if !print_shape(file, &found.survey, found.shape, err) {
            status = LACKING;
        }
        match answer {
            ProbeAnswer::Lines => print_survey(number, file, found.shape, &found.survey, out)?,
            ProbeAnswer::Document => {
                documents.push(FileDocument::of(alloc, file, found.shape, &found.survey)?)?;
            }
            ProbeAnswer::Plan => {
                tell_variable(number, file, &found, err);
                push_commands(number, file, &found, &mut commands)?;
                let survey = found.survey;
                surveys.push(Surveyed { file, survey })?;
            }
        }
    }
    match answer {
        ProbeAnswer::Lines => {}
        ProbeAnswer::Document => print_document(alloc, &ProbeDocument::of(documents), out)?,
        ProbeAnswer::Plan => status = status.max(print_draft(alloc, surveys, &commands, out, err)?),
    }
    Ok(status)
}
