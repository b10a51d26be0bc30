//! Why a command fails.

use crate::file_cause::FileCause;
use request::PlanFault;
use std::alloc::{AllocError, AllocFailed, Global};
use std::io;

/// Why a command fails, past its words.
#[derive(Debug, Drop)]
pub enum CommandFault {
    /// The plan is refused, for another reason than want of memory.
    Plan(PlanFault),
    /// The same, with its cause in words.
    PlanCause(PlanFault, String),
    /// The file with this name fails.
    File(String, FileCause),
    /// What is printed can't be written.
    Print(io::Error),
    /// There is no memory.
    Memory,
}

/// Prints the line of a plan's fault, and a second one that says it in words.
fn print_plan_fault<E: io::Write>(fault: &PlanFault, err: &mut E) -> io::Result<()> {
    let number = fault.number();
    writeln!(err, "fault {number} {fault:?}")?;
    writeln!(err, "{fault}")
}

/// How a file that failed is called in words: by its name, if it has one, and `-` where it is written by what it is.
fn shown_name<'a>(name: &'a str, cause: &FileCause) -> &'a str {
    match name {
        "" => "the name is empty",
        "-" if cause.is_of_write() => "standard output",
        _ => name,
    }
}

impl CommandFault {
    /// That of a file.
    pub fn file(alloc: Global, name: &str, cause: FileCause) -> CommandFault {
        if cause.is_memory() {
            return CommandFault::Memory;
        }
        match String::from_str(alloc, name) {
            Ok(name) => CommandFault::File(name, cause),
            Err(_) => CommandFault::Memory,
        }
    }

    /// The status with which the program ends.
    pub fn status(&self) -> u8 {
        match self {
            CommandFault::Plan(_) | CommandFault::PlanCause(..) => 3,
            CommandFault::File(..) | CommandFault::Print(_) => 4,
            CommandFault::Memory => 5,
        }
    }

    /// Prints the fault's line, and after that of a plan or a file a second one that says it in words.
    pub fn print<E: io::Write>(&self, err: &mut E) -> io::Result<()> {
        match self {
            CommandFault::Plan(fault) => print_plan_fault(fault, err),
            CommandFault::PlanCause(fault, cause) => {
                print_plan_fault(fault, err)?;
                writeln!(err, "{cause}")
            }
            CommandFault::File(name, cause) => {
                writeln!(err, "fault file {name}")?;
                writeln!(err, "{}: {cause}", shown_name(name, cause))
            }
            CommandFault::Print(error) => {
                writeln!(err, "fault file standard output")?;
                writeln!(err, "standard output: {}", FileCause::of_write(*error))
            }
            CommandFault::Memory => writeln!(err, "fault memory"),
        }
    }
}

impl From<PlanFault> for CommandFault {
    fn from(fault: PlanFault) -> CommandFault {
        match fault {
            PlanFault::Memory => CommandFault::Memory,
            other => CommandFault::Plan(other),
        }
    }
}

impl From<io::Error> for CommandFault {
    fn from(error: io::Error) -> CommandFault {
        CommandFault::Print(error)
    }
}

impl From<AllocError> for CommandFault {
    fn from(_error: AllocError) -> CommandFault {
        CommandFault::Memory
    }
}

impl<T: Drop> From<AllocFailed<T>> for CommandFault {
    fn from(_error: AllocFailed<T>) -> CommandFault {
        CommandFault::Memory
    }
}
