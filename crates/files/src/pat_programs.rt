//! The programs of an input's PAT, for the words of a fault.

ghost use Rattle.std.specs.Prelude.{◌≡◌, ◌++◌, IfOk, OnOk};
ghost use Rattle.files.specs.PatPrograms.{programs_of, rows_of};

use std::alloc::{AllocError, Global};
use std::fmt;
use std::fmt::{Display, Formatter};
use tables::{Pat, PatRow};

/// How many programs are told by their numbers.
const TOLD: usize = 20;

/// The numbers of the programs that the first complete PAT of an input has, in its order; none where no PAT was complete.
#[derive(Drop)]
pub(crate) struct PatPrograms {
    pub numbers: Option<Vec<u16>>,
}

/// Adds the programs of some rows.
fn push_programs(numbers: &mut Vec<u16>, rows: &[PatRow]) -> Result<(), AllocError>
    ensures { OnOk result (numbers.new.items ≡ numbers.old.items ++ programs_of rows.now) }
{
    for row in rows {
        if row.program_number != 0 {
            numbers.push(row.program_number)?;
        }
    }
    Ok(())
}

/// The programs of a PAT's sections.
fn programs_in(alloc: Global, sections: &[Pat]) -> Result<Vec<u16>, AllocError>
    ensures { IfOk result (λ numbers. numbers.items ≡ programs_of (rows_of sections.now)) }
{
    let mut numbers = Vec::new(alloc);
    for section in sections {
        push_programs(&mut numbers, section.rows())?;
    }
    Ok(numbers)
}

impl PatPrograms {
    ghost use Rattle.std.specs.Prelude.{option_map};

    /// Those of these sections.
    pub fn of(alloc: Global, pat: Option<&Vec<Pat>>) -> Result<PatPrograms, AllocError>
        ensures { IfOk result (λ programs. option_map (λ numbers. numbers.items) programs.numbers
            ≡ option_map (λ sections. programs_of (rows_of sections.now.items)) pat.entry) }
    {
        match pat {
            Some(sections) => Ok(PatPrograms {
                numbers: Some(programs_in(alloc, sections)?),
            }),
            None => Ok(PatPrograms { numbers: None }),
        }
    }

    /// Whether the PAT has this program.
    pub fn has(&self, program: u16) -> bool {
        self.numbers
            .as_ref()
            .is_some_and(|numbers| numbers.contains(&program))
    }

    /// Whether there is a complete PAT, and it hasn't this program.
    pub fn lacks(&self, program: u16) -> bool {
        self.numbers.is_some() && !self.has(program)
    }
}

impl Display for PatPrograms {
    fn fmt<W: fmt::Write>(&self, f: &mut Formatter<W>) -> fmt::Result {
        let Some(numbers) = &self.numbers else {
            return f.write_str("it has no complete PAT");
        };
        let Some((first, others)) = numbers.split_first() else {
            return f.write_str("its PAT has no program");
        };
        write!(
            f,
            "its PAT has program{} {first}",
            if others.is_empty() { "" } else { "s" }
        )?;
        for number in others.iter().take(TOLD - 1) {
            write!(f, ", {number}")?;
        }
        match others.len().saturating_sub(TOLD - 1) {
            0 => Ok(()),
            more => write!(f, " and {more} more"),
        }
    }
}
