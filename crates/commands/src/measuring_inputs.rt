//! Inputs that are read for their rates alone, before a run or instead of one.

use files::{CommandFault, Files, InputFile, open_again};
use measuring::{Metered, print_leaks_of, print_other_rate, read_on, with_meters};
use schedule::Schedule;
use std::alloc::Global;
use std::io::Write;
use words::Analysis;

/// How much of an input is measured in the place of a run, in pieces of 65,536 bytes: 67,108,864 bytes.
const MEASURED: usize = 1_024;

/// How much of it is measured before a run: 1,048,576 bytes, which is a second and more at 8,000,000 bits a second.
const BEGINNING: usize = 16;

/// Measures the inputs of a schedule: each is read from its beginning again, at most 67,108,864 bytes, but for those that can be read
/// only once; `first` has the readers from which their tables were read.
pub(crate) fn measure<F: Files>(
    alloc: Global,
    files: &mut F,
    schedule: &Schedule,
    first: Vec<F::Reader>,
) -> Result<Vec<Metered<F::Again>>, CommandFault> {
    let plan = schedule.plan(0);
    let readers = open_again(alloc, files, plan, first)?;
    let mut readers: Vec<Metered<F::Again>> = with_meters(alloc, plan, readers)?;
    for reader in readers.iter_mut() {
        if reader.length().is_some() {
            read_on(alloc, reader, MEASURED);
        }
    }
    Ok(readers)
}

/// Says which streams of a schedule have too low a leak rate by the first 1,048,576 bytes of their inputs, of those that can be read again;
/// `opened` has the readers of the run. What can't be opened or measured is left to the run.
pub(crate) fn tell_low_leaks<F: Files, R: InputFile, E: Write>(
    alloc: Global,
    files: &mut F,
    schedule: &Schedule,
    opened: &[R],
    err: &mut E,
) {
    let inputs = schedule.plan(0).inputs();
    for (number, (input, opened)) in inputs.iter().zip(opened.iter()).enumerate() {
        if opened.length().is_some()
            && let Ok(reader) = files.reader(input.file.as_str())
        {
            let mut reader: Metered<F::Reader> = Metered::new(alloc, input.size, reader);
            read_on(alloc, &mut reader, BEGINNING);
            let _ = print_leaks_of(schedule, number, &reader, err);
        }
    }
}

/// Says which rate the PCRs of an analysed file say, where that isn't the stated one, by its first 67,108,864 bytes; of one that can be read
/// only once nothing. `first` has read it.
pub(crate) fn tell_other_rate<F: Files, E: Write>(
    alloc: Global,
    files: &mut F,
    asked: &Analysis,
    first: F::Reader,
    err: &mut E,
) {
    if first.length().is_some()
        && let Ok(reader) = files.again(asked.file, Some(first))
    {
        let mut reader: Metered<F::Again> = Metered::new(alloc, asked.size, reader);
        read_on(alloc, &mut reader, MEASURED);
        let _ = print_other_rate(asked.file, asked.rate, &reader, err);
    }
}
