//! What is said of the rates of inputs, on standard error, behind all other lines.

ghost use Rattle.std.specs.Prelude.{◌≤◌, length};

use crate::metered::Metered;
use advice::{left_rate, packets_rate};
use files::{FfmpegCommand, InputFile};
use plan::Plan;
use rate_meter::{Change, Deviation, Measured, Meter, ProgramChange, off_by};
use request::{Input, Service, Stream};
use schedule::Schedule;
use std::io;
use std::io::Write;

/// Says that an input runs at another rate than its plan states.
fn print_deviation<E: Write>(
    number: usize,
    measured: Measured,
    stated: u64,
    found: Deviation,
    err: &mut E,
) -> io::Result<()> {
    let (pid, rate) = (measured.pid, measured.rate);
    let (parts, side) = match found {
        Deviation::Above(parts) => (parts, "above"),
        Deviation::Below(parts) => (parts, "below"),
    };
    writeln!(
        err,
        "rate: input {number} runs at {rate} bits a second by the PCRs of PID 0x{pid:04X}, {parts} ppm {side} the stated {stated}: state {rate}"
    )
}

/// How a program of a service of an input changed inside it, if it did.
fn change_in<R, M: Meter>(reader: &Metered<R, M>, program: u16) -> Option<ProgramChange> {
    reader.meter()?.change_of(program)
}

/// Whether a program of the input with this number changed inside it, of those that a plan takes.
fn has_change<R, M: Meter>(plan: &Plan, number: usize, reader: &Metered<R, M>) -> bool {
    for service in plan.request().services() {
        if service.input == number && change_in(reader, service.program).is_some() {
            return true;
        }
    }
    false
}

/// Says how a program of an input changed inside it.
fn print_change<E: Write>(
    number: usize,
    program: u16,
    found: ProgramChange,
    err: &mut E,
) -> io::Result<()> {
    let packet = found.packet;
    write!(err, "program: input {number}: ")?;
    match found.change {
        Change::Left => write!(err, "program {program} left the PAT")?,
        Change::Moved => write!(err, "the PMT of program {program} went to another PID")?,
        Change::Pmt => write!(err, "the PMT of program {program} changed")?,
    }
    writeln!(err, " at packet {packet}, which isn't followed")
}

/// Whether a plan of a schedule before the one with this number has the program of a service.
fn is_earlier(schedule: &Schedule, number: usize, service: &Service) -> bool {
    for earlier in 0..=schedule.later_plans() {
        if earlier < number
            && schedule.plan(earlier).services().iter().any(|other| {
                other.input == service.input && other.program == service.program
            })
        {
            return true;
        }
    }
    false
}

/// Says of each program of a schedule's services that changed inside its input how it did.
fn print_changes<R, M: Meter, E: Write>(
    schedule: &Schedule,
    readers: &[Metered<R, M>],
    err: &mut E,
) -> io::Result<()> {
    for number in 0..=schedule.later_plans() {
        for service in schedule.plan(number).services() {
            let (input, program) = (service.input, service.program);
            if !is_earlier(schedule, number, service)
                && let Some(reader) = readers.get(input)
                && let Some(found) = change_in(reader, program)
            {
                print_change(input, program, found, err)?;
            }
        }
    }
    Ok(())
}

/// Whether a program of a schedule's services changed inside its input.
fn has_changes<R, M: Meter>(schedule: &Schedule, readers: &[Metered<R, M>]) -> bool {
    for number in 0..=schedule.later_plans() {
        for service in schedule.plan(number).services() {
            if let Some(reader) = readers.get(service.input)
                && change_in(reader, service.program).is_some()
            {
                return true;
            }
        }
    }
    false
}

/// Says by which command a program of an input of variable rate gets null packets up to a constant one, as packets of 188 bytes: a tenth
/// above the input's fastest second.
fn print_filling<R, M: Meter, E: Write>(
    input: &Input,
    number: usize,
    program: u16,
    measured: Measured,
    reader: &Metered<R, M>,
    err: &mut E,
) -> io::Result<()> {
    let Some(meter) = reader.meter() else {
        return Ok(());
    };
    let fastest = meter.fastest(measured.pid).unwrap_or(measured.rate);
    let file = input.file.as_str();
    let command = FfmpegCommand::filling(file, program, input.size, fastest);
    writeln!(
        err,
        "rate: input {number} gets them by ffmpeg, and other PIDs: {command}"
    )
}

/// Says that an input is of variable rate, and how it gets a constant one: of its first service in the plan.
fn print_variable<R, M: Meter, E: Write>(
    plan: &Plan,
    input: &Input,
    number: usize,
    measured: Measured,
    reader: &Metered<R, M>,
    err: &mut E,
) -> io::Result<()> {
    let (pid, rate, stated) = (measured.pid, measured.rate, input.rate);
    writeln!(
        err,
        "rate: input {number} is of variable rate by the PCRs of PID 0x{pid:04X}, {rate} bits a second in all; the plan states {stated} throughout: null packets have to make it constant first"
    )?;
    let services = plan.request().services();
    match services.iter().find(|service| service.input == number) {
        Some(service) => print_filling(input, number, service.program, measured, reader, err),
        None => Ok(()),
    }
}

/// Says what is wrong with the rate of the input with this number, if something is. Of one whose programs changed it isn't said that it is
/// variable.
fn print_rate<R, M: Meter, E: Write>(
    plan: &Plan,
    input: &Input,
    number: usize,
    measured: Measured,
    reader: &Metered<R, M>,
    err: &mut E,
) -> io::Result<()> {
    if measured.is_variable {
        return if has_change(plan, number, reader) {
            Ok(())
        } else {
            print_variable(plan, input, number, measured, reader, err)
        };
    }
    match off_by(measured.rate, input.rate) {
        Some(found) => print_deviation(number, measured, input.rate, found, err),
        None => Ok(()),
    }
}

/// Whether a measured rate isn't as a plan states it: it is variable, or another one.
fn is_wrong(measured: Measured, stated: u64) -> bool {
    measured.is_variable || off_by(measured.rate, stated).is_some()
}

/// Says why the rate of an input isn't known.
fn print_unmeasured<R: InputFile, M: Meter, E: Write>(
    number: usize,
    reader: &Metered<R, M>,
    err: &mut E,
) -> io::Result<()> {
    if reader.length().is_none() {
        return writeln!(
            err,
            "rate: input {number} is not measured: it can be read only once"
        );
    }
    writeln!(
        err,
        "rate: input {number} can't be measured: fewer than two PCRs were found with no packet missing between"
    )
}

/// The rate of a stream of a plan, in bits a second, by what its input's reader measured; none where that isn't known.
fn rate_in<R, M: Meter>(plan: &Plan, reader: &Metered<R, M>, stream: &Stream) -> Option<u64> {
    let input = plan.inputs().get(stream.input)?;
    let rate = packets_rate(input.size, reader.measured()?.rate);
    Some(reader.meter()?.pid_rate(rate, stream.pid))
}

/// The rate of a stream of a plan, in bits a second; none where its input's isn't known.
fn stream_rate<R, M: Meter>(
    plan: &Plan,
    readers: &[Metered<R, M>],
    stream: &Stream,
) -> Option<u64> {
    rate_in(plan, readers.get(stream.input)?, stream)
}

/// What the streams of a plan take in all, in bits a second; none where one of them wasn't measured.
pub fn sum_of<R, M: Meter>(plan: &Plan, readers: &[Metered<R, M>]) -> Option<u64> {
    let mut sum = 0u64;
    for stream in plan.streams() {
        sum = sum.saturating_add(stream_rate(plan, readers, stream)?);
    }
    Some(sum)
}

/// Whether the streams of a plan take more than its rate leaves after the tables, where all of them were measured.
fn takes_too_much<R, M: Meter>(plan: &Plan, readers: &[Metered<R, M>]) -> bool {
    match sum_of(plan, readers) {
        Some(sum) => sum > left_rate(plan.rounds()),
        None => false,
    }
}

/// Whether the streams of one of a schedule's plans take more than its rate leaves after the tables, where all of them were measured.
pub fn is_too_much<R, M: Meter>(schedule: &Schedule, readers: &[Metered<R, M>]) -> bool {
    for number in 0..=schedule.later_plans() {
        if takes_too_much(schedule.plan(number), readers) {
            return true;
        }
    }
    false
}

/// Says from which slot on something holds that is said of the plan of a schedule with this number: nothing of the first.
fn print_from<E: Write>(schedule: &Schedule, number: usize, err: &mut E) -> io::Result<()> {
    match number.checked_sub(1) {
        Some(before) => {
            let slot = schedule.switch_slot(before).unwrap_or(0);
            write!(err, " from slot {slot} on")
        }
        None => Ok(()),
    }
}

/// Says what the streams of the plan of a schedule with this number take in all, beside its rate, where all of them were measured, and
/// that it is too much, where it is.
fn print_sum<R, M: Meter, E: Write>(
    schedule: &Schedule,
    number: usize,
    readers: &[Metered<R, M>],
    err: &mut E,
) -> io::Result<()>
    requires { number ≤ length schedule.now.later }
{
    let plan = schedule.plan(number);
    let Some(sum) = sum_of(plan, readers) else {
        return Ok(());
    };
    let (rate, left) = (plan.rate(), left_rate(plan.rounds()));
    let tables = rate.saturating_sub(left);
    write!(err, "services")?;
    print_from(schedule, number, err)?;
    writeln!(
        err,
        ": measured {sum} bits a second of {rate}, the tables take {tables}"
    )?;
    if sum <= left {
        return Ok(());
    }
    write!(err, "overfull")?;
    print_from(schedule, number, err)?;
    writeln!(
        err,
        ": the services take more than the {left} bits a second that rate {rate} leaves after the tables: raise it, or leave a service out"
    )
}

/// The rate of a stream of a plan, in bits a second, where its packets come faster than its buffer leaks.
fn rate_above_leak<R, M: Meter>(
    plan: &Plan,
    reader: &Metered<R, M>,
    stream: &Stream,
) -> Option<u64> {
    let rate = rate_in(plan, reader, stream)?;
    if stream.leak < rate { Some(rate) } else { None }
}

/// Says of a stream of a plan that its buffer leaks more slowly than its packets come, where it does.
fn print_leak<R, M: Meter, E: Write>(
    plan: &Plan,
    reader: &Metered<R, M>,
    stream: &Stream,
    err: &mut E,
) -> io::Result<()> {
    let (output_pid, input, pid) = (stream.output_pid, stream.input, stream.pid);
    let leak = stream.leak;
    let Some(rate) = rate_above_leak(plan, reader, stream) else {
        return Ok(());
    };
    writeln!(
        err,
        "leak: stream 0x{output_pid:04X} (input {input}, PID 0x{pid:04X}): {leak} bits a second, below its measured {rate}: state more"
    )
}

/// Says of each stream of a schedule whose buffer leaks more slowly than its packets come that it does.
fn print_leaks<R, M: Meter, E: Write>(
    schedule: &Schedule,
    readers: &[Metered<R, M>],
    err: &mut E,
) -> io::Result<()> {
    for stream in schedule.streams() {
        if let Some(reader) = readers.get(stream.input) {
            print_leak(schedule.plan(0), reader, stream, err)?;
        }
    }
    Ok(())
}

/// The same of the streams of one input of a schedule, that with this number.
pub fn print_leaks_of<R, M: Meter, E: Write>(
    schedule: &Schedule,
    number: usize,
    reader: &Metered<R, M>,
    err: &mut E,
) -> io::Result<()> {
    for stream in schedule.streams() {
        if stream.input == number {
            print_leak(schedule.plan(0), reader, stream, err)?;
        }
    }
    Ok(())
}

/// Whether a stream of a plan has a buffer that leaks more slowly than its packets come.
fn has_low_leak<R, M: Meter>(schedule: &Schedule, readers: &[Metered<R, M>]) -> bool {
    let plan = schedule.plan(0);
    for stream in schedule.streams() {
        if let Some(reader) = readers.get(stream.input)
            && rate_above_leak(plan, reader, stream).is_some()
        {
            return true;
        }
    }
    false
}

/// How many packets of a stream of a plan are scrambled, where some are.
fn scrambled_in<R, M: Meter>(reader: &Metered<R, M>, stream: &Stream) -> Option<u64> {
    let count = reader.meter()?.scrambled_of(stream.pid);
    if count > 0 { Some(count) } else { None }
}

/// Says of each stream of a schedule that packets of it are scrambled, where some are: they go out as they are.
fn print_scrambled<R, M: Meter, E: Write>(
    schedule: &Schedule,
    readers: &[Metered<R, M>],
    err: &mut E,
) -> io::Result<()> {
    for stream in schedule.streams() {
        let (output_pid, input, pid) = (stream.output_pid, stream.input, stream.pid);
        if let Some(reader) = readers.get(input)
            && let Some(count) = scrambled_in(reader, stream)
        {
            writeln!(
                err,
                "scrambled: stream 0x{output_pid:04X} (input {input}, PID 0x{pid:04X}): {count} packets: nobody can see them without a key"
            )?;
        }
    }
    Ok(())
}

/// Whether packets of a stream of a schedule are scrambled.
fn has_scrambled<R, M: Meter>(schedule: &Schedule, readers: &[Metered<R, M>]) -> bool {
    for stream in schedule.streams() {
        if let Some(reader) = readers.get(stream.input)
            && scrambled_in(reader, stream).is_some()
        {
            return true;
        }
    }
    false
}

/// Says of the file with this name that its PCRs don't have it run at the stated rate, where they don't.
pub fn print_other_rate<R, M: Meter, E: Write>(
    name: &str,
    stated: u64,
    reader: &Metered<R, M>,
    err: &mut E,
) -> io::Result<()> {
    let Some(measured) = reader.measured() else {
        return Ok(());
    };
    let (pid, rate) = (measured.pid, measured.rate);
    if measured.is_variable {
        return writeln!(
            err,
            "{name}: it is of variable rate by the PCRs of PID 0x{pid:04X}, {rate} bits a second in all, and --rate is {stated}"
        );
    }
    if off_by(rate, stated).is_some() {
        writeln!(
            err,
            "{name}: it runs at {rate} bits a second by the PCRs of PID 0x{pid:04X}, and --rate is {stated}"
        )?;
    }
    Ok(())
}

/// Whether something is wrong with the inputs of a schedule by what was read of them: what `print_wrong_rates` has a line for.
pub fn is_input_wrong<R, M: Meter>(schedule: &Schedule, readers: &[Metered<R, M>]) -> bool {
    for (input, reader) in schedule.plan(0).inputs().iter().zip(readers.iter()) {
        if let Some(measured) = reader.measured()
            && is_wrong(measured, input.rate)
        {
            return true;
        }
    }
    has_changes(schedule, readers)
        || has_low_leak(schedule, readers)
        || has_scrambled(schedule, readers)
}

/// Says what was measured of a schedule's inputs: of each what is wrong with its rate, or why it isn't known; what the streams of each
/// plan take in all; which of them have too low a leak rate, and which are scrambled.
pub fn print_measured<R: InputFile, M: Meter, E: Write>(
    schedule: &Schedule,
    readers: &[Metered<R, M>],
    err: &mut E,
) -> io::Result<()> {
    let plan = schedule.plan(0);
    for (number, (input, reader)) in plan.inputs().iter().zip(readers.iter()).enumerate() {
        match reader.measured() {
            Some(measured) => print_rate(plan, input, number, measured, reader, err)?,
            None => print_unmeasured(number, reader, err)?,
        }
    }
    print_changes(schedule, readers, err)?;
    for number in 0..=schedule.later_plans() {
        print_sum(schedule, number, readers, err)?;
    }
    print_leaks(schedule, readers, err)?;
    print_scrambled(schedule, readers, err)
}

/// Says what is wrong with a run's inputs by what it read of them: a rate that isn't as stated, or is variable, a leak rate that is too
/// low, and packets that are scrambled. It says nothing of an input that can't be measured, and nothing where nothing is wrong.
pub fn print_wrong_rates<R, M: Meter, E: Write>(
    schedule: &Schedule,
    readers: &[Metered<R, M>],
    err: &mut E,
) -> io::Result<()> {
    let plan = schedule.plan(0);
    for (number, (input, reader)) in plan.inputs().iter().zip(readers.iter()).enumerate() {
        if let Some(measured) = reader.measured() {
            print_rate(plan, input, number, measured, reader, err)?;
        }
    }
    print_changes(schedule, readers, err)?;
    print_leaks(schedule, readers, err)?;
    print_scrambled(schedule, readers, err)
}
