//! The program: makes one multiplex of services of several transport streams, checks plans, and analyses streams.
//!
//! `commands::command` does a whole command over files that it is given. Without words the program does the stored first run: five
//! packets of one input go in, and two slots of the multiplex come out.
#![tactic(auto)]

use commands::command;
use files::{CommandFault, SystemFiles};
use live::WatchedFiles;
use std::fs::OpenOptions;
use std::io::{BufWriter, ErrorKind, IsTerminal, Write};
use std::os::fd::{AsRawFd, IntoRawFd};
use std::process::ExitCode;
use std::rt::Env;
use std::{env, io};

/// The words of the command line, without the program's name.
fn words(rt: &(impl Env + AllocGlobal)) -> io::Result<Vec<String>> {
    Ok(env::args(rt)?.skip(1).collect(rt.alloc())?)
}

/// The status where the words can't be read: there is no memory for them, or they are no text.
fn no_words<E: Write>(error: &io::Error, err: &mut E) -> u8 {
    if error.kind() == ErrorKind::OutOfMemory {
        return no_memory(err);
    }
    let _ = writeln!(
        err,
        "error: a word of the command line is not UTF-8 text; file names have to be UTF-8 here"
    );
    2
}

/// The status where there is no memory to begin with.
fn no_memory<E: Write>(err: &mut E) -> u8 {
    let _ = CommandFault::Memory.print(err);
    CommandFault::Memory.status()
}

/// Opens the null device, and keeps it open where its number is at most this one.
fn open_null(rt: &HostRuntime, how: &OpenOptions, most: i32) {
    match how.open(rt, "/dev/null") {
        Ok(file) if file.as_raw_fd() <= most => {
            let _ = file.into_raw_fd();
        }
        _ => {}
    }
}

/// Takes the numbers of standard input, output and error where they are closed, so that no file that is opened later gets them.
/// Each use fails as that of a closed file does, since input is opened to be written, and the other two to be read.
fn open_standard_files(rt: &HostRuntime) {
    open_null(rt, OpenOptions::new().write(true), 0);
    open_null(rt, OpenOptions::new().read(true), 2);
    open_null(rt, OpenOptions::new().read(true), 2);
}

fn main(rt: HostRuntime) -> ExitCode {
    open_standard_files(&rt);
    let mut err = rt.stderr();
    let words = match words(&rt) {
        Ok(words) => words,
        Err(e) => return ExitCode::from(no_words(&e, &mut err)),
    };
    let Ok(mut out) = BufWriter::new(rt.alloc(), rt.stdout()) else {
        return ExitCode::from(no_memory(&mut err));
    };
    let alloc = rt.alloc();
    let is_terminal = err.is_terminal();
    let mut files = WatchedFiles::new(alloc, SystemFiles::new(alloc, &rt, rt.stdout()));
    let (status, _) = command(
        rt,
        alloc,
        &words,
        &mut files,
        &mut out,
        &mut err,
        rt.stderr(),
        is_terminal,
    );
    ExitCode::from(status)
}
