//! A command of ffmpeg.

ghost use Rattle.std.specs.Prelude.{◌≡◌, ◌+◌, ◌/◌, min};
ghost use Rattle.advice.specs.Load.{packets_rate_of};

use advice::packets_rate;
use std::fmt;
use std::fmt::{Display, Formatter};
use tspkt::PacketSize;

/// A command of ffmpeg that writes a program of a file alone into another one, of packets of 188 bytes, with an SDT and PIDs of its own,
/// and null packets up to a constant rate. Its service is called as the file is. Printed, it is one for a shell: names stand in quotes, of
/// which those in the names are none.
#[derive(Clone, Copy)]
pub struct FfmpegCommand<'a> {
    /// The name of the file.
    pub file: &'a str,
    pub program: u16,
    /// The rate of the new file, in bits a second.
    pub rate: u64,
}

impl<'a> FfmpegCommand<'a> {
    /// That which keeps the rate, in bits a second, at which a file of packets of this size runs.
    pub fn keeping(file: &'a str, program: u16, size: PacketSize, rate: u64) -> FfmpegCommand<'a>
        ensures { result.rate ≡ packets_rate_of size rate }
    {
        FfmpegCommand {
            file,
            program,
            rate: packets_rate(size, rate),
        }
    }

    /// That which fills a file of variable rate up to a tenth above the rate of its fastest second, in bits a second.
    pub fn filling(file: &'a str, program: u16, size: PacketSize, fastest: u64) -> FfmpegCommand<'a>
        ensures { result.rate ≡ min (packets_rate_of size fastest + packets_rate_of size fastest / 10) 18446744073709551615 }
    {
        let rate = packets_rate(size, fastest);
        FfmpegCommand {
            file,
            program,
            rate: rate.saturating_add(rate / 10),
        }
    }
}

/// The name of a file without its folders, and without its last dot and what stands behind that.
fn stem_of(file: &str) -> &str {
    let name = match file.rsplit_once('/') {
        Some((_, name)) => name,
        None => file,
    };
    match name.rsplit_once('.') {
        Some((stem, _)) => stem,
        None => name,
    }
}

/// Prints a word for a shell, in quotes.
fn print_quoted<W: fmt::Write>(word: &str, f: &mut Formatter<W>) -> fmt::Result {
    f.write_char('\'')?;
    for c in word.chars() {
        match c {
            '\'' => f.write_str("'\\''")?,
            _ => f.write_char(c)?,
        }
    }
    f.write_char('\'')
}

impl Display for FfmpegCommand<'_> {
    fn fmt<W: fmt::Write>(&self, f: &mut Formatter<W>) -> fmt::Result {
        let (program, rate) = (self.program, self.rate);
        f.write_str("ffmpeg -i ")?;
        print_quoted(self.file, f)?;
        write!(
            f,
            " -map 0:p:{program} -c copy -copy_unknown -mpegts_service_id {program} -metadata service_name="
        )?;
        print_quoted(stem_of(self.file), f)?;
        write!(f, " -muxrate {rate} new.ts")
    }
}
