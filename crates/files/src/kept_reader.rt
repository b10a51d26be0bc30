//! The reading of a file that can be read only once.

use std::alloc::Global;
use std::io;
use std::io::{Chain, Cursor, ErrorKind, Read};
use std::marker::Model;

/// How many bytes are kept of a file that can be read only once, while its tables are sought: 64 MiB.
const KEPT_LIMIT: usize = 67_108_864;

/// What is said of a file of which no more is kept.
pub(crate) const TOO_LATE: &str =
    "it can be read only once, and its tables are not in its first 67108864 bytes";

/// What a file gives when it is read again: what was kept of it, and then its rest.
pub type AgainReader<R> = Chain<Cursor<Vec<u8>>, R>;

/// A reader that keeps what it gives, up to a bound, so that it can be read again from its beginning.
#[derive(Drop)]
pub struct KeptReader<R> {
    reader: R,
    kept: Vec<u8>,
    /// How many of the kept bytes were given since it began, or began anew.
    at: usize,
    /// Whether it is kept at all: a file that can be opened again isn't.
    keeps: bool,
    /// Why something was given that wasn't kept, if something was.
    lost: Option<io::Error>,
}

impl<R> Model for KeptReader<R> {
    ghost use Rattle.std.specs.Prelude.{◌≤◌, length, is_none};
    ghost use Rattle.files.specs.FileReading.{KeptState};

    ghost Value = { KeptState R };

    ghost view = { λ r. record { reader = r.reader; kept = r.kept.items; at = r.at; keeps = r.keeps; whole = is_none r.lost } };

    ghost invariant = { λ r. r.at ≤ length r.kept.items };
}

impl<R: Read> KeptReader<R> {
    ghost use Rattle.std.specs.Prelude.{◌≡◌, ◌≤◌, ◌<◌, ◌++◌, [], length, take, drop, IfOk, IsTrue, is_ok};
    ghost use Rattle.std.specs.Io.Chain.{chain_first, chain_second};
    ghost use Rattle.std.specs.Io.Cursor.{cursor_inner, cursor_position};
    ghost use Rattle.files.specs.FileReading.{kept_bytes, given_bytes, ahead_bytes, kept_of, is_keeping, is_whole};

    /// One that has given nothing, and that keeps what it gives if it is to.
    pub fn new(alloc: Global, reader: R, keeps: bool) -> KeptReader<R>
        ensures nothing { kept_bytes result ≡ [] }
        ensures reader { kept_of result ≡ reader }
        ensures keeping { is_keeping result ≡ keeps }
        ensures whole { IsTrue (is_whole result) }
    {
        KeptReader {
            reader,
            kept: Vec::new(alloc),
            at: 0,
            keeps,
            lost: None,
        }
    }

    /// Whether it keeps what it gives.
    pub fn keeps(&self) -> bool
        ensures { result ≡ is_keeping self.now }
    {
        self.keeps
    }

    /// Begins anew, and keeps on: what was kept is given once more, and then the rest, which is kept too. Where not all was kept each
    /// read goes on failing.
    pub fn begin_anew(&mut self)
        ensures given { given_bytes self.new ≡ [] }
        ensures kept { kept_bytes self.new ≡ kept_bytes self.old }
        ensures reader { kept_of self.new ≡ kept_of self.old }
        ensures keeping { is_keeping self.new ≡ is_keeping self.old }
        ensures whole { is_whole self.new ≡ is_whole self.old }
    {
        self.at = 0;
    }

    /// Begins again: what was kept is given once more, and then the rest. An `Err` says why not all was kept.
    pub fn again(self) -> io::Result<AgainReader<R>>
    where
        R: Drop,
        ensures whole { is_ok result ≡ is_whole self }
        ensures kept { IfOk result (λ again. (cursor_inner (chain_first again)).items ≡ kept_bytes self) }
        ensures start { IfOk result (λ again. cursor_position (chain_first again) ≡ 0) }
        ensures rest { IfOk result (λ again. chain_second again ≡ kept_of self) }
    {
        if let Some(error) = self.lost {
            return Err(error);
        }
        Ok(Cursor::new(self.kept).chain(self.reader))
    }

    /// Gives what was kept and not given since it began anew.
    fn give(&mut self, buf: &mut [u8]) -> usize
        ensures bound { result ≤ length buf.old }
        ensures given { given_bytes self.new ≡ given_bytes self.old ++ take result buf.new }
        ensures ahead { ahead_bytes self.old ≡ take result buf.new ++ ahead_bytes self.new }
        ensures some { 0 < length buf.old → 0 < length (ahead_bytes self.old) → 0 < result }
        ensures stays { self.new ≡ record self.old { at = self.new.at } }
    {
        let ahead = &self.kept[self.at..];
        let count = ahead.len().min(buf.len());
        buf[..count].copy_from_slice(&ahead[..count]);
        self.at += count;
        count
    }

    /// Keeps bytes that were read, or notes why it doesn't.
    fn keep(&mut self, bytes: &[u8])
        ensures kept { IsTrue (is_whole self.new) → kept_bytes self.new ≡ kept_bytes self.old ++ bytes.now }
        ensures stays { take (length (kept_bytes self.old)) (kept_bytes self.new) ≡ kept_bytes self.old }
        ensures reader { kept_of self.new ≡ kept_of self.old }
        ensures keeping { is_keeping self.new ≡ is_keeping self.old }
    {
        if bytes.len() > KEPT_LIMIT.saturating_sub(self.kept.len()) {
            self.lost = Some(io::Error::new(ErrorKind::FileTooLarge, TOO_LATE));
        } else if self.kept.extend_from_slice(bytes).is_err() {
            self.lost = Some(io::Error::from(ErrorKind::OutOfMemory));
        }
    }
}

impl<R: Read> Read for KeptReader<R> {
    ghost use Rattle.std.specs.Prelude.{◌≡◌, ◌++◌, IfOk, OnErr, IsErr, IsTrue, false, length, take};
    ghost use Rattle.std.specs.Io.{ReadsAtMost};
    ghost use Rattle.std.specs.Io.KnownBytes.{ReadConsumes};
    ghost use Rattle.files.specs.FileReading.{kept_bytes, given_bytes, kept_remaining, is_keeping, is_whole};

    ghost remaining = { kept_remaining R.remaining };

    /// What was kept comes first, where it began anew. Once something wasn't kept each read fails.
    fn read(&mut self, buf: &mut [u8]) -> io::Result<usize>
        ensures bound { ReadsAtMost result buf.new }
        ensures bytes { ReadConsumes
            (kept_remaining R.remaining self.old) (kept_remaining R.remaining self.new) result buf.new }

        ensures kept { IsTrue (is_keeping self.old) → IsTrue (is_whole self.new) →
            IfOk result (λ count. given_bytes self.new ≡ given_bytes self.old ++ take count buf.new) }
        ensures stays { take (length (kept_bytes self.old)) (kept_bytes self.new) ≡ kept_bytes self.old }
        ensures err { OnErr result (kept_bytes self.new ≡ kept_bytes self.old) }
        ensures keeping { is_keeping self.new ≡ is_keeping self.old }
        ensures lost { is_whole self.old ≡ false → IsErr result × (self.new ≡ self.old) }
    {
        if let Some(error) = self.lost {
            return Err(error);
        }
        if self.at < self.kept.len() {
            return Ok(self.give(buf));
        }
        let count = self.reader.read(buf)?;
        if self.keeps {
            self.keep(&buf[..count]);
            self.at = self.kept.len();
        }
        Ok(count)
    }
}
