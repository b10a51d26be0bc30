//! The files of the system.

use crate::file_writer::FileWriter;
use crate::files::Files;
use crate::new_file::{NewFile, partial_name};
use crate::output_place::OutputPlace;
use crate::{
    AgainReader, FileCause, FileIdentity, FileReader, InputFile, KeptReader, Sources, is_among,
};
use std::alloc::Global;
use std::fs::{File, Metadata, OpenFile, OpenOptions, Permissions};
use std::io::{Cursor, ErrorKind, Read, Stdout};
use std::os::unix::fs::{FileTypeExt, MetadataExt};
use std::{fs, io, rt};

/// How many names beside an output's are tried.
const NAMES: u64 = 100;
/// Standard input and standard output, as the system names them.
const STANDARD_INPUT: &str = "/dev/stdin";

const STANDARD_OUTPUT: &str = "/dev/stdout";

/// The files that a runtime opens. Names are taken from the working directory. `-` is standard input where it is read, and
/// standard output where it is written.
#[derive(Drop)]
pub struct SystemFiles<'a, R> {
    rt: &'a R,
    alloc: Global,
    standard_output: Stdout,
    /// The files that can be read only once, of those that were opened.
    opened_once: Vec<FileIdentity>,
    /// The output that hasn't its name yet.
    output: Option<NewFile>,
}

/// The name by which the system knows an input.
fn input_name(name: &str) -> &str {
    if name == "-" { STANDARD_INPUT } else { name }
}

/// Whether this is a name of standard output.
fn is_standard_name(name: &str) -> bool {
    matches!(name, "-" | "/dev/stdout" | "/dev/fd/1" | "/proc/self/fd/1")
}

/// Which file this is; none for a character device, which is no store of bytes.
fn identity_of(metadata: &Metadata) -> Option<FileIdentity> {
    if metadata.file_type().is_char_device() {
        return None;
    }
    Some(FileIdentity {
        device: metadata.dev(),
        number: metadata.ino(),
    })
}

/// How many bytes a file has, if that is known.
fn length_of(metadata: &Metadata) -> Option<u64> {
    if metadata.is_file() {
        Some(metadata.len())
    } else {
        None
    }
}

/// Whether a file can be opened again and read from its beginning.
fn can_be_read_again(metadata: &Metadata) -> bool {
    metadata.is_file() || metadata.is_dir() || metadata.file_type().is_block_device()
}

/// Want of memory as a file's failure.
fn no_memory() -> FileCause {
    FileCause::Open(io::Error::from(ErrorKind::OutOfMemory))
}

impl<'a, R: rt::Files> SystemFiles<'a, R> {
    /// Those of a runtime, of which none was opened.
    pub fn new(alloc: Global, rt: &'a R, standard_output: Stdout) -> SystemFiles<'a, R> {
        SystemFiles {
            rt,
            alloc,
            standard_output,
            opened_once: Vec::new(alloc),
            output: None,
        }
    }

    /// What is known of the file with this name.
    fn metadata(&self, name: &str) -> Result<Metadata, FileCause> {
        fs::metadata(self.rt, name).map_err(FileCause::Open)
    }

    /// Which file a name of the system stands for.
    fn named(&self, name: &str) -> Option<FileIdentity> {
        match fs::metadata(self.rt, name) {
            Ok(metadata) => identity_of(&metadata),
            Err(_) => None,
        }
    }

    /// Notes a file that can be read only once, where it wasn't opened before.
    fn note_once(&mut self, metadata: &Metadata) -> Result<(), FileCause> {
        let Some(identity) = identity_of(metadata) else {
            return Ok(());
        };
        if is_among(Some(identity), &self.opened_once) {
            return Err(FileCause::AskedTwice);
        }
        match self.opened_once.push(identity) {
            Ok(()) => Ok(()),
            Err(_) => Err(no_memory()),
        }
    }

    /// Opens the file that is written under another name until it is whole, where a name is free.
    fn create_beside(&mut self, name: &str) -> Result<R::File, FileCause> {
        let Ok(name) = String::from_str(self.alloc, name) else {
            return Err(no_memory());
        };
        for number in 1..=NAMES {
            let Ok(partial) = partial_name(self.alloc, name.as_str(), number) else {
                return Err(no_memory());
            };
            match File::create_new(self.rt, partial.as_str()) {
                Ok(file) => {
                    self.output = Some(NewFile { partial, name });
                    return Ok(file);
                }
                Err(error) if error.kind() == ErrorKind::AlreadyExists => {}
                Err(error) => return Err(FileCause::Create(error)),
            }
        }
        Err(FileCause::Create(io::Error::from(ErrorKind::AlreadyExists)))
    }

    /// Opens the output that is to take the place of a file with these permissions, which has to let itself be written.
    fn replace(&mut self, name: &str, permissions: Permissions) -> Result<R::File, FileCause> {
        let _old = self.open_to_write(name)?;
        let real = match self.rt.canonicalize(self.alloc, name) {
            Ok(real) => real,
            Err(error) => return Err(FileCause::Open(error)),
        };
        let file = self.create_beside(real.as_str())?;
        match file.set_permissions(permissions) {
            Ok(()) => Ok(file),
            Err(error) => {
                self.give_up();
                Err(FileCause::Create(error))
            }
        }
    }

    /// Removes the output that was just made, and that can't be written.
    fn give_up(&mut self) {
        if let Some(output) = self.output.take() {
            let _ = fs::remove_file(self.rt, output.partial.as_str());
        }
    }

    /// Opens a file of which nothing was kept.
    fn open_whole(&self, name: &str) -> Result<AgainReader<R::File>, FileCause> {
        let file = File::open(self.rt, input_name(name)).map_err(FileCause::Open)?;
        Ok(Cursor::new(Vec::new(self.alloc)).chain(file))
    }

    /// Opens what is there, to write it as it is.
    fn open_to_write(&self, name: &str) -> Result<R::File, FileCause> {
        OpenOptions::new()
            .write(true)
            .open(self.rt, name)
            .map_err(FileCause::Open)
    }

    /// Opens the output with this name, which isn't standard output.
    fn create(&mut self, name: &str) -> Result<R::File, FileCause> {
        match fs::metadata(self.rt, name) {
            Ok(old) if old.is_file() => self.replace(name, old.permissions()),
            Ok(_) => self.open_to_write(name),
            Err(error) if error.kind() == ErrorKind::NotFound && !name.is_empty() => {
                self.create_beside(name)
            }
            Err(error) => Err(FileCause::Open(error)),
        }
    }
}

impl<'a, R: rt::Files> Sources for SystemFiles<'a, R> {
    type Reader = FileReader<KeptReader<R::File>>;

    type Again = FileReader<AgainReader<R::File>>;

    fn reader(&mut self, name: &str) -> Result<FileReader<KeptReader<R::File>>, FileCause> {
        let name = input_name(name);
        let metadata = self.metadata(name)?;
        let keeps = !can_be_read_again(&metadata);
        if keeps {
            self.note_once(&metadata)?;
        }
        let file = File::open(self.rt, name).map_err(FileCause::Open)?;
        let kept = KeptReader::new(self.alloc, file, keeps);
        Ok(FileReader::new(
            self.alloc,
            kept,
            identity_of(&metadata),
            length_of(&metadata),
        ))
    }

    fn anew(
        &mut self,
        name: &str,
        first: FileReader<KeptReader<R::File>>,
    ) -> Result<FileReader<KeptReader<R::File>>, FileCause> {
        let (identity, length) = (first.identity(), first.length());
        let mut kept = first.into_inner();
        if !kept.keeps() {
            return self.reader(name);
        }
        kept.begin_anew();
        Ok(FileReader::new(self.alloc, kept, identity, length))
    }

    fn again(
        &mut self,
        name: &str,
        first: Option<FileReader<KeptReader<R::File>>>,
    ) -> Result<FileReader<AgainReader<R::File>>, FileCause> {
        let (identity, length) = match &first {
            Some(first) => (first.identity(), first.length()),
            None => (None, None),
        };
        let again = match first.map(|first| first.into_inner()) {
            Some(kept) if kept.keeps() => kept.again().map_err(FileCause::Read)?,
            _ => self.open_whole(name)?,
        };
        Ok(FileReader::new(self.alloc, again, identity, length))
    }
}

impl<'a, R: rt::Files> Files for SystemFiles<'a, R> {
    type Writer = FileWriter<OutputPlace<R::File>>;

    fn is_standard_output(&mut self, name: &str) -> bool {
        let Some(standard) = self.named(STANDARD_OUTPUT) else {
            return is_standard_name(name);
        };
        is_standard_name(name) || self.named(name) == Some(standard)
    }

    fn output_identity(&mut self, name: &str) -> Option<FileIdentity> {
        if is_standard_name(name) {
            self.named(STANDARD_OUTPUT)
        } else {
            self.named(name)
        }
    }

    fn writer(&mut self, name: &str) -> Result<FileWriter<OutputPlace<R::File>>, FileCause> {
        if self.is_standard_output(name) {
            return Ok(FileWriter::new(OutputPlace::Standard(self.standard_output)));
        }
        let file = self.create(name)?;
        Ok(FileWriter::new(OutputPlace::File(file)))
    }

    fn try_writer(&mut self, name: &str) -> Result<(), FileCause> {
        if self.is_standard_output(name) {
            return Ok(());
        }
        if let Ok(old) = fs::metadata(self.rt, name)
            && !old.is_file()
            && !old.is_dir()
        {
            return Ok(());
        }
        let _file = self.create(name)?;
        self.give_up();
        Ok(())
    }

    fn complete(&mut self) -> Result<(), FileCause> {
        let Some(output) = &self.output else {
            return Ok(());
        };
        match fs::rename(self.rt, output.partial.as_str(), output.name.as_str()) {
            Ok(()) => {
                self.output = None;
                Ok(())
            }
            Err(error) => Err(FileCause::Rename(error)),
        }
    }

    fn partial(&self) -> Option<&str> {
        match &self.output {
            Some(output) => Some(output.partial.as_str()),
            None => None,
        }
    }
}
