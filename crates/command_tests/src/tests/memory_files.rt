//! Files in memory.

use crate::tests::memory_reader::MemoryReader;
use crate::tests::memory_writer::MemoryWriter;
use files::{FileCause, FileIdentity, FileReader, FileWriter, Files, Sources};
use std::alloc::{AllocError, Global};
use std::io;
use std::io::ErrorKind;

/// A plan `x.toml` and an input `x.ts`, which can be read as often as one likes, and room for an output.
#[derive(Drop)]
pub struct MemoryFiles {
    alloc: Global,
    plan: Vec<u8>,
    input: Vec<u8>,
    /// Whether the output was made, and hasn't its name yet.
    is_partial: bool,
}

impl MemoryFiles {
    /// A plan of this text, and an input of these bytes.
    pub fn new(alloc: Global, plan: &str, input: Vec<u8>) -> Result<MemoryFiles, AllocError> {
        Ok(MemoryFiles {
            alloc,
            plan: plan.as_bytes().to_vec(alloc)?,
            input,
            is_partial: false,
        })
    }

    /// The file with this name, and its number.
    fn find(&self, name: &str) -> Option<(&[u8], u64)> {
        match name {
            "x.toml" => Some((&self.plan, 0)),
            "x.ts" => Some((&self.input, 1)),
            _ => None,
        }
    }

    /// A reader of a file.
    fn open(&self, name: &str) -> Result<FileReader<MemoryReader>, FileCause> {
        let Some((bytes, number)) = self.find(name) else {
            return Err(FileCause::Open(io::Error::from(ErrorKind::NotFound)));
        };
        let Ok(copy) = bytes.to_vec(self.alloc) else {
            return Err(FileCause::Open(io::Error::from(ErrorKind::OutOfMemory)));
        };
        let length = Some(bytes.len() as u64);
        let reader = MemoryReader::new(copy);
        Ok(FileReader::new(self.alloc, reader, Some(identity(number)), length))
    }
}

/// The file with this number.
fn identity(number: u64) -> FileIdentity {
    FileIdentity { device: 1, number }
}

impl Sources for MemoryFiles {
    type Reader = FileReader<MemoryReader>;

    type Again = FileReader<MemoryReader>;

    fn reader(&mut self, name: &str) -> Result<FileReader<MemoryReader>, FileCause> {
        self.open(name)
    }

    fn anew(
        &mut self,
        name: &str,
        _first: FileReader<MemoryReader>,
    ) -> Result<FileReader<MemoryReader>, FileCause> {
        self.open(name)
    }

    fn again(
        &mut self,
        name: &str,
        _first: Option<FileReader<MemoryReader>>,
    ) -> Result<FileReader<MemoryReader>, FileCause> {
        self.open(name)
    }
}

impl Files for MemoryFiles {
    type Writer = FileWriter<MemoryWriter>;

    fn is_standard_output(&mut self, name: &str) -> bool {
        name == "-"
    }

    fn output_identity(&mut self, name: &str) -> Option<FileIdentity> {
        let (_, number) = self.find(name)?;
        Some(identity(number))
    }

    fn writer(&mut self, name: &str) -> Result<FileWriter<MemoryWriter>, FileCause> {
        self.is_partial = name != "-";
        let bytes = Vec::new(self.alloc);
        Ok(FileWriter::new(MemoryWriter { bytes }))
    }

    fn try_writer(&mut self, _name: &str) -> Result<(), FileCause> {
        Ok(())
    }

    fn complete(&mut self) -> Result<(), FileCause> {
        self.is_partial = false;
        Ok(())
    }

    fn partial(&self) -> Option<&str> {
        if self.is_partial { Some("part") } else { None }
    }
}
