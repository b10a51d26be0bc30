//! Files whose use in a run is noted.

use crate::input_watch::{InputWatch, watches};
use crate::output_watch::OutputWatch;
use crate::run_board::RunBoard;
use crate::run_files::RunFiles;
use crate::watched::Watched;
use crate::watched_sink::WatchedSink;
use files::{FileCause, FileIdentity, Files, Sources};
use graphs::Record;
use schedule::Schedule;
use std::alloc::{AllocError, Global};
use std::sync::Arc;

/// Files as those inside. What is read and written of them in a run is noted on its board.
#[derive(Drop)]
pub struct WatchedFiles<F> {
    files: F,
    /// Where the reading of the inputs is noted that are opened again next, the last one first.
    inputs: Vec<InputWatch>,
    /// Where the writing of the next output is noted.
    output: Option<OutputWatch>,
}

impl<F: Files> WatchedFiles<F> {
    /// These files, before a run.
    pub fn new(alloc: Global, files: F) -> WatchedFiles<F> {
        WatchedFiles {
            files,
            inputs: Vec::new(alloc),
            output: None,
        }
    }
}

impl<F: Files> Sources for WatchedFiles<F> {
    type Reader = F::Reader;

    type Again = Watched<F::Again>;

    fn reader(&mut self, name: &str) -> Result<F::Reader, FileCause> {
        self.files.reader(name)
    }

    fn anew(&mut self, name: &str, first: F::Reader) -> Result<F::Reader, FileCause> {
        self.files.anew(name, first)
    }

    fn again(
        &mut self,
        name: &str,
        first: Option<F::Reader>,
    ) -> Result<Watched<F::Again>, FileCause> {
        let source = self.files.again(name, first)?;
        Ok(Watched::new(source, self.inputs.pop()))
    }
}

impl<F: Files> Files for WatchedFiles<F> {
    type Writer = WatchedSink<F::Writer>;

    fn is_standard_output(&mut self, name: &str) -> bool {
        self.files.is_standard_output(name)
    }

    fn output_identity(&mut self, name: &str) -> Option<FileIdentity> {
        self.files.output_identity(name)
    }

    fn writer(&mut self, name: &str) -> Result<WatchedSink<F::Writer>, FileCause> {
        let sink = self.files.writer(name)?;
        Ok(WatchedSink::new(sink, self.output.take()))
    }

    fn try_writer(&mut self, name: &str) -> Result<(), FileCause> {
        self.files.try_writer(name)
    }

    fn complete(&mut self) -> Result<(), FileCause> {
        self.files.complete()
    }

    fn partial(&self) -> Option<&str> {
        self.files.partial()
    }
}

impl<F: Files> RunFiles for WatchedFiles<F> {
    fn watch(
        &mut self,
        alloc: Global,
        schedule: &Schedule,
        is_counted: bool,
        is_drawn: bool,
    ) -> Result<Arc<RunBoard, Global>, AllocError> {
        let board = Arc::new(alloc, RunBoard::new(alloc, schedule.plan(0), is_counted)?)?;
        self.inputs = watches(alloc, schedule, &board)?;
        self.output = Some(OutputWatch::new(alloc, schedule, &board, is_drawn)?);
        Ok(board)
    }

    fn take_record(writer: &mut WatchedSink<F::Writer>) -> Option<Record> {
        writer.take_record()
    }
}
