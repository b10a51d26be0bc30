//! What was found in a file.

use files::{FfmpegCommand, StreamShape};
use probe::Survey;

/// What was found in a file.
#[derive(Drop)]
pub(crate) struct FileSurvey {
    pub survey: Survey,
    /// What it looks like.
    pub shape: StreamShape,
    /// The rate of its fastest second, in bits a second, where that was measured.
    pub fastest: Option<u64>,
}

impl FileSurvey {
    /// Whether its rate is known, and is variable.
    pub fn is_variable(&self) -> bool {
        self.survey
            .measured
            .is_some_and(|measured| measured.is_variable)
    }

    /// The command of ffmpeg that writes a program of the file with this name alone, at a constant rate; none where its rate isn't known.
    pub fn command<'a>(&self, name: &'a str, program: u16) -> Option<FfmpegCommand<'a>> {
        let (size, rate) = (self.survey.size, self.survey.measured?.rate);
        Some(if self.is_variable() {
            FfmpegCommand::filling(name, program, size, self.fastest.unwrap_or(rate))
        } else {
            FfmpegCommand::keeping(name, program, size, rate)
        })
    }
}
