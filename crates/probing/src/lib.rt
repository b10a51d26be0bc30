//! The command that says what is in streams: it reads their files, prints what was found in each, in lines or as JSON, or a first plan of
//! all.
#![tactic(auto)]

mod file_document;
mod file_survey;
mod first_bytes;
mod pid_document;
mod probe_answer;
mod probe_command;
mod probe_document;
mod program_document;
mod stream_document;
mod survey_file;
mod survey_lines;
mod trouble_document;

pub use probe_answer::ProbeAnswer;
pub use probe_command::probe_files;
