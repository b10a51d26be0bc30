//! The files of a command: those that it reads, the plan that is made of them, and the one that it writes.
//!
//! `Sources` are where what is read comes from, `read_plan` makes the plan from its text and the inputs' tables, and `read_schedule`
//! those that follow it too. A
//! `StreamShape` says what the first bytes of a file look like that is no stream. `CommandFault` says why a command fails: its lines
//! on standard error, and the status with which the program ends.
//!
//! An output is written under another name beside its own, and gets its own when it is whole: until then an older file with that
//! name stays as it was. Devices, pipes and standard output are written where they are.
#![tactic(auto)]

mod cause_lines;
mod command_fault;
mod ffmpeg_command;
mod file_cause;
mod file_identity;
mod file_reader;
mod file_writer;
mod files;
mod input_file;
mod kept_reader;
mod new_file;
mod notices;
mod output_file;
mod output_opening;
mod output_place;
mod pat_programs;
mod placed_cause;
mod plan_faults;
mod plan_files;
mod plan_read;
mod schedule_faults;
mod schedule_read;
mod sources;
mod stream_shape;
mod system_files;

pub use command_fault::CommandFault;
pub use ffmpeg_command::FfmpegCommand;
pub use file_cause::FileCause;
pub use file_identity::{FileIdentity, is_among};
pub use file_reader::FileReader;
pub use file_writer::FileWriter;
pub use files::Files;
pub use input_file::InputFile;
pub use kept_reader::{AgainReader, KeptReader};
pub use new_file::partial_name;
pub use notices::{NoNotices, Notices};
pub use output_file::OutputFile;
pub use output_opening::open_output;
pub use output_place::OutputPlace;
pub use plan_files::{read_plan, read_request, read_schedule, stopped};
pub use plan_read::{ReadPlan, open_again};
pub use schedule_read::ReadSchedule;
pub use sources::Sources;
pub use stream_shape::{StreamShape, has_size, shape_of};
pub use system_files::SystemFiles;
