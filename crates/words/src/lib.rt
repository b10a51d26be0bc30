//! The words of a command line: what the program can be asked to do, and the help that it gives.
//!
//! `line` reads the words with `clap`, and looks at each number once more, so that its range is proved.
#![tactic(auto)]

mod analysis;
mod command;
mod command_line;
mod leak;
mod options;
mod progress;
mod run_length;

pub use analysis::Analysis;
pub use command::{Command, LineFault};
pub use command_line::line;
pub use progress::Progress;
pub use run_length::{RunLength, most_slots};
