//! What is said of a command while it waits, and of a run while it goes on: each by a thread of its own, which reads what the others note.
//!
//! A `WaitTeller` is told what is waited for before a run, and says it where that takes two seconds. A `RunBoard` has how far a run is,
//! as the inputs and the output of `WatchedFiles` note it, and a `Reporter` says it every so many seconds, or shows it in a line that it renews.
#![tactic(auto)]

mod goal;
mod input_place;
mod input_watch;
mod laws;
mod output_counter;
mod output_watch;
mod pace;
mod packet_cut;
mod picture_watch;
mod progress_line;
mod report_lines;
mod reporter;
mod run_board;
mod run_files;
mod run_seen;
mod stream_counter;
mod wait_board;
mod wait_teller;
mod waiting;
mod watched;
mod watched_files;
mod watched_sink;

pub use goal::Goal;
pub use input_place::InputPlace;
pub use input_watch::InputWatch;
pub use laws::{send_sink, send_watched};
pub use output_watch::OutputWatch;
pub use report_lines::print_board;
pub use reporter::Reporter;
pub use run_board::RunBoard;
pub use run_files::RunFiles;
pub use wait_teller::WaitTeller;
pub use watched::Watched;
pub use watched_files::WatchedFiles;
pub use watched_sink::WatchedSink;
