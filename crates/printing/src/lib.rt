//! The lines that commands print of plans, of runs and of streams: what became of them, and what they say to their user. A
//! `StreamAnalysis` takes a stream in pieces, and its lines are those of its faults and of their summary. What is printed as JSON has the
//! same in documents, whose parts are named `Document`.
#![tactic(auto)]

mod analysis_end;
mod analysis_summary;
mod damage;
mod early_ends;
mod end_document;
mod fault_document;
mod fault_lines;
mod input_document;
mod kind_document;
mod level_document;
mod level_lines;
mod measured_document;
mod overfull;
mod pid_document;
mod plan_lines;
mod run_document;
mod run_end;
mod run_lines;
mod same_files;
mod schedule_document;
mod service_document;
mod shown;
mod stream_analysis;
mod stream_document;
mod stream_line;
mod strict;
mod summary_document;
mod switch_document;
mod switch_lines;
mod told_document;
mod wait_document;

pub use analysis_end::analysis_status;
pub use damage::{has_damage, print_damage};
pub use early_ends::{has_early_end, print_early_ends};
pub use fault_lines::print_faults;
pub use overfull::{is_overfull, print_overfull};
pub use plan_lines::{print_plan, print_rhythm};
pub use run_document::print_run_document;
pub use run_end::print_end;
pub use run_lines::{print_delays, print_summary};
pub use same_files::print_same_files;
pub use schedule_document::print_schedule_document;
pub use shown::Shown;
pub use stream_analysis::StreamAnalysis;
pub use stream_line::print_shape;
pub use strict::strict_status;
pub use switch_lines::{print_switch_tables, print_switches, print_unreached};
