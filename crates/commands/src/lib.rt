//! Whole commands: what each does with its files, what it prints, and how it ends.
#![tactic(auto)]

mod commands;
mod measuring_inputs;
mod run_command;
mod shows;
mod whole_run;

pub use commands::command;
