//! A schedule: plans one after another, each in force from a slot on that is known from the start.
//!
//! The first plan is in force from slot 0, and each later one from its own slot, in which a round of the tables begins, to that of
//! the next. A packet of an input belongs to a plan by its time alone, and is looked up in that plan. What two neighbouring plans
//! have in common is kept over the switch: streams, with what waits of them, and transport buffers. The plans of a schedule have
//! one rate and one period, the same inputs and ids; their versions step by one; none has an output PID of an earlier plan but one that is
//! kept; and a later plan's period leaves room for PAT and PMTs to keep their half second across the switch.
//!
//! Each stream of the schedule has one place for the whole run, whichever plans have it.
#![tactic(auto)]

mod all_streams;
mod built;
mod evenness;
mod judge;
pub mod laws;
mod output_pids;
mod schedule;

pub use evenness::are_same_inputs;
pub use judge::{LAST_SWITCH_SLOT, MAX_LATER_PLANS};
pub use output_pids::{has_output_pid, has_pmt_of, has_stream};
pub use schedule::Schedule;
