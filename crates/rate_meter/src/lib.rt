//! Measures the rate of a transport stream by its own clocks, as its bytes are read.
//!
//! A `RateMeter` is shown the bytes of a stream in pieces of any size. It finds the packets by their sync bytes, counts them by
//! PID, and keeps a `Clock` for each PID that has PCRs (ISO/IEC 13818-1, 2.4.2.1, 2.4.3.5). Of a clock it says at which rate
//! the stream runs: that of the least-squares line of the PCRs' times against the positions of their packets. Splices are left
//! out, and so is what lies between two PCRs where packets are missing or came twice; a PCR that wraps goes on. No PCR is kept: what
//! stays are sums, and contracts see the whole list by a `Past`. Beside that it says which programs of the PAT change inside the stream.
#![tactic(auto)]

mod clock;
mod clocks;
mod counter_watch;
mod deviation;
mod laws;
mod line;
mod measured;
mod meter;
mod pace;
mod pid_clock;
mod pid_counts;
mod point;
mod program_change;
mod rate_meter;
mod reading;
mod seen;
mod stepper;
mod table_watch;
mod watched_program;

pub use clock::{Clock, elapsed, is_splice};
pub use deviation::{Deviation, deviation_of, off_by};
pub use laws::send_meter;
pub use line::Line;
pub use measured::Measured;
pub use meter::Meter;
pub use pace::Pace;
pub use pid_clock::PidClock;
pub use point::Point;
pub use program_change::{Change, ProgramChange};
pub use rate_meter::RateMeter;
pub use reading::Reading;
pub use seen::Seen;
pub use stepper::Stepper;
