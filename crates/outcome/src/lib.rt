//! What becomes of a run, in one thread or in several: what it takes, how it ends, and what is said of it then.
#![tactic(auto)]

mod ended;
mod ending;
pub mod laws;
mod summary;

pub use ended::Ended;
pub use ending::end_run;
pub use summary::{InputSummary, Summary};
