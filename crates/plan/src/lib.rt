//! The plan of a multiplex, made of a request and of what was found in its inputs.
#![tactic(auto)]

mod multiplex_plan;
mod planned_stream;
mod rhythm;
mod stream_map;

pub use multiplex_plan::Plan;
pub use planned_stream::PlannedStream;
