//! A user's plan: which services of which inputs go into the multiplex, read from TOML text.
//!
//! `docs/PLAN-FORMAT.md` says which keys there are. Each mistake in a plan is named by a `PlanFault`, and of those that
//! apply the one with the least number is answered.
#![tactic(auto)]

mod build;
mod copies;
mod input;
mod input_parts;
mod judge;
mod keys;
mod limits;
mod lists;
mod odds;
mod parts;
mod plan_fault;
mod ranges;
mod request;
mod service;
mod service_parts;
mod settings;
mod stream;
mod stream_parts;
mod stream_row;
mod streams;
mod taken;
mod text;

pub use input::Input;
pub use input_parts::InputParts;
pub use limits::{
    FIRST_LETTER, FIRST_PID, LAST_LETTER, LAST_PID, MAX_DESCRIPTORS, MAX_ID, MAX_INPUTS, MAX_ITEMS,
    MAX_LEAK, MAX_NAME, MAX_OFFSET, MAX_RATE, MAX_SERVICES, MAX_SLOTS, MAX_STREAMS, MAX_VERSION,
    MIN_LEAK, MIN_RATE,
};
pub use parts::Parts;
pub use plan_fault::PlanFault;
pub use request::Request;
pub use service::Service;
pub use service_parts::ServiceParts;
pub use stream::Stream;
pub use stream_parts::StreamParts;
