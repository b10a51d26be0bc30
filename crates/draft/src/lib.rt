//! A first plan, made of what was found in streams.
//!
//! `draft` takes the surveys of some files and writes a plan that runs as it is: all their services that can be taken, with PIDs and
//! numbers of the output's own, leak rates by what the streams are, and a rate and a period that fit. What it writes it reads
//! again, and makes the plan of: a text that it hands out is one that a run takes. What was left out is told with its reason.
#![tactic(auto)]

mod candidate;
mod candidates;
mod draft;
mod lack;
mod leak;
mod left_out;
mod mapped_stream;
mod parts;
mod plan_text;
mod rhythm;
mod surveyed;

pub use draft::{Draft, make_draft};
pub use lack::Lack;
pub use leak::leak_of;
pub use left_out::LeftOut;
pub use rhythm::rounds_for;
pub use surveyed::Surveyed;
