//! How a command prints what it found as JSON (RFC 8259): documents of one shape with a version.
#![tactic(auto)]

mod document;

pub use document::{FORMAT, print_document};
