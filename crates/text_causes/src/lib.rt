//! Why a text is no plan: the line or the key, in words.
#![tactic(auto)]

mod cause;
mod headers;
mod hex_digits;
mod key_fault;
mod key_lines;
mod missing;
mod plan_keys;
mod tables;
mod wrong_key;

pub use cause::{bytes_cause, text_cause};
pub use key_lines::{key_line, top_key_line};
