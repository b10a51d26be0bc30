//! Acquisition: the tables of an input that a plan needs, found in its packets.
#![tactic(auto)]

mod acquisition;
mod finding;
mod first_table;
mod found;
mod pmt_finder;
mod pmt_finders;
mod program_finder;
mod sought_table;
mod table_finder;

pub use acquisition::Acquire;
pub use finding::find_tables;
pub use found::Found;
