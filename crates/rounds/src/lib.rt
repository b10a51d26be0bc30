//! The rhythm in which the multiplex sends its tables.
//!
//! A `TableRounds` says of each slot which table packet it carries; a `TableTurn` walks along the
//! slots and says the same without a division. `laws` has what holds of all rounds: how often each
//! packet comes, and how far two of them are apart.
#![tactic(auto)]

pub mod laws;
mod limits;
mod rounds_fault;
mod table_place;
mod table_rounds;
mod table_turn;

pub use limits::{SLOT_BITS, gap, half_second, two_seconds};
pub use rounds_fault::RoundsFault;
pub use table_place::TablePlace;
pub use table_rounds::TableRounds;
pub use table_turn::TableTurn;
