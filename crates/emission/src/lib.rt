//! What a multiplex of a plan sends, said of its packets alone: which slots carry tables, and what follows from it.
//!
//! A list of packets is an emission of a plan where each slot of a table carries its packet, and each other slot the
//! null packet or one of a stream. `laws` has what holds of every emission: the tables' PIDs carry the plan's sections
//! again and again, each table comes within its limit, and no transport buffer of a table is overrun. A schedule of plans sends by one
//! plan after another, and `schedule_laws` has what holds of that.
#![tactic(auto)]

pub mod laws;
pub mod schedule_laws;
