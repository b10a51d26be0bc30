//! What the analyser tells of what a multiplex of a plan, or of a schedule of plans, sends.
//!
//! The lists of packets are the emissions of a plan, and the faults are those that the analyser tells of them. `laws` has
//! what holds of every emission: no fault of sync, no fault of a table, and a wrong counter only where a packet of a stream
//! has one. `schedule_laws` has what holds where plans follow one another.
#![tactic(auto)]

pub mod laws;
pub mod schedule_laws;
