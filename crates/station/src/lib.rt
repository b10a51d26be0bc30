//! The station: a multiplex, and the rings that its inputs' packets come through.
//!
//! A `Station` takes packets out of its rings into its multiplex and sends slots, a tick at a time. It is one value that needs
//! no other thread's leave: it can stand in a `Mutex` and be ticked by any thread that locks it. What it keeps is known of it
//! whenever the lock is free: its history is lawful, and each packet that came out of a ring was taken, in order, but for at
//! most one an input, which is held.
#![tactic(auto)]

mod advancing;
mod laws;
mod moving;
mod settled;
mod station;

pub use laws::stations_agree;
pub use settled::Settled;
pub use station::Station;
