//! A history that contracts see and that nothing stores.
//!
//! Contracts that speak of all that ever happened need a list of it, and a program that runs for a week can't keep one.
//! A `Past` is such a list in contracts, and a single byte when it runs: it grows by `add` alone, so what an invariant ties
//! to it is tied to the whole history. It stands on std's `Snapshot`, which keeps a value for contracts and takes no bytes.
#![tactic(auto)]

mod past;
mod told;

pub use past::Past;
