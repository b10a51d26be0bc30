//! Tests of whole commands, with each run in threads and in one thread, over files in memory. They stand in a crate of their own, so that
//! the crates below are proved once.
#![tactic(auto)]

#[cfg(test)]
mod tests;
