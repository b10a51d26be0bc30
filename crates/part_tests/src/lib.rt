//! Tests of rings and relays, call by call. What else is called with values stands in the crates `vectors` and `mux_vectors`, and in
//! `scripts/commands/plans.txt`.
#![tactic(auto)]

#[cfg(test)]
mod port_tests;
#[cfg(test)]
mod relay_tests;
