//! Tests of a broadcast that is ticked by hand, of its readers, and of recorders, by what they offer to others.
#![tactic(auto)]

#[cfg(test)]
mod tests;
