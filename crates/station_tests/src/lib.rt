//! Tests of a station that is ticked by hand, by what it and the port of its input offer to others.
#![tactic(auto)]

#[cfg(test)]
mod tests;
