//! Tests of a worker that waits at a full ring, by what it and the ring's other end offer to others.
#![tactic(auto)]

#[cfg(test)]
mod tests;
