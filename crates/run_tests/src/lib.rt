//! Tests of runs in threads, and of the sources and sinks over `std`'s readers and writers. What else runs do is tested over real files
//! and pipes, by `scripts/commands`.
#![tactic(auto)]

#[cfg(test)]
mod device_tests;
#[cfg(test)]
mod threaded_tests;
