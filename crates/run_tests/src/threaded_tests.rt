//! Runs in threads over the example plan, whose gates stop inputs or hold them back, beside the run in one thread.

mod devices;
mod gates;
mod inputs;
mod random_turns;
mod runs;
mod stops;
mod switches;
mod turn_gates;
