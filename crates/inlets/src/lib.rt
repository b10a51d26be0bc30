//! What the packets of an input come through.
#![tactic(auto)]

mod entry;
mod inlet;
mod step;
mod stepping;
mod taking;
mod turns;

pub use entry::Entry;
pub use inlet::Inlet;
pub use step::Step;
pub use stepping::take_step;
pub use taking::Taking;
pub use turns::take;
