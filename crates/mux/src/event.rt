//! The entries of a history.

use crate::content::Content;
use request::Stream;
use tspkt::Stamped;

/// An entry of the history of a multiplex: what one call did to it. (An event of a programme, as in EN 300 468, is
/// something else.)
#[derive(Clone, Copy)]
pub enum Event {
    /// A packet of this input was taken.
    Took(usize, Stamped),
    /// The queue of this stream, of this input, was found full.
    Full(usize, Stream),
    /// The next packet of this input was found to belong to a later plan.
    Early(usize),
    /// This input was closed.
    Close(usize),
    /// A slot was sent.
    Slot(Content),
    /// The plan of this number came into force.
    Switch(usize),
}
