//! What `take` answers.

use tspkt::Stamped;

/// What became of a packet: each refusal hands it back.
#[derive(Drop)]
pub enum Taken {
    /// It was taken.
    Ok,
    /// Its input was closed.
    Closed(Stamped),
    /// No stream of the plan that it belongs to has its PID.
    Stranger(Stamped),
    /// Its time is before that of the packet that was last taken of its input.
    Backward(Stamped),
    /// It belongs to a plan after the one in force.
    Early(Stamped),
    /// The queue of its stream is full.
    Full(Stamped),
    /// Memory was refused: never answered, since nothing asks for it.
    Memory(Stamped),
}
