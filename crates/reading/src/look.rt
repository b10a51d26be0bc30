//! What a look for the next packet found.

/// What a look among the items that were told found.
#[derive(Clone, Copy, Debug, PartialEq, Eq)]
pub enum Look {
    /// A packet that its plan names: it is held. The number is the place of its stream in the schedule.
    Packet(usize),
    /// None: more has to be read.
    More,
    /// None, and no more will be told.
    Over,
}
