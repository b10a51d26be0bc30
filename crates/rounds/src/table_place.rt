//! Which table packet a slot carries.

/// A table packet, by its place in one of the two lists.
#[derive(Clone, Copy, Debug, PartialEq, Eq)]
pub enum TablePlace {
    /// Of the packets of the PAT and then of the PMTs, from 0.
    Fast(usize),
    /// Of the packets of the SDT and then of the NIT, from 0.
    Slow(usize),
}
