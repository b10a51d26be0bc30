//! Which head of a block goes first.

/// The head of a block that goes first: its rank, and its place among all heads.
#[derive(Clone, Copy)]
pub(crate) struct FirstHead {
    pub rank: u64,
    pub place: usize,
}
