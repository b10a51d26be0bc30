//! What the sections of a slot say of a table.

/// What the sections that a slot told are to a table.
#[derive(Clone, Copy, Debug, PartialEq, Eq)]
pub struct TableSeen {
    /// One of them is a section of the table.
    pub came: bool,
    /// What the table says may have changed; where not, it stayed as it was.
    pub changed: bool,
}
