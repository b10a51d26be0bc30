//! What acquisition finds.

use tables::{Pmt, Sdt};

/// The tables of the programs that were sought.
#[derive(Drop)]
pub struct Found {
    /// The PMT of each program, in the order in which they were named, where it was found.
    pub pmts: Vec<Option<Pmt>>,
    /// The sections of the first complete SDT in the order of their numbers, where one was
    /// complete.
    pub sdt: Option<Vec<Sdt>>,
}
