//! What an end of a feed knows.

use schedule::Schedule;

/// Whether an end was told of its feed, and if so its schedule and which feed it is. No value of it is made.
pub struct Knowledge {
    pub is_told: bool,
    pub schedule: Option<Schedule>,
    pub number: u64,
    pub log_name: u64,
    pub cells_name: u64,
}
