//! What is measured.

use crate::multiplex::{CABLE, Multiplex, RECORDINGS, RECORDINGS_SERIAL, THIN, TRANSPONDER};

/// What is measured.
#[derive(Clone, Copy, Debug)]
pub enum Job {
    /// A multiplex is made.
    Multiplex(Multiplex),
    /// A stream is analysed.
    Judged,
}

impl Job {
    /// The job of this name, and how many seconds of streams its inputs have.
    pub fn named(name: &str) -> Option<(Job, u64)> {
        match name {
            "recordings" => Some((Job::Multiplex(RECORDINGS), 300)),
            "recordings_serial" => Some((Job::Multiplex(RECORDINGS_SERIAL), 250)),
            "cable" => Some((Job::Multiplex(CABLE), 90)),
            "transponder" => Some((Job::Multiplex(TRANSPONDER), 900)),
            "thin" => Some((Job::Multiplex(THIN), 200)),
            "judged" => Some((Job::Judged, 700)),
            _ => None,
        }
    }
}
