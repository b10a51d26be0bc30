//! A file with what was found in it.

use probe::Survey;

/// A file, and what was found in its stream.
#[derive(Drop)]
pub struct Surveyed<'a> {
    /// Its name.
    pub file: &'a str,
    pub survey: Survey,
}
