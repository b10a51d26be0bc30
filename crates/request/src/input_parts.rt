//! A row `[[input]]`.

/// An input as the plan's text gives it, before any range is looked at.
#[derive(Drop)]
pub struct InputParts {
    /// The name of its file.
    pub file: String,
    /// Its rate, in bits a second, 500,000 to 100,000,000.
    pub rate: i64,
    /// When its first byte comes, in ticks of 27 MHz, 0 to 97,200,000,000.
    pub offset: i64,
    /// How many bytes lie from one packet to the next, 188 or 204. Where it isn't said, it is 188.
    pub size: Option<i64>,
}
