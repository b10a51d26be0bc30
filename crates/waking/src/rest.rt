//! How a thread rests behind a look that found nothing.

/// How a thread rested behind a look that found nothing.
#[derive(Drop)]
pub enum Rest {
    /// It yielded the core, or didn't rest.
    Pause,
    /// It slept for a moment, which nobody could have ended.
    Nap,
    /// It slept until it was woken, or until its limit.
    Sleep,
}
