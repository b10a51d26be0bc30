//! A reader that was told of its schedule.

/// The schedule of a feed, which takes no bytes, and an end that reads. It is generic in both only so that it is found that it may be
/// sent to another thread.
#[derive(Drop)]
pub struct Informed<P, R> {
    pub schedule: P,
    pub reader: R,
}
