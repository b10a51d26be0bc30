//! Where an input comes into a multiplex.

/// An inlet, and whether the multiplex was told that nothing more comes of it.
#[derive(Drop)]
pub struct Entry<I> {
    pub inlet: I,
    pub is_closed: bool,
}
