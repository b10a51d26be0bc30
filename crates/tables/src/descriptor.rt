//! One descriptor.

/// A descriptor (ISO/IEC 13818-1, 2.6.1).
#[derive(Clone, Copy)]
pub struct Descriptor<'a> {
    /// descriptor_tag, 8 bits.
    pub tag: u8,
    /// The bytes behind descriptor_length, at most 255.
    pub body: &'a [u8],
}
