//! Descriptor loops, as bytes.
#![tactic(auto)]

ghost use Rattle.std.specs.Prelude.{◌≡◌, ◌<◌, ◌∷◌, [], true, length};
ghost use Rattle.tables.specs.Descriptors.{are_whole, descriptors_of};
ghost use Rattle.tables.specs.Descriptor.{descriptor_value_of};

use crate::descriptor::Descriptor;

/// Whether the bytes are whole descriptors, one behind the other (ISO/IEC 13818-1, 2.6.1).
pub fn are_whole(bytes: &[u8]) -> bool
    ensures { result ≡ are_whole 0 bytes.now }
{
    let mut at = 0;
    while at < bytes.len() {
        if bytes.len() - at < 2 {
            return false;
        }
        let count = usize::from(bytes[at + 1]);
        if bytes.len() - at < 2 + count {
            return false;
        }
        at = at + 2 + count;
    }
    true
}

/// The first of some whole descriptors, and the bytes of the others.
#[tactic(auto, using(crate::proofs::DescriptorLaws::split_steps))]
pub fn split_descriptor(bytes: &[u8]) -> (Descriptor<'_>, &[u8])
    requires some { 0 < length bytes.now }
    requires whole { are_whole 0 bytes.now ≡ true }
    ensures descriptors { descriptors_of 0 bytes.now ≡ descriptor_value_of result.0 ∷ descriptors_of 0 result.1.now }
    ensures whole { are_whole 0 result.1.now ≡ true }
    ensures shorter { length result.1.now < length bytes.now }
{
    let count = usize::from(bytes[1]);
    let descriptor = Descriptor {
        tag: bytes[0],
        body: &bytes[2..2 + count],
    };
    (descriptor, &bytes[2 + count..])
}
