//! A descriptor loop.

use crate::descriptor::Descriptor;
use crate::descriptors::{are_whole, split_descriptor};
use std::alloc::{AllocError, Global};
use std::marker::Model;

/// Whole descriptors, one behind the other, as they stand in a section (ISO/IEC 13818-1, 2.6.1).
/// Contracts see its bytes.
#[derive(Drop)]
pub struct DescriptorLoop {
    bytes: Vec<u8>,
}

impl Model for DescriptorLoop {
    ghost use Rattle.std.specs.Prelude.{◌≡◌, ℕ, List, true};
    ghost use Rattle.tables.specs.Descriptors.{are_whole};

    ghost Value = { List ℕ };

    ghost view = { λ s. s.bytes.items };

    ghost invariant = { λ s. are_whole 0 s.bytes.items ≡ true };
}

impl DescriptorLoop {
    ghost use Rattle.std.specs.Prelude.{◌≡◌, ◌≤◌, ◌==◌, ◌++◌, ◌↔◌, [], true, length, find, option_map, IsOk, IfOk, MatchResult};
    ghost use Rattle.tables.specs.Descriptors.{are_whole, descriptor_bytes, descriptors_of};
    ghost use Rattle.tables.specs.Descriptor.{descriptor_value_of};

    /// A loop of no descriptors.
    #[tactic(auto, using(crate::proofs::DescriptorLaws::whole_nil))]
    pub fn new(alloc: Global) -> DescriptorLoop
        ensures { result ≡ [] }
    {
        DescriptorLoop {
            bytes: Vec::new(alloc),
        }
    }

    /// The loop that these bytes are, or the same bytes where they aren't whole descriptors.
    pub fn from_bytes(bytes: Vec<u8>) -> Result<DescriptorLoop, Vec<u8>>
        ensures whole { IsOk result ↔ (are_whole 0 bytes.items ≡ true) }
        ensures value { MatchResult result (λ descriptors. descriptors ≡ bytes.items) (λ back. back ≡ bytes) }
    {
        if !are_whole(&bytes) {
            return Err(bytes);
        }
        Ok(DescriptorLoop { bytes })
    }

    /// A copy of whole descriptors, with no room for more. It fails only for want of memory.
    pub(crate) fn copy(alloc: Global, bytes: &[u8]) -> Result<DescriptorLoop, AllocError>
        requires { are_whole 0 bytes.now ≡ true }
        ensures { IfOk result (λ descriptors. descriptors ≡ bytes.now) }
    {
        let bytes = Vec::from_slice(alloc, bytes)?;
        Ok(DescriptorLoop { bytes })
    }

    /// The bytes of the descriptors, one behind the other.
    pub fn bytes(&self) -> &[u8]
        ensures value { result.now ≡ self.now }
        ensures whole { are_whole 0 self.now ≡ true }
    {
        &self.bytes
    }

    /// Adds a descriptor of at most 255 bytes of body behind the others. It fails only for want of
    /// memory, and changes nothing then.
    pub fn push(&mut self, tag: u8, body: &[u8]) -> Result<(), AllocError>
        requires { length body.now ≤ 255 }
        ensures { MatchResult result
            (λ _. self.new ≡ self.old ++ descriptor_bytes tag body.now) (λ _. self.new ≡ self.old) }
    {
        self.bytes.reserve(2 + body.len())?;
        self.bytes.push_reserved(tag);
        self.bytes.push_reserved(body.len() as u8);
        self.bytes.extend_from_slice(body).unwrap();
        Ok(())
    }

    /// The first descriptor with this tag.
    pub fn first(&self, tag: u8) -> Option<Descriptor<'_>>
        ensures { option_map descriptor_value_of result ≡ find (λ d. d.tag == tag) (descriptors_of 0 self.now) }
    {
        let mut rest = self.bytes();
        while !rest.is_empty() {
            let (descriptor, behind) = split_descriptor(rest);
            if descriptor.tag == tag {
                return Some(descriptor);
            }
            rest = behind;
        }
        None
    }
}
