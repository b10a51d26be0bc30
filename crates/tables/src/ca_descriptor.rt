//! The CA descriptor.

ghost use Rattle.std.specs.Prelude.{◌≡◌};
ghost use Rattle.tables.specs.Descriptors.{descriptors_of};
ghost use Rattle.tables.specs.CaDescriptor.{has_ca_tag};

use crate::descriptor_loop::DescriptorLoop;

/// The descriptor_tag.
const CA_DESCRIPTOR: u8 = 0x09;

/// Whether one of the descriptors is a CA descriptor (ISO/IEC 13818-1, 2.6.16), whatever its body.
#[tactic(auto, using(crate::proofs::DescriptorLaws::found_any))]
pub fn has_ca_descriptor(descriptors: &DescriptorLoop) -> bool
    ensures { result ≡ has_ca_tag (descriptors_of 0 descriptors.now) }
{
    descriptors.first(CA_DESCRIPTOR).is_some()
}
