//! The service descriptor.

use crate::descriptor_loop::DescriptorLoop;
use crate::descriptors::split_descriptor;

/// The descriptor_tag.
const SERVICE_DESCRIPTOR: u8 = 0x48;

/// The body of a service descriptor (EN 300 468, 6.2.33).
#[derive(Clone, Copy)]
pub struct ServiceDescriptor<'a> {
    /// 8 bits.
    pub service_type: u8,
    /// At most 255 bytes.
    pub service_provider_name: &'a [u8],
    /// At most 255 bytes.
    pub service_name: &'a [u8],
}

impl<'a> ServiceDescriptor<'a> {
    ghost use Rattle.std.specs.Prelude.{◌≡◌, option_map};
    ghost use Rattle.tables.specs.Descriptors.{descriptors_of};
    ghost use Rattle.tables.specs.ServiceDescriptor.{service_of, service_value_of, first_service_of};

    /// What the body of a service descriptor says; none where its two lengths don't fill it.
    pub fn read(body: &'a [u8]) -> Option<ServiceDescriptor<'a>>
        ensures { option_map service_value_of result ≡ service_of body.now }
    {
        if body.len() < 3 {
            return None;
        }
        let provider_name_length = usize::from(body[1]);
        if body.len() < 3 + provider_name_length {
            return None;
        }
        let service_name_length = usize::from(body[2 + provider_name_length]);
        if body.len() != 3 + provider_name_length + service_name_length {
            return None;
        }
        Some(ServiceDescriptor {
            service_type: body[0],
            service_provider_name: &body[2..2 + provider_name_length],
            service_name: &body[3 + provider_name_length..],
        })
    }

    /// The first service descriptor in the loop whose lengths fill it.
    pub fn first_in(descriptors: &'a DescriptorLoop) -> Option<ServiceDescriptor<'a>>
        ensures { option_map service_value_of result ≡ first_service_of (descriptors_of 0 descriptors.now) }
    {
        let mut rest = descriptors.bytes();
        while !rest.is_empty() {
            let (descriptor, behind) = split_descriptor(rest);
            if descriptor.tag == SERVICE_DESCRIPTOR
                && let Some(service) = ServiceDescriptor::read(descriptor.body)
            {
                return Some(service);
            }
            rest = behind;
        }
        None
    }
}
