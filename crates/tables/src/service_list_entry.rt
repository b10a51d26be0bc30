//! An entry of a service list descriptor.

/// A service in a service list descriptor (EN 300 468, 6.2.35).
#[derive(Clone, Copy, Debug, PartialEq, Eq)]
pub struct ServiceListEntry {
    /// 16 bits.
    pub service_id: u16,
    /// 8 bits.
    pub service_type: u8,
}
