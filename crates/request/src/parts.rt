//! A plan's values, before any range is looked at.

use crate::input_parts::InputParts;
use crate::service_parts::ServiceParts;

/// A plan as its text gives it, before any range is looked at.
#[derive(Drop)]
pub struct Parts {
    /// The rate of the multiplex, in bits a second, 500,000 to 100,000,000.
    pub rate: i64,
    /// How many slots lie between two rounds of the tables, 1 to 1,000,000.
    pub period: i64,
    /// After how many slots without a packet of a PID its absence is told (ETSI TR 101 290, 1.6), 1 to 1,000,000.
    pub watch: i64,
    /// The version_number of the tables, 0 to 31.
    pub version: i64,
    /// How many packets the queue of a stream holds, 1 to 1,024.
    pub queue: i64,
    /// How many packets the ring of an input holds, 1 to 1,024.
    pub ring: i64,
    /// transport_stream_id of the output, 0 to 65,535.
    pub transport_stream_id: i64,
    /// original_network_id of the output, 0 to 65,535.
    pub original_network_id: i64,
    /// network_id of the output's network, 0 to 65,535.
    pub network_id: i64,
    /// The name of that network, 1 to 64 bytes from 0x20 to 0x7E.
    pub network_name: String,
    /// The descriptors of the output in the NIT, whole ones of at most 900 bytes in all.
    pub transport_descriptors: Vec<u8>,
    /// The inputs, 1 to 8.
    pub inputs: Vec<InputParts>,
    /// The services, 1 to 16.
    pub services: Vec<ServiceParts>,
}
