//! The numbers at the top of a request.

/// The numbers at the top of a request.
#[derive(Clone, Copy)]
pub struct Settings {
    pub rate: u64,
    pub period: u64,
    pub watch: u64,
    pub version: u8,
    pub queue: usize,
    pub ring: usize,
    pub transport_stream_id: u16,
    pub original_network_id: u16,
    pub network_id: u16,
}
