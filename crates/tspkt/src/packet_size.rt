//! The size of the packets of a stream.

/// How many packets a stream has at most, where no other limit is given.
const PACKETS: u64 = 16_777_216;

/// The size of the packets of a stream, with the bytes behind each: how far apart they stand.
#[derive(Clone, Copy, Debug, PartialEq, Eq)]
pub enum PacketSize {
    /// Every 188 bytes, with nothing between them (ISO/IEC 13818-1, 2.4.3.2).
    Ts188,
    /// Every 204 bytes: sixteen bytes of an outer code follow each (ETSI EN 300 421, 4.4.2), and nothing reads them.
    Ts204,
}

impl PacketSize {
    ghost use Rattle.std.specs.Prelude.{◌≡◌, ◌≤◌};
    ghost use Rattle.tspkt.specs.PacketSize.{stride_of, limit_of};

    /// From the first byte of a packet to that of the next: 188 or 204.
    pub fn stride(self) -> usize
        ensures value { result ≡ stride_of self }
        ensures long { 188 ≤ result }
        ensures small { result ≤ 204 }
    {
        match self {
            PacketSize::Ts188 => 188,
            PacketSize::Ts204 => 204,
        }
    }

    /// The most bytes of a stream where no other limit is given, 16,777,216 packets: 3,154,116,608 or 3,422,552,064.
    pub fn limit(self) -> u64
        ensures value { result ≡ limit_of self }
        ensures within { result ≤ 3422552064 }
    {
        PACKETS * self.stride() as u64
    }
}
