//! How many bytes an input may have.

use tspkt::PacketSize;

/// How many bytes an input may have, those that follow its packets included.
#[derive(Clone, Copy, Debug, PartialEq, Eq)]
pub enum InputLimit {
    /// As many as 16,777,216 packets of its size have (profile): 3,154,116,608 bytes at 188, and 3,422,552,064 at 204.
    OfSize,
    /// So many bytes, at any size: up to 140,737,488,355,328.
    Bytes(u64),
}

impl InputLimit {
    ghost use Rattle.std.specs.Prelude.{◌≡◌, ◌≤◌};
    ghost use Rattle.tspkt.specs.declared.framer.TheConstants.{MAX_LIMIT};
    ghost use Rattle.reading.specs.InputLimit.{limit_of_input, IsAllowed};

    /// The most bytes of an input of this size.
    pub fn bytes(self, size: PacketSize) -> u64
        ensures value { result ≡ limit_of_input self size }
        ensures within { IsAllowed self → result ≤ MAX_LIMIT }
    {
        match self {
            InputLimit::OfSize => size.limit(),
            InputLimit::Bytes(bytes) => bytes,
        }
    }
}
