//! What the first bytes of a stream look like.

ghost use Rattle.std.specs.Prelude.{◌≤◌, ◌<◌, ◌↔◌, length, IsTrue, IfSome, unwrap_or};
ghost use Rattle.tspkt.specs.PacketSize.{stride_of};
ghost use Rattle.files.specs.Shape.{HasPackets, HasNoneBelow, LooksLike};

use std::fmt;
use std::fmt::{Display, Formatter};
use tspkt::{PacketSize, acquires_sync};

/// The first byte of a packet.
const SYNC: u8 = 0x47;

/// What the first bytes of a stream look like.
#[derive(Clone, Copy, Debug, PartialEq, Eq)]
pub enum StreamShape {
    /// There are none.
    Empty,
    /// Five packets of so many bytes.
    Packets(usize),
    /// There is no sync byte.
    NoSync,
    /// There are sync bytes, but not five in step.
    OutOfStep,
}

/// Whether there are five packets of so many bytes, up to 208.
fn has_packets(bytes: &[u8], stride: usize) -> bool
    requires { stride ≤ 208 }
    ensures { IsTrue result ↔ HasPackets bytes.now stride }
{
    for offset in 0..bytes.len() {
        if acquires_sync(&bytes[offset..], stride) {
            return true;
        }
    }
    false
}

/// Whether the first bytes of a stream have five packets of this size.
pub fn has_size(bytes: &[u8], size: PacketSize) -> bool
    ensures { IsTrue result ↔ HasPackets bytes.now (stride_of size) }
{
    has_packets(bytes, size.stride())
}

/// The length of the packets, if there are five: of plain ones, of those with a time stamp before each, of those with 16 bytes
/// behind each, as a receiver adds them, or of those with both.
fn packet_length(bytes: &[u8]) -> Option<usize>
    ensures found { IfSome result (HasPackets bytes.now) }
    ensures shortest { HasNoneBelow bytes.now (unwrap_or result 209) }
{
    if has_packets(bytes, 188) {
        Some(188)
    } else if has_packets(bytes, 192) {
        Some(192)
    } else if has_packets(bytes, 204) {
        Some(204)
    } else if has_packets(bytes, 208) {
        Some(208)
    } else {
        None
    }
}

/// What the first bytes of a stream look like. The shortest packets are named of which there are five.
pub fn shape_of(bytes: &[u8]) -> StreamShape
    ensures { LooksLike bytes.now result }
{
    if bytes.is_empty() {
        return StreamShape::Empty;
    }
    match packet_length(bytes) {
        Some(length) => StreamShape::Packets(length),
        None if bytes.contains(&SYNC) => StreamShape::OutOfStep,
        None => StreamShape::NoSync,
    }
}

impl StreamShape {
    ghost use Rattle.std.specs.Prelude.{◌≡◌};
    ghost use Rattle.files.specs.Shape.{size_of};

    /// The size that its packets have; none where there are no packets of one.
    pub fn size(self) -> Option<PacketSize>
        ensures { result ≡ size_of self }
    {
        match self {
            StreamShape::Packets(188) => Some(PacketSize::Ts188),
            StreamShape::Packets(204) => Some(PacketSize::Ts204),
            _ => None,
        }
    }
}

impl Display for StreamShape {
    fn fmt<W: fmt::Write>(&self, f: &mut Formatter<W>) -> fmt::Result {
        match self {
            StreamShape::Empty => f.write_str("it is empty"),
            StreamShape::Packets(length) => {
                write!(f, "it looks like packets of {length} bytes")?;
                match self.size() {
                    Some(_) => Ok(()),
                    None => f.write_str("; they have to have 188 or 204"),
                }
            }
            StreamShape::NoSync => {
                f.write_str(
                    "it has no sync byte, 0x47, at its beginning: it is no transport stream",
                )
            }
            StreamShape::OutOfStep => {
                f.write_str(
                    "no five sync bytes stand in step at its beginning: it is no transport stream, or has fewer than five packets",
                )
            }
        }
    }
}
