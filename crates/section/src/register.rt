//! CRC_32 (ISO/IEC 13818-1, Annex A).

ghost use Rattle.std.specs.Prelude.{◌≡◌, ◌++◌};
ghost use Rattle.section.specs.Crc.{crc_bits, byte_bits, bits_of, crc_of, crc_bytes};

use crate::table::entry;

/// A byte goes into the register.
fn byte_step(register: u32, byte: u8) -> u32
    ensures { result ≡ crc_bits register (byte_bits byte) }
{
    (register << 8) ^ entry((register >> 24) as u8 ^ byte)
}

/// The register behind the bytes, from a start on.
fn register_behind(bytes: &[u8], start: u32) -> u32
    ensures { result ≡ crc_bits start (bits_of bytes.now) }
{
    let mut register = start;
    for byte in bytes {
        register = byte_step(register, *byte);
    }
    register
}

/// The CRC_32 of the bytes (ISO/IEC 13818-1, Annex A): the register behind them, all ones at the
/// start and not inverted at the end. Over bytes with their CRC behind them, the high byte first,
/// it is 0.
#[tactic(auto, unfolding(crate::specs::Crc::crc_of))]
pub fn crc(bytes: &[u8]) -> u32
    ensures value { result ≡ crc_of bytes.now }
    ensures own { crc_of (bytes.now ++ crc_bytes result) ≡ 0 }
{
    register_behind(bytes, 0xFFFF_FFFF)
}
