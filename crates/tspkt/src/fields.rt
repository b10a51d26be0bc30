//! Fields of a packet, by its bytes.
#![tactic(auto, using(crate::proofs::PacketFields::packet_fields))]

ghost use Rattle.std.specs.Prelude.{◌≡◌, ◌^◌, ◌<◌, ◌≤◌, length, take, drop};
ghost use Rattle.std.specs.Str.{bytes_eq};
ghost use Rattle.tspkt.specs.Packet.{sync_byte_of, pid_of, adaptation_field_control_of, has_adaptation_field_of, has_payload_of, has_flags_of, pcr_flag_of, pcr_base_of, pcr_extension_of, adaptation_field_length_of, has_bad_adaptation};
ghost use Rattle.tspkt.specs.Counters.{is_equal_but_pcr};
ghost use Rattle.tspkt.specs.Rewritten.{with_pid, with_pcr, with_later_pcr};

use crate::packet::PCR_MODULUS;
use byteorder::{BigEndian, ByteOrder};

/// The sync byte.
pub fn sync_byte(p: &[u8; 188]) -> u8
    ensures { result ≡ sync_byte_of p.now }
{
    p[0]
}

/// The PID.
pub fn pid(p: &[u8; 188]) -> u16
    ensures { result ≡ pid_of p.now }
{
    BigEndian::read_u16(&p[1..3]) % 0x2000
}

/// The adaptation field control, 0 to 3.
pub fn adaptation_field_control(p: &[u8; 188]) -> u8
    ensures { result ≡ adaptation_field_control_of p.now }
{
    p[3] / 16 % 4
}

/// Whether there is an adaptation field.
pub fn has_adaptation_field(p: &[u8; 188]) -> bool
    ensures { result ≡ has_adaptation_field_of p.now }
{
    p[3] / 32 % 2 == 1
}

/// Whether there is a payload.
pub fn has_payload(p: &[u8; 188]) -> bool
    ensures { result ≡ has_payload_of p.now }
{
    p[3] / 16 % 2 == 1
}

/// The adaptation field's length, where there is one.
pub fn adaptation_field_length(p: &[u8; 188]) -> u8
    ensures { result ≡ adaptation_field_length_of p.now }
{
    p[4]
}

/// Whether the adaptation field has its flags.
pub fn has_flags(p: &[u8; 188]) -> bool
    ensures { result ≡ has_flags_of p.now }
{
    has_adaptation_field(p) && adaptation_field_length(p) >= 1
}

/// Whether there is a PCR.
pub fn pcr_flag(p: &[u8; 188]) -> bool
    ensures { result ≡ pcr_flag_of p.now }
{
    has_flags(p) && p[5] / 16 % 2 == 1
}

/// Whether the adaptation field doesn't fit.
#[tactic(auto, using(crate::proofs::PacketFields::packet_fields), unfolding(crate::specs::Packet::has_bad_adaptation))]
pub fn has_bad_adaptation(p: &[u8; 188]) -> bool
    ensures { result ≡ has_bad_adaptation p.now }
{
    let control = adaptation_field_control(p);
    let length = adaptation_field_length(p);
    if control == 3 && length > 182 {
        return true;
    }
    if control == 2 && length != 183 {
        return true;
    }
    pcr_flag(p) && length < 7
}

/// The base of the PCR, where there is one.
pub fn pcr_base(p: &[u8; 188]) -> u64
    ensures value { result ≡ pcr_base_of p.now }
    ensures fits { result < 2 ^ 33 }
{
    u64::from(BigEndian::read_u32(&p[6..10])) * 2 + u64::from(p[10] / 128)
}

/// The extension of the PCR, where there is one.
pub fn pcr_extension(p: &[u8; 188]) -> u64
    ensures value { result ≡ pcr_extension_of p.now }
    ensures fits { result < 2 ^ 9 }
{
    u64::from(BigEndian::read_u16(&p[10..12]) % 512)
}

/// Writes another PID.
pub fn set_pid(p: &mut [u8; 188], pid: u16)
    requires { pid < 2 ^ 13 }
    ensures { p.new ≡ with_pid p.old pid }
{
    let flags = u16::from(p[1] / 32);
    BigEndian::write_u16(&mut p[1..3], flags * 0x2000 + pid);
}

/// Writes another PCR: base and extension, the reserved bits as they are.
pub fn set_pcr(p: &mut [u8; 188], pcr: u64)
    requires { pcr < PCR_MODULUS }
    ensures { p.new ≡ with_pcr p.old pcr }
{
    let base = pcr / 300;
    let reserved = u16::from(p[10] / 2 % 64);
    BigEndian::write_u32(&mut p[6..10], (base / 2) as u32);
    BigEndian::write_u16(
        &mut p[10..12],
        (base % 2) as u16 * 0x8000 + reserved * 0x200 + (pcr % 300) as u16,
    );
}

/// Adds a delay to the PCR, where there is one.
#[tactic(auto, unfolding(crate::specs::Rewritten::with_later_pcr))]
pub fn add_to_pcr(p: &mut [u8; 188], pcr: Option<u64>, delay: u64)
    ensures { p.new ≡ with_later_pcr pcr p.old delay }
{
    if let Some(pcr) = pcr {
        set_pcr(p, (pcr % PCR_MODULUS + delay % PCR_MODULUS) % PCR_MODULUS);
    }
}

fn head(p: &[u8]) -> &[u8]
    requires { 6 ≤ length p.now }
    ensures { result.now ≡ take 6 p.now }
{
    &p[..6]
}

fn tail(p: &[u8]) -> &[u8]
    requires { 12 ≤ length p.now }
    ensures { result.now ≡ drop 12 p.now }
{
    &p[12..]
}

fn equal(a: &[u8], b: &[u8]) -> bool
    ensures { result ≡ bytes_eq a.now b.now }
{
    a == b
}

/// Equal bytes, save for the PCR's bytes 6 to 11 where both have one.
#[tactic(auto, unfolding(crate::specs::Counters::is_equal_but_pcr))]
pub fn equal_but_pcr(a: &[u8; 188], b: &[u8; 188]) -> bool
    ensures { result ≡ is_equal_but_pcr a.now b.now }
{
    if pcr_flag(a) && pcr_flag(b) {
        equal(head(a), head(b)) && equal(tail(a), tail(b))
    } else {
        equal(a, b)
    }
}
