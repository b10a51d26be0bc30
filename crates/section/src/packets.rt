//! The packets of a section (ISO/IEC 13818-1, 2.4.4).

ghost use Rattle.std.specs.Prelude.{◌≡◌, ℕ, ◌+◌, ◌-◌, ◌*◌, ◌^◌, ◌<◌, ◌≤◌, ◌++◌, [], ◌∷◌, length, take, drop, slice_index_or, Bool, IfOk};
ghost use Rattle.std.specs.List.{flat_map};
ghost use Rattle.tspkt.specs.Packet.{payload_of};
ghost use Rattle.section.specs.Section.{IsGoodSection};
ghost use Rattle.section.specs.Assembled.{assembled};
ghost use Rattle.section.specs.Packetized.{packet_count_of, stuffed, header_of};
ghost use Rattle.section.specs.Packetizing.{IsPart};

use crate::told::Told;
use arrayvec::ArrayVec;
use std::alloc::{AllocError, Global};
use tspkt::Packet;

/// What fills the last packet.
const STUFFING: [u8; 184] = [0xFF; 184];

/// The section begins right behind its pointer field.
const POINTER_FIELD: u8 = 0;

/// The payload bytes of packet `place` that come from the section: 183 behind the pointer field of
/// the first packet, 184 of each later one, and what is left in the last one.
fn part_at(section: &[u8], place: usize) -> &[u8]
    requires { 184 * place ≤ length section.now }
    ensures { result.now ≡ take (184 - (1 - place)) (drop (184 * place - 1) section.now) }
{
    let (start, room) = if place == 0 {
        (0, 183)
    } else {
        (184 * place - 1, 184)
    };
    let rest = &section[start..];
    &rest[..rest.len().min(room)]
}

/// The four header bytes of packet `place`: payload only, and not scrambled.
fn header_at(pid: u16, first_counter: u8, place: usize) -> [u8; 4]
    requires pid { pid < 2 ^ 13 }
    requires counter { first_counter < 16 }
    requires place { place < 16 }
    ensures { result ≡ header_of pid first_counter place }
{
    let unit_start = if place == 0 { 0x40 } else { 0 };
    [
        0x47,
        unit_start + (pid / 256) as u8,
        (pid % 256) as u8,
        0x10 + (first_counter + place as u8) % 16,
    ]
}

/// The bytes of packet `place` behind a header.
fn bytes_at(section: &[u8], header: &[u8; 4], place: usize) -> [u8; 188]
    requires some { 0 < length section.now }
    requires place { 184 * place ≤ length section.now }
    ensures { result ≡ header.now ++ take 184 (drop (184 * place) (stuffed section.now)) }
{
    let mut bytes: ArrayVec<u8, 188> = ArrayVec::new();
    bytes.try_extend_from_slice(header).unwrap();
    if place == 0 {
        bytes.push(POINTER_FIELD);
    }
    bytes
        .try_extend_from_slice(part_at(section, place))
        .unwrap();
    bytes
        .try_extend_from_slice(&STUFFING[..188 - bytes.len()])
        .unwrap();
    bytes.into_inner().unwrap()
}

/// Packet `place` of the section.
fn packet_at(section: &[u8], pid: u16, first_counter: u8, place: usize) -> Packet
    requires some { 0 < length section.now }
    requires place { 184 * place ≤ length section.now }
    requires whole { length section.now ≤ 1024 }
    requires pid { pid < 2 ^ 13 }
    requires counter { first_counter < 16 }
    ensures { IsPart section.now pid first_counter place result }
{
    let header = header_at(pid, first_counter, place);
    let bytes = bytes_at(section, &header, place);
    Packet::read(&bytes).unwrap()
}

/// The packets of a section of 1 to 1,024 bytes, on a PID (0 to 0x1FFF) and from a first counter
/// (0 to 15) on (ISO/IEC 13818-1, 2.4.4).
///
/// They hold a pointer field 0, the section, and stuffing bytes 0xFF up to the end of the last
/// packet. The section is taken as it is; one that is as it should be is found again, and nothing
/// else, by a new assembler that is given the packets. It is refused only for want of memory.
pub fn packets_of(
    alloc: Global,
    section: &[u8],
    pid: u16,
    first_counter: u8,
) -> Result<Vec<Packet>, AllocError>
    requires some { 0 < length section.now }
    requires whole { length section.now ≤ 1024 }
    requires pid { pid < 2 ^ 13 }
    requires counter { first_counter < 16 }
    ensures count { IfOk result (λ packets. length packets.items ≡ packet_count_of section.now) }

    // Each packet's header bytes, and all the payloads.
    ensures headers { IfOk result (λ packets. (k : ℕ) → k < length packets.items →
        take 4 (slice_index_or packets.items k []) ≡ header_of pid first_counter k) }
    ensures payloads { IfOk result (λ packets. flat_map payload_of packets.items ≡ stuffed section.now) }

    ensures found_again { IfOk result (λ packets. IsGoodSection section.now →
        assembled packets.items ≡ Told.Section (record { items = section.now }) ∷ []) }
{
    let count = (section.len() + 184) / 184;
    let mut packets = Vec::with_capacity(alloc, count)?;
    for place in 0..count {
        packets.push_reserved(packet_at(section, pid, first_counter, place));
    }
    Ok(packets)
}
