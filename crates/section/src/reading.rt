//! Sections from the payloads of one PID (ISO/IEC 13818-1, 2.4.4).
//!
//! What is told goes to a vector that has room for it, so that nothing here can fail.

ghost use Rattle.std.specs.Prelude.{◌≡◌, ◌+◌, ◌-◌, ◌*◌, ◌≤◌, ◌<◌, ◌++◌, [], ◌∷◌, length, take, min, Bool, vec_len, vec_capacity};
ghost use Rattle.section.specs.Section.{section_length_of};
ghost use Rattle.section.specs.Assembled.{sections_from, cut, ending, payload_told, told_of_whole};
ghost use Rattle.section.specs.Collecting.{IsBegun, Collects, Reads};

use crate::collected::Collected;
use crate::register::crc;
use crate::told::Told;
use arrayvec::ArrayVec;

/// The most that section_length of a table may be (ISO/IEC 13818-1, 2.4.4; ETSI EN 300 468, 5.2).
pub const MAX_SECTION_LENGTH: usize = 1021;

/// Where a table_id would stand: no section begins here, nor behind it.
const STUFFING: u8 = 0xFF;

/// The number of bytes behind the third.
#[tactic(auto, using(crate::proofs::SectionLaws::section_length_at))]
fn section_length(bytes: &[u8]) -> usize
    requires { 3 ≤ length bytes.now }
    ensures { result ≡ section_length_of bytes.now }
{
    usize::from(bytes[1] % 16) * 256 + usize::from(bytes[2])
}

/// Adds bytes until the first three of the section are there, and says how many.
fn collect_length(begun: &mut ArrayVec<u8, 1024>, bytes: &[u8]) -> usize
    requires { length begun.old.items < 1024 }
    ensures count { result ≡ min (3 - length begun.old.items) (length bytes.now) }
    ensures items { begun.new.items ≡ begun.old.items ++ take result bytes.now }
{
    let count = 3usize.saturating_sub(begun.len()).min(bytes.len());
    begun.try_extend_from_slice(&bytes[..count]).unwrap();
    count
}

/// Tells the whole section, and keeps none of it.
fn tell_whole(begun: &mut ArrayVec<u8, 1024>, out: &mut Vec<Told>)
    requires { vec_len out.old < vec_capacity out.old }
    ensures begun { begun.new.items ≡ [] }
    ensures told { out.new.items ≡ out.old.items ++ (told_of_whole begun.old.items ∷ []) }
    ensures len { vec_len out.new ≡ vec_len out.old + 1 }
    ensures capacity { vec_capacity out.new ≡ vec_capacity out.old }
{
    if crc(begun) == 0 {
        out.push_reserved(Told::Section(begun.take()));
    } else {
        begun.clear();
        out.push_reserved(Told::BadCrc);
    }
}

/// Adds the bytes to the begun section, up to its end.
fn collect(begun: &mut ArrayVec<u8, 1024>, bytes: &[u8], out: &mut Vec<Told>) -> Collected
    requires begun { IsBegun begun.old.items }
    requires room { vec_len out.old < vec_capacity out.old }
    ensures collects { Collects begun.old.items bytes.now begun.new.items out.old.items out.new.items result }
    ensures len { vec_len out.new ≤ vec_len out.old + 1 }
    ensures capacity { vec_capacity out.new ≡ vec_capacity out.old }
{
    let head = collect_length(begun, bytes);
    if begun.len() < 3 {
        return Collected::Begun;
    }
    let length = section_length(begun);
    if length > MAX_SECTION_LENGTH {
        begun.clear();
        out.push_reserved(Told::TooLong);
        return Collected::TooLong;
    }
    let rest = &bytes[head..];
    let missing = length + 3 - begun.len();
    if rest.len() < missing {
        begun.try_extend_from_slice(rest).unwrap();
        return Collected::Begun;
    }
    begun.try_extend_from_slice(&rest[..missing]).unwrap();
    tell_whole(begun, out);
    Collected::Whole(head + missing)
}

/// Adds the bytes to a section that was begun; without one they are ignored. Whether it is too long.
fn collect_ending(begun: &mut ArrayVec<u8, 1024>, bytes: &[u8], out: &mut Vec<Told>) -> bool
    requires begun { IsBegun begun.old.items }
    requires room { vec_len out.old < vec_capacity out.old }
    ensures reads { Reads (ending begun.old.items bytes.now) begun.new.items out.old.items out.new.items }
    ensures ended { result ≡ (ending begun.old.items bytes.now).ended }
    ensures len { vec_len out.new ≤ vec_len out.old + 1 }
    ensures capacity { vec_capacity out.new ≡ vec_capacity out.old }
{
    if begun.is_empty() {
        return false;
    }
    collect(begun, bytes, out).is_ended()
}

/// Gives a begun section up.
pub fn give_up(begun: &mut ArrayVec<u8, 1024>, out: &mut Vec<Told>)
    requires { vec_len out.old < vec_capacity out.old }
    ensures begun { begun.new.items ≡ [] }
    ensures told { out.new.items ≡ out.old.items ++ cut begun.old.items }
    ensures len { vec_len out.new ≤ vec_len out.old + 1 }
    ensures capacity { vec_capacity out.new ≡ vec_capacity out.old }
{
    if !begun.is_empty() {
        begun.clear();
        out.push_reserved(Told::Cut);
    }
}

/// Reads sections, one behind the other, where none is begun.
fn read_sections(begun: &mut ArrayVec<u8, 1024>, bytes: &[u8], out: &mut Vec<Told>)
    requires begun { begun.old.items ≡ [] }
    requires room { 3 * vec_len out.old + length bytes.now ≤ 3 * vec_capacity out.old }
    ensures reads { Reads (sections_from 0 bytes.now) begun.new.items out.old.items out.new.items }
    ensures capacity { vec_capacity out.new ≡ vec_capacity out.old }
{
    let mut at = 0;
    while at < bytes.len() && bytes[at] != STUFFING {
        match collect(begun, &bytes[at..], out) {
            Collected::Whole(count) => at += count,
            Collected::TooLong => return,
            Collected::Begun => return,
        }
    }
}

/// Reads a payload.
#[tactic(auto, unfolding(crate::specs::Assembled::payload_told))]
pub fn read_payload(
    begun: &mut ArrayVec<u8, 1024>,
    start: bool,
    payload: &[u8],
    out: &mut Vec<Told>,
)
    requires begun { IsBegun begun.old.items }
    requires room { 3 * vec_len out.old + 5 + length payload.now ≤ 3 * vec_capacity out.old }
    ensures reads { let reading = payload_told begun.old.items start payload.now in
        Reads reading begun.new.items out.old.items out.new.items }
    ensures capacity { vec_capacity out.new ≡ vec_capacity out.old }
{
    if !start {
        collect_ending(begun, payload, out);
        return;
    }
    if payload.is_empty() || usize::from(payload[0]) >= payload.len() {
        give_up(begun, out);
        return;
    }
    let pointer = usize::from(payload[0]);
    if collect_ending(begun, &payload[1..1 + pointer], out) {
        return;
    }
    give_up(begun, out);
    read_sections(begun, &payload[1 + pointer..], out);
}
