//! A begun section that is no PMT.

ghost use Rattle.std.specs.Prelude.{◌≡◌, ◌≢◌, ◌≤◌, ◌+◌, length, drop, slice_index, true, IfSome};
ghost use Rattle.section.specs.Section.{section_length_of};
ghost use Rattle.section.specs.Assembled.{has_pointer};
ghost use Rattle.analyse.specs.UnreadSections.{Lacks};

use section::MAX_SECTION_LENGTH;
use std::marker::Model;
use tspkt::Packet;

/// The table_id of a PMT (ISO/IEC 13818-1, 2.4.4.4).
const PMT_TABLE_ID: u8 = 0x02;

/// Where a table_id would stand: no section begins here, nor behind it.
const STUFFING: u8 = 0xFF;

/// The number of bytes behind the third.
#[tactic(auto, using(section::proofs::SectionLaws::section_length_at))]
fn section_length(bytes: &[u8]) -> usize
    requires { 3 ≤ length bytes.now }
    ensures { result ≡ section_length_of bytes.now }
{
    usize::from(bytes[1] % 16) * 256 + usize::from(bytes[2])
}

/// How many bytes the section lacks that begins here, where it is no PMT and goes on behind these bytes.
#[tactic(auto, using(crate::proofs::TableIdLaws::table_id_at))]
fn lacking(bytes: &[u8]) -> Option<usize>
    ensures lacks { IfSome result (λ lacks. Lacks lacks bytes.now) }
    ensures section { IfSome result (λ lacks. slice_index bytes.now 0 ≢ 255) }
{
    if bytes.len() < 3 || bytes[0] == PMT_TABLE_ID || bytes[0] == STUFFING {
        return None;
    }
    let length = section_length(bytes);
    if length > MAX_SECTION_LENGTH || length + 3 <= bytes.len() {
        return None;
    }
    Some(length + 3 - bytes.len())
}

/// The bytes behind those that the pointer_field spans; none where they don't end within the payload.
fn behind_pointer(payload: &[u8]) -> Option<&[u8]>
    ensures within { IfSome result (λ bytes. has_pointer payload.now ≡ true) }
    ensures bytes { IfSome result (λ bytes. bytes.now ≡ drop (1 + slice_index payload.now 0) payload.now) }
{
    if payload.is_empty() || usize::from(payload[0]) >= payload.len() {
        return None;
    }
    Some(&payload[1 + usize::from(payload[0])..])
}

/// A section that was begun and is no PMT. The number of bytes that it lacks stands for its bytes, since nobody reads them:
/// it says only where the next section can begin.
#[derive(Drop)]
pub(crate) struct UnreadSection {
    lacks: usize,
    /// The last packet of the PID with a payload, and whether it was skipped as a copy.
    last: Packet,
    skipped: bool,
}

impl Model for UnreadSection {
    ghost use Rattle.analyse.specs.UnreadSections.{UnreadState};

    ghost Value = { UnreadState };

    ghost view = { λ u. record { lacks = u.lacks; last = u.last; skipped = u.skipped } };
}

impl UnreadSection {
    ghost use Rattle.std.specs.Prelude.{◌≡◌, ◌&&◌, [], true, false, not, IfSome};
    ghost use Rattle.tspkt.specs.Counters.{is_copy};
    ghost use Rattle.tspkt.specs.Packet.{has_payload_of, payload_unit_start_indicator_of};
    ghost use Rattle.section.specs.Assembled.{AssemblerState, fresh, packet_told};
    ghost use Rattle.analyse.specs.ToldPmts.{pmts_in};
    ghost use Rattle.analyse.specs.UnreadSections.{IsUnread, IsReadAnew, is_next};

    /// The section that begins behind the pointer of this packet, where it is no PMT and goes on in later packets. It is the
    /// first packet, or read as the first.
    pub fn begun_by(packet: &Packet) -> Option<UnreadSection>
        requires payload { has_payload_of packet.now ≡ true }
        requires start { payload_unit_start_indicator_of packet.now ≡ true }
        ensures begun { IfSome result (λ u. IsUnread u (packet_told fresh packet.now).state) }
        ensures no_pmt { IfSome result (λ u. pmts_in (packet_told fresh packet.now).told ≡ []) }
    {
        let bytes = behind_pointer(packet.payload())?;
        let lacks = lacking(bytes)?;
        Some(UnreadSection {
            lacks,
            last: *packet,
            skipped: false,
        })
    }

    /// Sees the next packet with a payload, and tells whether the section goes on behind it. Where it doesn't, the packet is
    /// still to be read, as if no section were begun.
    pub fn push(&mut self, packet: &Packet) -> bool
        requires { has_payload_of packet.now ≡ true }
        ensures on { result ≡ true → (s : AssemblerState) → IsUnread self.old s
            → IsUnread self.new (packet_told s packet.now).state }
        ensures no_pmt { result ≡ true → (s : AssemblerState) → IsUnread self.old s
            → pmts_in (packet_told s packet.now).told ≡ [] }
        ensures anew { result ≡ false → (s : AssemblerState) → IsUnread self.old s → IsReadAnew s packet.now }
    {
        if self.is_repeated_by(packet) {
            self.last = *packet;
            self.skipped = true;
            return true;
        }
        if !self.is_followed_by(packet) {
            return false;
        }
        let count = packet.payload().len();
        if self.lacks <= count {
            return false;
        }
        self.lacks -= count;
        self.last = *packet;
        self.skipped = false;
        true
    }

    /// Whether the packet is the last one sent again, and that one wasn't skipped itself.
    fn is_repeated_by(&self, packet: &Packet) -> bool
        ensures { result ≡ (not self.now.skipped && is_copy self.now.last packet.now) }
    {
        !self.skipped && self.last.is_copy(packet)
    }

    /// Whether the packet is the next one, and no section begins in it.
    fn is_followed_by(&self, packet: &Packet) -> bool
        ensures { result ≡ is_next self.now packet.now }
    {
        !packet.unit_start() && packet.counter() == (self.last.counter() + 1) % 16
    }
}
