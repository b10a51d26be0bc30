//! One packet of 188 bytes.
#![tactic(auto, using(crate::proofs::PacketFields::packet_fields))]

use crate::fields;
use crate::malformed::Malformed;
use std::marker::Model;

/// The modulus of a PCR in ticks of 27 MHz: 2^33 * 300 (ISO/IEC 13818-1, 2.4.3.5).
pub const PCR_MODULUS: u64 = 2_576_980_377_600;

/// How many PIDs there are: a PID has 13 bits (ISO/IEC 13818-1, 2.4.3.2).
pub const PID_COUNT: usize = 8_192;

/// The PID of null packets (ISO/IEC 13818-1, 2.4.3.3).
pub const NULL_PID: u16 = 0x1FFF;

/// A transport stream packet: 188 bytes in which `read` finds no fault. It begins with the sync byte, adaptation_field_control
/// isn't 0, and the adaptation field has a length that the standard allows and room for the PCR that its flag tells of
/// (ISO/IEC 13818-1, 2.4.3.2 to 2.4.3.5); what else may stand in that field isn't looked at. Packets with the transport error
/// indicator are packets as others (profile).
#[derive(Clone, Copy)]
pub struct Packet {
    bytes: [u8; 188],
}

impl Model for Packet {
    ghost use Rattle.std.specs.Prelude.{ℕ, List};
    ghost use Rattle.tspkt.specs.Packet.{IsPacket};

    ghost Value = { List ℕ };

    ghost view = { λ p. p.bytes };

    ghost invariant = { λ p. IsPacket p.bytes };

    ghost inverse = { λ bytes. record { bytes = bytes } };
}

impl Packet {
    ghost use Rattle.std.specs.Prelude.{◌≡◌, ◌+◌, ◌^◌, ◌<◌, ◌≤◌, ℕ, length, None, Some, MatchResult};
    ghost use Rattle.tspkt.specs.Bits.{bit};
    ghost use Rattle.tspkt.specs.Packet.{fault_of, IsPacket, pid_of, continuity_counter_of, has_payload_of, discontinuity_indicator_of, payload_unit_start_indicator_of, transport_scrambling_control_of, pcr_of, payload_of, payload_start_of};
    ghost use Rattle.tspkt.specs.Counters.{is_copy};
    ghost use Rattle.tspkt.specs.Counted.{with_counter, IsOutsideCounter};
    ghost use Rattle.tspkt.specs.Rewritten.{rewritten};

    /// The first fault of these bytes, read as a packet; none where they are one. Nothing is copied.
    #[tactic(auto, unfolding(crate::specs::Packet::fault_of))]
    pub fn fault(bytes: &[u8; 188]) -> Option<Malformed>
        ensures { result ≡ fault_of bytes.now }
    {
        if fields::sync_byte(bytes) != 0x47 {
            return Some(Malformed::BadSync);
        }
        if fields::adaptation_field_control(bytes) == 0 {
            return Some(Malformed::ReservedControl);
        }
        if fields::has_bad_adaptation(bytes) {
            return Some(Malformed::BadAdaptation);
        }
        None
    }

    /// The PID of these bytes, read as a packet, 0 to 0x1FFF. Nothing is copied.
    pub fn pid_in(bytes: &[u8; 188]) -> u16
        ensures value { result ≡ pid_of bytes.now }
        ensures fits { result < 2 ^ 13 }
    {
        fields::pid(bytes)
    }

    /// The packet in these bytes, or the first fault that they have.
    pub fn read(bytes: &[u8; 188]) -> Result<Packet, Malformed>
        ensures { MatchResult result
            (λ packet. (packet ≡ bytes.now) × (fault_of bytes.now ≡ None))
            (λ fault. fault_of bytes.now ≡ Some fault) }
    {
        match Packet::fault(bytes) {
            Some(fault) => Err(fault),
            None => Ok(Packet { bytes: *bytes }),
        }
    }

    /// The packet in these bytes, which are known to be one. They are copied once.
    #[inline(always)]
    pub(crate) fn holding(bytes: &[u8; 188]) -> Packet
        requires { IsPacket bytes.now }
        ensures { result ≡ bytes.now }
    {
        Packet { bytes: *bytes }
    }

    /// Becomes the packet in these bytes, which are known to be one. They are copied once.
    #[inline(always)]
    pub(crate) fn put(&mut self, bytes: &[u8; 188])
        requires { IsPacket bytes.now }
        ensures { self.new ≡ bytes.now }
    {
        self.bytes = *bytes;
    }

    /// Becomes what `rewrite` makes of a packet: it goes on another PID, below 0x2000, and later by a delay in ticks of 27 MHz. Its
    /// bytes are copied once.
    pub fn set_rewritten(&mut self, packet: &Packet, pid: u16, delay: u64)
        requires { pid < 2 ^ 13 }
        ensures { self.new ≡ rewritten packet.now pid delay }
    {
        self.bytes = packet.bytes;
        fields::set_pid(&mut self.bytes, pid);
        fields::add_to_pcr(&mut self.bytes, packet.pcr(), delay);
    }

    /// What every packet keeps.
    #[inline(always)]
    pub fn known(&self)
        ensures { IsPacket self.now }
    {
        let _ = &self.bytes;
    }

    /// Becomes the same in its place.
    pub fn move_on(&mut self, pid: u16, delay: u64)
        requires { pid < 2 ^ 13 }
        ensures { self.new ≡ rewritten self.old pid delay }
    {
        let pcr = self.pcr();
        fields::set_pid(&mut self.bytes, pid);
        fields::add_to_pcr(&mut self.bytes, pcr, delay);
    }

    /// The 188 bytes.
    pub fn bytes(&self) -> &[u8; 188]
        ensures value { result.now ≡ self.now }
    {
        &self.bytes
    }

    /// The PID, 0 to 0x1FFF.
    pub fn pid(&self) -> u16
        ensures value { result ≡ pid_of self.now }
        ensures fits { result < 2 ^ 13 }
    {
        fields::pid(&self.bytes)
    }

    /// The continuity counter, 0 to 15.
    pub fn counter(&self) -> u8
        ensures value { result ≡ continuity_counter_of self.now }
        ensures fits { result < 16 }
    {
        self.bytes[3] % 16
    }

    /// Whether the packet has a payload.
    pub fn has_payload(&self) -> bool
        ensures { result ≡ has_payload_of self.now }
    {
        fields::has_payload(&self.bytes)
    }

    /// The discontinuity indicator; false where the adaptation field has no flags.
    pub fn discontinuity(&self) -> bool
        ensures { result ≡ discontinuity_indicator_of self.now }
    {
        fields::has_flags(&self.bytes) && self.bytes[5] / 128 == 1
    }

    /// The payload unit start indicator.
    pub fn unit_start(&self) -> bool
        ensures { result ≡ payload_unit_start_indicator_of self.now }
    {
        self.bytes[1] / 64 % 2 == 1
    }

    /// The transport scrambling control, 0 to 3; 0 is not scrambled.
    pub fn scrambling(&self) -> u8
        ensures { result ≡ transport_scrambling_control_of self.now }
    {
        self.bytes[3] / 64
    }

    /// The PCR in ticks of 27 MHz, `base * 300 + extension`, not reduced; none where the packet has none.
    pub fn pcr(&self) -> Option<u64>
        ensures { result ≡ pcr_of self.now }
    {
        if !fields::pcr_flag(&self.bytes) {
            return None;
        }
        Some(fields::pcr_base(&self.bytes) * 300 + fields::pcr_extension(&self.bytes))
    }

    /// Where the payload begins.
    fn payload_start(&self) -> usize
        ensures place { result ≡ payload_start_of self.now }
        ensures within { result ≤ 188 }
        ensures behind { 4 ≤ result }
    {
        if fields::has_adaptation_field(&self.bytes) {
            return 5 + usize::from(fields::adaptation_field_length(&self.bytes));
        }
        4
    }

    /// The bytes behind the header and the adaptation field, at most 184; none where the packet has no payload.
    pub fn payload(&self) -> &[u8]
        ensures value { result.now ≡ payload_of self.now }
        ensures small { length result.now ≤ 184 }
    {
        if !fields::has_payload(&self.bytes) {
            return &self.bytes[188..];
        }
        let start = self.payload_start();
        &self.bytes[start..]
    }

    /// Whether the other is the same packet sent again: both with payload, with equal counters and equal bytes, save for
    /// the PCR's bytes 6 to 11 where both have one (ISO/IEC 13818-1, 2.4.3.3, duplicate packets).
    #[tactic(auto, unfolding(crate::specs::Counters::is_copy))]
    pub fn is_copy(&self, other: &Packet) -> bool
        ensures { result ≡ is_copy self.now other.now }
    {
        self.has_payload()
            && other.has_payload()
            && self.counter() == other.counter()
            && fields::equal_but_pcr(&self.bytes, &other.bytes)
    }

    /// The packet with another continuity counter, 0 to 15. No other bit changes.
    pub fn with_counter(&self, counter: u8) -> Packet
        requires { counter < 16 }
        ensures value { result ≡ with_counter self.now counter }
        ensures counter { continuity_counter_of result ≡ counter }
        ensures pid { pid_of result ≡ pid_of self.now }
        ensures payload { payload_of result ≡ payload_of self.now }
        ensures others { (i : ℕ) → i < 1504 → IsOutsideCounter i → bit result i ≡ bit self.now i }
    {
        let mut bytes = self.bytes;
        bytes[3] = bytes[3] / 16 * 16 + counter;
        Packet { bytes }
    }
}

ghost use Rattle.std.specs.Prelude.{◌≡◌, ◌+◌, ◌*◌, ◌%◌, ◌^◌, ◌<◌, ℕ, true, option_map};
ghost use Rattle.tspkt.specs.Bits.{bit};
ghost use Rattle.tspkt.specs.Packet.{pid_of, pcr_flag_of, pcr_of, pcr_extension_of, null_packet};
ghost use Rattle.tspkt.specs.Rewritten.{rewritten, IsOutsidePidAndPcr};

/// The packet on another PID, below 0x2000, and later by a delay in ticks of 27 MHz: where it has a PCR, the PCR is
/// `(pcr + delay) mod 2^33 * 300`, written with an extension below 300. No other bit changes, neither the reserved bits
/// nor the OPCR.
pub fn rewrite(packet: &Packet, pid: u16, delay: u64) -> Packet
    requires { pid < 2 ^ 13 }
    ensures value { result ≡ rewritten packet.now pid delay }
    ensures pid { pid_of result ≡ pid }
    ensures pcr { pcr_of result ≡ option_map (λ pcr. (pcr + delay) % PCR_MODULUS) (pcr_of packet.now) }
    ensures pcr_form { pcr_flag_of packet.now ≡ true → pcr_extension_of result < 300 }
    ensures others { (i : ℕ) → i < 1504 → IsOutsidePidAndPcr packet.now i → bit result i ≡ bit packet.now i }
{
    let mut bytes = packet.bytes;
    fields::set_pid(&mut bytes, pid);
    fields::add_to_pcr(&mut bytes, packet.pcr(), delay);
    Packet { bytes }
}

/// The null packet: PID 0x1FFF, counter 0, and a payload of 184 bytes 0xFF.
pub fn null() -> Packet
    ensures value { result ≡ null_packet }
    ensures pid { pid_of result ≡ NULL_PID }
{
    let mut bytes = [0xFF; 188];
    bytes[0] = 0x47;
    bytes[1] = 0x1F;
    bytes[3] = 0x10;
    Packet { bytes }
}
