//! What is seen of a packet.
#![tactic(auto, using(tspkt::proofs::PacketFields::packet_fields))]

ghost use Rattle.std.specs.Prelude.{◌≡◌, ◌==◌, ◌+◌, ◌^◌, ◌<◌, length, is_none, not};
ghost use Rattle.tspkt.specs.Packet.{pid_of, pcr_of, pcr_base_of, pcr_flag_of, has_flags_of, has_bad_adaptation as is_bad_adaptation, fault_of, continuity_counter_of, discontinuity_indicator_of, has_payload_of, transport_scrambling_control_of};
ghost use Rattle.rate_meter.specs.Steps.{seen_of};
ghost use Rattle.rate_meter.specs.Counters.{marked};

use crate::reading::Reading;

/// What is seen of a packet.
#[derive(Clone, Copy)]
pub struct Seen {
    pub pid: u16,
    /// Its continuity counter, 0 to 15.
    pub counter: u8,
    pub has_payload: bool,
    /// Whether it has the discontinuity indicator.
    pub is_discontinuous: bool,
    /// Whether its transport_scrambling_control isn't 0.
    pub is_scrambled: bool,
    /// Its PCR, if it has one.
    pub reading: Option<Reading>,
}

/// The PID.
fn pid(head: &[u8]) -> u16
    requires { length head.now ≡ 12 }
    ensures { result ≡ pid_of head.now }
{
    u16::from(head[1] % 32) * 256 + u16::from(head[2])
}

/// Whether the adaptation field has its flags.
fn has_flags(head: &[u8]) -> bool
    requires { length head.now ≡ 12 }
    ensures { result ≡ has_flags_of head.now }
{
    head[3] / 32 % 2 == 1 && head[4] >= 1
}

/// Whether there is a PCR.
fn pcr_flag(head: &[u8]) -> bool
    requires { length head.now ≡ 12 }
    ensures { result ≡ pcr_flag_of head.now }
{
    has_flags(head) && head[5] / 16 % 2 == 1
}

/// Whether the adaptation field doesn't fit.
#[tactic(auto, using(tspkt::proofs::PacketFields::packet_fields), unfolding(tspkt::specs::Packet::has_bad_adaptation))]
fn has_bad_adaptation(head: &[u8]) -> bool
    requires { length head.now ≡ 12 }
    ensures { result ≡ is_bad_adaptation head.now }
{
    let control = head[3] / 16 % 4;
    let length = head[4];
    if control == 3 && length > 182 {
        return true;
    }
    if control == 2 && length != 183 {
        return true;
    }
    pcr_flag(head) && length < 7
}

/// Whether these are the first bytes of a packet.
#[tactic(auto, using(tspkt::proofs::PacketFields::packet_fields), unfolding(tspkt::specs::Packet::fault_of))]
fn is_packet(head: &[u8]) -> bool
    requires { length head.now ≡ 12 }
    ensures { result ≡ is_none (fault_of head.now) }
{
    head[0] == 0x47 && head[3] / 16 % 4 != 0 && !has_bad_adaptation(head)
}

/// The base of the PCR, where there is one.
fn pcr_base(head: &[u8]) -> u64
    requires { length head.now ≡ 12 }
    ensures value { result ≡ pcr_base_of head.now }
    ensures fits { result < 2 ^ 33 }
{
    let mut base = 0;
    base = base * 256 + u64::from(head[6]);
    base = base * 256 + u64::from(head[7]);
    base = base * 256 + u64::from(head[8]);
    base = base * 256 + u64::from(head[9]);
    base * 2 + u64::from(head[10] / 128)
}

/// The PCR in ticks of 27 MHz, not reduced; none where there is none.
fn pcr(head: &[u8]) -> Option<u64>
    requires { length head.now ≡ 12 }
    ensures { result ≡ pcr_of head.now }
{
    if !pcr_flag(head) {
        return None;
    }
    let extension = u64::from(head[10] % 2) * 256 + u64::from(head[11]);
    Some(pcr_base(head) * 300 + extension)
}

/// Whether there is the discontinuity indicator.
fn is_discontinuous(head: &[u8]) -> bool
    requires { length head.now ≡ 12 }
    ensures { result ≡ discontinuity_indicator_of head.now }
{
    has_flags(head) && head[5] / 128 == 1
}

impl Seen {
    /// The same, where a PCR that isn't to go on from the one before it has the discontinuity indicator.
    #[inline(always)]
    pub(crate) fn cut_off(self, is_cut_off: bool) -> Seen
        ensures { result ≡ marked self is_cut_off }
    {
        match self.reading {
            Some(reading) => Seen {
                reading: Some(Reading {
                    is_discontinuous: reading.is_discontinuous || is_cut_off,
                    ..reading
                }),
                ..self
            },
            None => self,
        }
    }
}

/// The continuity counter.
fn counter(head: &[u8]) -> u8
    requires { length head.now ≡ 12 }
    ensures { result ≡ continuity_counter_of head.now }
{
    head[3] % 16
}

/// Whether there is a payload.
fn has_payload(head: &[u8]) -> bool
    requires { length head.now ≡ 12 }
    ensures { result ≡ has_payload_of head.now }
{
    head[3] / 16 % 2 == 1
}

/// Whether the payload is scrambled.
fn is_scrambled(head: &[u8]) -> bool
    requires { length head.now ≡ 12 }
    ensures { result ≡ not (transport_scrambling_control_of head.now == 0) }
{
    head[3] / 64 != 0
}

/// What is seen of the packet at a position by its first 12 bytes.
#[tactic(auto, unfolding(crate::specs::Steps::seen_of))]
#[inline(always)]
pub(crate) fn seen_at(position: u64, head: &[u8]) -> Option<Seen>
    requires { length head.now ≡ 12 }
    ensures { result ≡ seen_of position head.now }
{
    if !is_packet(head) {
        return None;
    }
    let reading = match pcr(head) {
        Some(pcr) => Some(Reading {
            position,
            pcr,
            is_discontinuous: is_discontinuous(head),
        }),
        None => None,
    };
    Some(Seen {
        pid: pid(head),
        counter: counter(head),
        has_payload: has_payload(head),
        is_discontinuous: is_discontinuous(head),
        is_scrambled: is_scrambled(head),
        reading,
    })
}
