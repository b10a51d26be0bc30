//! What was found of a PID.

use crate::occurrences::Occurrences;

/// What was found of a PID that has packets.
#[derive(Clone, Copy, Debug, PartialEq, Eq)]
pub struct PidSurvey {
    /// 0 to 0x1FFF.
    pub pid: u16,
    /// How many packets it has.
    pub packets: u64,
    /// The rate of its packets, in bits a second, where that of the stream is known.
    pub rate: Option<u64>,
    /// The same in the 512 packets of the stream that have the most of it, and no less than in all.
    pub highest: Option<u64>,
    /// How many PCRs it has; 0 where 64 other PIDs had some before.
    pub pcrs: u64,
    /// By how much the time from one PCR to the next is off what the bytes between them take, at most, in nanoseconds. None of fewer
    /// than two PCRs.
    pub jitter: Option<u64>,
    /// Its packets that are scrambled (ISO/IEC 13818-1, 2.4.3.3).
    pub scrambled: Occurrences,
    /// Its packets with the transport_error_indicator (ETSI TR 101 290, 2.1).
    pub errors: Occurrences,
    /// Its sections with a wrong CRC (ETSI TR 101 290, 2.2), where it is the PID of a table.
    pub wrong_sections: Occurrences,
    /// Its PCRs that come more than a tenth of a second behind the one before (ETSI TR 101 290, 2.3.a).
    pub late_pcrs: Occurrences,
    /// Its PCRs that jump without a discontinuity indicator (ETSI TR 101 290, 2.3.b).
    pub pcr_jumps: Occurrences,
    /// All its packets, where neither the PAT, the CAT nor the first PMT of a program refers to it (ETSI TR 101 290, 3.4), it isn't one of a
    /// table's own, and not all have the transport_error_indicator. None of a stream that has a program whose PMT wasn't found, or no program.
    pub unreferenced: Occurrences,
}
