//! What the packets of a stream come to, at its end.

ghost use Rattle.std.specs.Prelude.{◌≡◌, ◌<◌, IfNone, IfOk, IfSome};
ghost use Rattle.std.specs.List.{count_by};
ghost use Rattle.probe.specs.Counts.{is_of};
ghost use Rattle.probe.specs.Probing.{AreSurveyed, IsCounted};

use crate::occurrences::Occurrences;
use crate::pcr_watch::PcrWatch;
use crate::pcr_watches::PcrWatches;
use crate::pid_counts::{PidCounts, WINDOW};
use crate::pid_survey::PidSurvey;
use crate::section_watches::SectionWatches;
use crate::table_kind::TableKind;
use acquire::Found;
use advice::packets_rate;
use rate_meter::RateMeter;
use std::alloc::{AllocError, Global};
use tspkt::{PID_COUNT, PacketSize};

/// The tables, in the order in which they are named.
const KINDS: [TableKind; 7] = [
    TableKind::Pat,
    TableKind::Cat,
    TableKind::Pmt,
    TableKind::Nit,
    TableKind::Sdt,
    TableKind::Eit,
    TableKind::Tdt,
];

/// Whether a table is among those that were found.
fn has_table(kind: TableKind, has_pat: bool, found: &Found, sections: &SectionWatches) -> bool {
    match kind {
        TableKind::Pat => has_pat,
        TableKind::Pmt => found.pmts.iter().any(|pmt| pmt.is_some()),
        TableKind::Sdt => found.sdt.is_some(),
        _ => sections.has(kind),
    }
}

/// The tables that were found, each once.
pub(crate) fn tables_in(
    alloc: Global,
    has_pat: bool,
    found: &Found,
    sections: &SectionWatches,
) -> Result<Vec<TableKind>, AllocError> {
    let mut kinds = Vec::new(alloc);
    for kind in KINDS {
        if has_table(kind, has_pat, found, sections) {
            kinds.push(kind)?;
        }
    }
    Ok(kinds)
}

/// The part of a rate that so many of 512 packets have, in its unit, rounded down.
fn window_rate(rate: u64, packets: u64) -> u64 {
    let part = u128::from(rate) * u128::from(packets.min(WINDOW)) / u128::from(WINDOW);
    part.min(u128::from(u64::MAX)) as u64
}

/// The larger of two rates; that of the window where the other isn't known.
fn higher(window: Option<u64>, rate: Option<u64>) -> Option<u64> {
    match (window, rate) {
        (Some(window), Some(rate)) => Some(window.max(rate)),
        _ => window,
    }
}

/// What was kept of the packets of a stream, by PID, and what was measured of it.
#[derive(Clone, Copy)]
pub(crate) struct Kept<'a> {
    pub size: PacketSize,
    pub counts: &'a PidCounts,
    pub pcrs: &'a PcrWatches,
    pub sections: &'a SectionWatches,
    pub meter: Option<&'a RateMeter>,
    /// Whether it is known to which PIDs the tables refer: the PAT was found, and the PMTs of all its programs.
    pub knows_references: bool,
}

impl Kept<'_> {
    /// The rate of the stream's packets, in bits a second, by the meter.
    fn stream_rate(&self) -> Option<u64> {
        let rate = self.meter?.measured()?.rate;
        Some(packets_rate(self.size, rate))
    }

    /// Whether no table refers to a PID, where that is known.
    fn is_unreferenced(&self, pid: u16) -> bool {
        self.knows_references && !self.sections.refers_to(pid)
    }

    /// The rate of a PID, in bits a second, by the meter.
    fn pid_rate(&self, pid: u16) -> Option<u64> {
        Some(self.meter?.pid_rate(self.stream_rate()?, pid))
    }

    /// The jitter of a PID's PCRs, against the rate that they themselves say.
    fn jitter(&self, pid: u16, watch: Option<&PcrWatch>) -> Option<u64> {
        let rate = self.meter?.clock_of(pid)?.rate()?;
        watch?.jitter(rate)
    }
}

/// What was found of a PID; none where it has no packet.
fn survey_pid(pid: u16, kept: &Kept<'_>) -> Option<PidSurvey>
    requires { pid < 8192 }
    ensures counted { IfSome result (IsCounted kept.now.counts.now) }
    ensures pid { IfSome result (λ s. s.pid ≡ pid) }
    ensures none { IfNone result (count_by (is_of pid) kept.now.counts.now ≡ 0) }
{
    let count = kept.counts.of(pid);
    if count.all.count == 0 {
        return None;
    }
    let watch = kept.pcrs.of(pid);
    let rate = kept.pid_rate(pid);
    let window = kept
        .stream_rate()
        .map(|rate| window_rate(rate, count.highest));
    Some(PidSurvey {
        pid,
        packets: count.all.count,
        rate,
        highest: higher(window, rate),
        pcrs: watch.map_or(0, |watch| watch.count),
        jitter: kept.jitter(pid, watch),
        scrambled: count.scrambled,
        errors: count.errors,
        wrong_sections: kept.sections.wrong_of(pid),
        late_pcrs: watch.map_or(Occurrences::new(), |watch| watch.late),
        pcr_jumps: watch.map_or(Occurrences::new(), |watch| watch.jumps),
        unreferenced: if count.errors.count < count.all.count && kept.is_unreferenced(pid) {
            count.all
        } else {
            Occurrences::new()
        },
    })
}

/// What was found of each PID that has packets, in the order of the PIDs.
pub(crate) fn survey_pids(alloc: Global, kept: &Kept<'_>) -> Result<Vec<PidSurvey>, AllocError>
    ensures { IfOk result (λ pids. AreSurveyed kept.now.counts.now pids.items) }
{
    let mut pids = Vec::new(alloc);
    for pid in 0..PID_COUNT as u16 {
        if let Some(survey) = survey_pid(pid, kept) {
            pids.push(survey)?;
        }
    }
    Ok(pids)
}
