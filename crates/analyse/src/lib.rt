//! Faults of a stream, by the first priority of ETSI TR 101 290.
//!
//! `Analyser` takes a stream slot by slot and tells each slot's faults. It stands on watches, of which each keeps what the
//! next slot's faults need: `SyncWatch` of the sync bytes, `CounterWatches` of the counters of all PIDs, `PatWatch` of PID
//! 0x0000 and the programs of the PAT in force, `PmtWatches` of the PMTs of all PIDs, and two `GapWatches` of the PIDs that
//! carry a PMT and of those to which a PMT refers. A section that is no PMT isn't kept on other PIDs, only counted to its end.
//!
//! A `FaultReport` takes the faults one by one, in the order in which they are told: how many there are of each kind, and the first.
#![tactic(auto)]

mod analyser;
mod counter_watch;
mod counter_watches;
mod fault;
mod fault_counts;
mod fault_kind;
mod fault_report;
mod gap_watch;
mod gap_watches;
mod newest_pmt;
mod newest_pmts;
mod pat_watch;
mod pmt_assembly;
mod pmt_watch;
mod pmt_watches;
mod program_rows;
mod stream_watch;
mod sync_watch;
mod table_seen;
mod table_watches;
mod unread_section;
mod watched_pids;

pub use analyser::Analyser;
pub use fault::Fault;
pub use fault_counts::FaultCounts;
pub use fault_kind::FaultKind;
pub use fault_report::{FaultReport, MOST_FIRST};
