//! Which PIDs are watched.

ghost use Rattle.std.specs.Prelude.{◌≡◌, ◌==◌, ◌||◌, ◌<◌, ℕ, false, slice_index_or, option_map};
ghost use Rattle.std.specs.List.{list_any, position};
ghost use Rattle.analyse.specs.WatchedPids.{is_pmt_pid_of, is_referred_of, is_listed, first_pid, pids_of_row};
ghost use Rattle.analyse.specs.PmtWatching.{pids_of_program};

use crate::pmt_watches::PmtWatches;
use tables::PatRow;
use tspkt::PID_COUNT;

/// No PID.
fn no_pids() -> [bool; 8192]
    ensures { (pid : ℕ) → slice_index_or result pid false ≡ false }
{
    [false; 8192]
}

/// Adds a PID. Those of 13 bits are below 8,192.
fn insert(set: &mut [bool; 8192], pid: u16)
    ensures { (other : ℕ) → other < PID_COUNT
        → slice_index_or set.new other false ≡ (slice_index_or set.old other false || pid == other) }
{
    let place = usize::from(pid);
    if place < set.len() {
        set[place] = true;
    }
}

/// Adds some PIDs.
fn insert_all(set: &mut [bool; 8192], pids: &[u16])
    ensures { (other : ℕ) → other < PID_COUNT
        → slice_index_or set.new other false ≡ (slice_index_or set.old other false || list_any (λ pid. pid == other) pids.now) }
{
    for pid in pids {
        insert(set, *pid);
    }
}

/// The PIDs of the PMTs that these rows name (ISO/IEC 13818-1, 2.4.4.3).
pub fn pmt_pids(rows: &[PatRow]) -> [bool; 8192]
    ensures { (pid : ℕ) → pid < PID_COUNT → slice_index_or result pid false ≡ is_pmt_pid_of rows.now pid }
{
    let mut set = no_pids();
    for row in rows {
        insert(&mut set, row.pid);
    }
    set
}

/// The place of the first row of a program.
fn place_of(rows: &[PatRow], program: u16) -> Option<usize>
    ensures { result ≡ position (λ r. r.program_number == program) rows.now }
{
    rows.iter().position(|row| row.program_number == program)
}

/// The PID of the first row of a program.
fn first_pid(rows: &[PatRow], program: u16) -> Option<u16>
    ensures { result ≡ first_pid rows.now program }
{
    let place = place_of(rows, program)?;
    Some(rows[place].pid)
}

/// Adds the elementary PIDs of the program's PMT: of the newest one on the PID of its first row.
fn insert_program(set: &mut [bool; 8192], rows: &[PatRow], pmts: &PmtWatches, program: u16)
    ensures { (other : ℕ) → other < PID_COUNT → slice_index_or set.new other false
        ≡ (slice_index_or set.old other false || is_listed other (pids_of_row pmts.now rows.now program)) }
{
    let Some(pid) = first_pid(rows, program) else {
        return;
    };
    if let Some(pids) = pmts.pids(pid, program) {
        insert_all(set, pids);
    }
}

/// The PIDs to which the PMTs of these rows refer as elementary PIDs (ISO/IEC 13818-1, 2.4.4.8).
pub fn referred_pids(rows: &[PatRow], pmts: &PmtWatches) -> [bool; 8192]
    ensures { (pid : ℕ) → pid < PID_COUNT → slice_index_or result pid false ≡ is_referred_of pmts.now rows.now pid }
{
    let mut set = no_pids();
    for row in rows {
        insert_program(&mut set, rows, pmts, row.program_number);
    }
    set
}
