//! How an analysis ends.

ghost use Rattle.std.specs.Prelude.{◌≡◌, ◌≤◌};

/// The status of an analysis that told a fault, or found no packet.
const TOLD: u8 = 1;

/// The status with which an analysis of so many slots ends that told so many faults: 0 where there is a slot and no fault.
pub fn analysis_status(slots: u64, faults: u64) -> u8
    ensures sound { 1 ≤ slots → faults ≡ 0 → result ≡ 0 }
    ensures empty { slots ≡ 0 → result ≡ 1 }
    ensures told { 1 ≤ faults → result ≡ 1 }
{
    if slots == 0 || faults > 0 { TOLD } else { 0 }
}
