//! What an item of an input counts as.

ghost use Rattle.std.specs.Prelude.{◌≡◌, ◌≤◌, None, Some, IfSome, IfNone};
ghost use Rattle.schedule.specs.Streams.{scheduled_place};
ghost use Rattle.tspkt.specs.declared.framer.TheConstants.{MAX_LIMIT};
ghost use Rattle.tspkt.specs.declared.item.Item.TheVariants.{Packet};
ghost use Rattle.reading.specs.Takeable.{stamp_at, taken_of, counted_of, IsTakenAt};
ghost use Rattle.reading.specs.Counting.{with_counts};
ghost use Rattle.reading.specs.Items.{IsPlaced};

use crate::origin::Origin;
use crate::report::Report;
use schedule::Schedule;
use tspkt::Item;

/// Counts an item of an input in its report. Where it is a packet that its plan names, the place of its stream and its time are answered.
pub(crate) fn classify(
    schedule: &Schedule,
    origin: &mut Origin,
    item: &Item,
    report: &mut Report,
) -> Option<(usize, u64)>
    requires placed { IsPlaced item.now }
    ensures some { IfSome result (λ found. IsTakenAt schedule.now origin.old item.now found.0 found.1) }
    ensures none { IfNone result (taken_of schedule.now origin.old item.now ≡ None) }
    ensures origin { origin.new ≡ origin.old }
    ensures counts { report.new ≡ with_counts report.old (counted_of schedule.now origin.old item.now) }
{
    match item {
        Item::Packet(position, bytes) => {
            return classify_packet(schedule, origin, *position, bytes, report);
        }
        Item::Bad(_) => report.bad = report.bad.saturating_add(1),
        Item::SyncLoss(_) => report.losses = report.losses.saturating_add(1),
        Item::Lost(count) => report.lost = report.lost.saturating_add(*count),
    }
    None
}

/// The same of a packet at a position of the input, in bytes.
fn classify_packet(
    schedule: &Schedule,
    origin: &mut Origin,
    position: u64,
    bytes: &[u8; 188],
    report: &mut Report,
) -> Option<(usize, u64)>
    requires placed { position ≤ MAX_LIMIT }
    ensures some { IfSome result (λ found. IsTakenAt schedule.now origin.old (Packet position bytes.now) found.0 found.1) }
    ensures none { IfNone result (taken_of schedule.now origin.old (Packet position bytes.now) ≡ None) }
    ensures origin { origin.new ≡ origin.old }
    ensures counts { report.new ≡ with_counts report.old (counted_of schedule.now origin.old (Packet position bytes.now)) }
{
    report.framed = report.framed.saturating_add(1);
    // A packet is told by its header alone, and isn't copied.
    if tspkt::Packet::fault(bytes).is_some() {
        report.malformed = report.malformed.saturating_add(1);
        return None;
    }
    let pid = tspkt::Packet::pid_in(bytes);
    let Some((place, stamp)) = find_at(schedule, origin, position, pid) else {
        report.unmapped = report.unmapped.saturating_add(1);
        return None;
    };
    Some((place, stamp))
}

/// The place of the stream that a packet with this PID at a position is of, where there is one, and when the packet comes. With one plan
/// its time isn't asked for, and is worked out only where there is one.
fn find_at(
    schedule: &Schedule,
    origin: &mut Origin,
    position: u64,
    pid: u16,
) -> Option<(usize, u64)>
    requires { position ≤ MAX_LIMIT }
    ensures some { IfSome result (λ found. (found.1 ≡ stamp_at origin.old position)
        × (scheduled_place schedule.now origin.old.number pid (stamp_at origin.old position) ≡ Some found.0)) }
    ensures none { IfNone result (scheduled_place schedule.now origin.old.number pid (stamp_at origin.old position) ≡ None) }
    ensures origin { origin.new ≡ origin.old }
{
    if schedule.later_plans() == 0 {
        let place = schedule.find(origin.number(), pid, 0)?;
        return Some((place, origin.stamp(position)));
    }
    let stamp = origin.stamp(position);
    let place = schedule.find(origin.number(), pid, stamp)?;
    Some((place, stamp))
}
