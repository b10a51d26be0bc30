//! Which packet goes next.

ghost use Rattle.std.specs.Prelude.{◌≡◌, ℕ, ◌<◌, ◌≤◌, ◌↔◌, [], true, false, length, map, All, IsTrue, IfSome, IfNone, Some, slice_index_or};
ghost use Rattle.std.specs.List.{slice_get};
ghost use Rattle.tspkt.specs.declared.stamped.Stamped.{Stamped};
ghost use Rattle.request.specs.declared.stream.Stream.{Stream};
ghost use Rattle.mux.specs.declared.input_state.InputState.{InputState};
ghost use Rattle.mux.specs.Keeping.{ready_at, without_notes, KeepsNoted, KeepsHeads, head_time};
ghost use Rattle.mux.specs.HeadList.{head_at};
ghost use Rattle.mux.specs.Choosing.{Leads, Follows, IsBetterHead, IsNoBetterHead, IsEligibleHead, IsFirstHead};

use crate::candidate::Candidate;
use crate::head::Head;
use crate::head_list::{HeadList, UNRANKED};
use crate::input_state::InputState;
use crate::progress::Progress;
use buffers::PidQueue;
use request::Stream;

/// Whether each input was closed.
pub(crate) fn all_closed(inputs: &[InputState]) -> bool
    ensures { IsTrue result ↔ All (λ x. IsTrue x.closed) inputs.now }
{
    inputs.iter().all(|x| x.closed)
}

/// Whether nothing waits.
pub(crate) fn all_empty(queues: &[PidQueue]) -> bool
    ensures { IsTrue result ↔ All (λ q. q.items ≡ []) queues.now }
{
    queues.iter().all(|q| q.is_empty())
}

/// The least input that isn't ready.
pub(crate) fn first_unready(inputs: &[InputState], now: u64) -> Option<usize>
    ensures none { IfNone result (All (λ x. IsTrue (ready_at now x)) inputs.now) }
    ensures some { IfSome result (λ i. (i < length inputs.now)
        × ((d : InputState) → ready_at now (slice_index_or inputs.now i d) ≡ false)
        × ((j : ℕ) (d : InputState) → j < i
        → IsTrue (ready_at now (slice_index_or inputs.now j d)))) }
{
    for (i, x) in inputs.iter().enumerate() {
        if !(now < x.last_stamp || x.closed || x.full_noted || x.early_noted) {
            return Some(i);
        }
    }
    None
}

/// Forgets what was noted of the inputs, where the mark says that something was.
pub(crate) fn clear_notes(inputs: &mut Vec<InputState>, is_noted: &mut bool)
    requires { KeepsNoted is_noted.old inputs.old.items }
    ensures inputs { inputs.new.items ≡ map without_notes inputs.old.items }
    ensures noted { is_noted.new ≡ false }
{
    if *is_noted {
        for x in inputs.iter_mut() {
            x.full_noted = false;
            x.early_noted = false;
        }
        *is_noted = false;
    }
}

/// Whether the next of two goes before the best so far, if there is one.
fn goes_first(best: Option<Candidate>, next: Candidate) -> bool
    ensures yes { result ≡ true → Leads best next }
    ensures no { result ≡ false → Follows best next }
{
    match best {
        None => true,
        Some(b) => {
            next.stamp < b.stamp
                || next.stamp == b.stamp && next.stream.output_pid < b.stream.output_pid
        }
    }
}

/// The head of the queue of a stream, if its time isn't after the limit, it goes before the best so far, and its stream's
/// bucket has room.
fn better_head(
    best: Option<Candidate>,
    index: usize,
    stream: Stream,
    queue: &PidQueue,
    progress: &Progress,
    limit: u64,
) -> Option<Candidate>
    requires { index < length progress.now.buckets }
    ensures some { IfSome result (IsBetterHead best index stream queue.now progress.now.buckets limit) }
    ensures none { IfNone result (IsNoBetterHead best index stream queue.now progress.now.buckets limit) }
{
    let stamp = queue.first_due(limit)?;
    let next = Candidate {
        index,
        stream,
        stamp,
    };
    if goes_first(best, next) && progress.bucket(index).fits() {
        Some(next)
    } else {
        None
    }
}

/// Of the heads that are due, and that their streams' buckets have room for, the one that goes
/// first: that of the least time, and of these that of the least output PID. The heads are given beside the queues.
#[inline(always)]
pub(crate) fn choose(
    streams: &[Stream],
    queues: &[PidQueue],
    heads: &HeadList,
    progress: &Progress,
    now: u64,
) -> Option<Candidate>
    requires queues { length streams.now ≡ length queues.now }
    requires heads { KeepsHeads heads.now queues.now streams.now }
    requires buckets { length streams.now ≡ length progress.now.buckets }
    ensures none { IfNone result ((k : ℕ) (st : Stream) (item : Stamped)
        → IsEligibleHead streams.now queues.now progress.now.buckets now k st item → ⊥) }
    ensures some { IfSome result (IsFirstHead streams.now queues.now progress.now.buckets now) }
{
    let Some((index, head)) = heads.first() else {
        return choose_of_unranked(streams, queues, heads.all(), progress, now);
    };
    if now < head.time {
        return None;
    }
    if progress.bucket(index).fits() {
        return Some(Candidate {
            index,
            stream: streams[index],
            stamp: head.time,
        });
    }
    choose_of_all(streams, queues, heads.all(), progress, now)
}

/// The same, where no head has a rank, as those of empty queues have none.
fn choose_of_unranked(
    streams: &[Stream],
    queues: &[PidQueue],
    heads: &[Head],
    progress: &Progress,
    now: u64,
) -> Option<Candidate>
    requires queues { length streams.now ≡ length queues.now }
    requires heads { KeepsHeads heads.now queues.now streams.now }
    requires unranked { (j : ℕ) → j < length heads.now → UNRANKED ≤ (head_at heads.now j).time }
    requires buckets { length streams.now ≡ length progress.now.buckets }
    ensures none { IfNone result ((k : ℕ) (st : Stream) (item : Stamped)
        → IsEligibleHead streams.now queues.now progress.now.buckets now k st item → ⊥) }
    ensures some { IfSome result (IsFirstHead streams.now queues.now progress.now.buckets now) }
{
    if now < UNRANKED {
        return None;
    }
    choose_of_all(streams, queues, heads, progress, now)
}

/// The same, by a walk over all heads: the buffer of the one that goes first has no room, or no head has a rank.
#[inline(never)]
fn choose_of_all(
    streams: &[Stream],
    queues: &[PidQueue],
    heads: &[Head],
    progress: &Progress,
    now: u64,
) -> Option<Candidate>
    requires queues { length streams.now ≡ length queues.now }
    requires heads { map (λ h. h.time) heads.now ≡ map head_time queues.now }
    requires buckets { length streams.now ≡ length progress.now.buckets }
    ensures none { IfNone result ((k : ℕ) (st : Stream) (item : Stamped)
        → IsEligibleHead streams.now queues.now progress.now.buckets now k st item → ⊥) }
    ensures some { IfSome result (IsFirstHead streams.now queues.now progress.now.buckets now) }
{
    let mut best: Option<Candidate> = None;
    // No head of a later time goes before the best, so most queues are passed over by one comparison.
    let mut limit = now;
    for (i, head) in heads.iter().enumerate() {
        if head.time <= limit {
            if let Some(next) = better_head(best, i, streams[i], &queues[i], progress, limit) {
                best = Some(next);
                limit = next.stamp;
            }
        }
    }
    best
}
