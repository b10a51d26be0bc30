//! The steps of framing.

ghost use Rattle.std.specs.Prelude.{◌≡◌, ◌+◌, ◌-◌, ◌<◌, ◌≤◌, ◌^◌, length, drop, IfOk, OnErr, IfSome, Ok, None};
ghost use Rattle.tspkt.specs.Framed.{lost};
ghost use Rattle.tspkt.specs.ItemLists.{IsLater, Tells};
ghost use Rattle.tspkt.specs.Stepping.{told_of_last, told_at_end, TellsSame, FindsNoRoom, IsWaiting};

use crate::item::Item;
use crate::item_list::ItemList;
use crate::mode::Mode;
use crate::window::Window;
use std::alloc::AllocError;

/// Tells a loss from one place to another, where there is one.
fn tell_loss<L: ItemList>(from: u64, place: u64, out: &mut L) -> Result<(), AllocError>
    ensures { Tells (L.list out.old) (lost from place) (L.list out.new) result }
{
    if from < place {
        out.tell(Item::Lost(place - from))
    } else {
        Ok(())
    }
}

/// One step of hunting for sync from `at`, the loss having begun at `from`.
fn step_hunting<L: ItemList>(
    stride: usize,
    base: u64,
    window: &Window,
    at: usize,
    from: u64,
    out: &mut L,
) -> Result<Option<(usize, Mode)>, AllocError>
    requires long { 188 ≤ stride }
    requires small { stride ≤ 204 }
    requires inside { at ≤ length window.now }
    requires fits { base + length window.now < 2 ^ 64 }
    ensures waits { result ≡ Ok None
        → IsWaiting stride (Mode.Hunting from) (drop at window.now) × ((L.list out.new).told ≡ (L.list out.old).told) }
    ensures goes { IfOk result (λ r. IfSome r (λ next. (at < next.0)
        × TellsSame stride base window.now (L.list out.old).told (Mode.Hunting from) at (L.list out.new).told next.1 next.0)) }
    ensures later { IsLater (L.list out.old) (L.list out.new) }
    ensures few { IfOk result (λ r. IfSome r (λ next.
        length (L.list out.new).told + at ≤ length (L.list out.old).told + next.0)) }
    ensures room { OnErr result ((L.list out.old).places + at < length (L.list out.old).told + length window.now) }
    ensures full { OnErr result (FindsNoRoom stride base window.now (L.list out.old).told (Mode.Hunting from) at (L.list out.old).places) }
    ensures whole { OnErr result (at + 188 ≤ length window.now) }
{
    if window.len() - at <= 4 * stride {
        return Ok(None);
    }
    if !window.acquires_sync(at, stride) {
        return Ok(Some((at + 1, Mode::Hunting(from))));
    }
    let place = base + at as u64;
    tell_loss(from, place, out)?;
    out.tell_packet(place, window, at)?;
    Ok(Some((at + 188, Mode::Synced(stride - 188))))
}

/// One step in sync from `at`, `skip` bytes before the next packet.
fn step_synced<L: ItemList>(
    stride: usize,
    base: u64,
    window: &Window,
    at: usize,
    skip: usize,
    out: &mut L,
) -> Result<Option<(usize, Mode)>, AllocError>
    requires long { 188 ≤ stride }
    requires small { stride ≤ 204 }
    requires inside { at ≤ length window.now }
    requires fits { base + length window.now < 2 ^ 64 }
    ensures waits { result ≡ Ok None
        → IsWaiting stride (Mode.Synced skip) (drop at window.now) × ((L.list out.new).told ≡ (L.list out.old).told) }
    ensures goes { IfOk result (λ r. IfSome r (λ next. (at < next.0)
        × TellsSame stride base window.now (L.list out.old).told (Mode.Synced skip) at (L.list out.new).told next.1 next.0)) }
    ensures later { IsLater (L.list out.old) (L.list out.new) }
    ensures few { IfOk result (λ r. IfSome r (λ next.
        length (L.list out.new).told + at ≤ length (L.list out.old).told + next.0)) }
    ensures room { OnErr result ((L.list out.old).places + at < length (L.list out.old).told + length window.now) }
    ensures full { OnErr result (FindsNoRoom stride base window.now (L.list out.old).told (Mode.Synced skip) at (L.list out.old).places) }
    ensures whole { OnErr result (at + 188 ≤ length window.now) }
{
    let left = window.len() - at;
    if skip > 0 {
        if left == 0 {
            return Ok(None);
        }
        let passed = skip.min(left);
        return Ok(Some((at + passed, Mode::Synced(skip - passed))));
    }
    if left < 188 {
        return Ok(None);
    }
    let place = base + at as u64;
    if window.is_sync(at) {
        out.tell_packet(place, window, at)?;
        return Ok(Some((at + 188, Mode::Synced(stride - 188))));
    }
    if left <= stride {
        return Ok(None);
    }
    if window.is_sync(at + stride) {
        out.tell(Item::Bad(place))?;
        return Ok(Some((at + stride, Mode::Synced(0))));
    }
    out.tell(Item::SyncLoss(place))?;
    Ok(Some((at + 1, Mode::Hunting(place))))
}

/// One step from `at`, or none where more bytes are needed.
fn step<L: ItemList>(
    stride: usize,
    base: u64,
    window: &Window,
    at: usize,
    mode: Mode,
    out: &mut L,
) -> Result<Option<(usize, Mode)>, AllocError>
    requires long { 188 ≤ stride }
    requires small { stride ≤ 204 }
    requires inside { at ≤ length window.now }
    requires fits { base + length window.now < 2 ^ 64 }
    ensures waits { result ≡ Ok None
        → IsWaiting stride mode (drop at window.now) × ((L.list out.new).told ≡ (L.list out.old).told) }
    ensures goes { IfOk result (λ r. IfSome r (λ next. (at < next.0)
        × TellsSame stride base window.now (L.list out.old).told mode at (L.list out.new).told next.1 next.0)) }
    ensures later { IsLater (L.list out.old) (L.list out.new) }
    ensures few { IfOk result (λ r. IfSome r (λ next.
        length (L.list out.new).told + at ≤ length (L.list out.old).told + next.0)) }
    ensures room { OnErr result ((L.list out.old).places + at < length (L.list out.old).told + length window.now) }
    ensures full { OnErr result (FindsNoRoom stride base window.now (L.list out.old).told mode at (L.list out.old).places) }
    ensures whole { OnErr result (at + 188 ≤ length window.now) }
{
    match mode {
        Mode::Hunting(from) => step_hunting(stride, base, window, at, from, out),
        Mode::Synced(skip) => step_synced(stride, base, window, at, skip, out),
    }
}

/// All steps that the bytes allow: how many bytes are done with, and the mode after them.
pub fn advance<L: ItemList>(
    stride: usize,
    base: u64,
    window: &Window,
    mode: Mode,
    out: &mut L,
) -> Result<(usize, Mode), AllocError>
    requires long { 188 ≤ stride }
    requires small { stride ≤ 204 }
    requires fits { base + length window.now < 2 ^ 64 }
    ensures goes { IfOk result (λ next.
        TellsSame stride base window.now (L.list out.old).told mode 0 (L.list out.new).told next.1 next.0) }
    ensures waits { IfOk result (λ next. IsWaiting stride next.1 (drop next.0 window.now)) }
    ensures later { IsLater (L.list out.old) (L.list out.new) }
    ensures room { OnErr result ((L.list out.old).places < length (L.list out.old).told + length window.now) }
    ensures full { OnErr result (FindsNoRoom stride base window.now (L.list out.old).told mode 0 (L.list out.old).places) }
    ensures whole { OnErr result (188 ≤ length window.now) }
{
    let mut at = 0;
    let mut mode = mode;
    'steps: while let Some((next, after)) = step(stride, base, window, at, mode, out)? {
        at = next;
        mode = after;
    }
    Ok((at, mode))
}

/// Tells what is left in sync at the end.
fn tell_last<L: ItemList>(place: u64, end: u64, out: &mut L) -> Result<(), AllocError>
    requires { place ≤ end }
    ensures { Tells (L.list out.old) (told_of_last place (end - place)) (L.list out.new) result }
{
    if end == place {
        Ok(())
    } else if end - place < 188 {
        out.tell(Item::Lost(end - place))
    } else {
        out.tell(Item::Bad(place))
    }
}

/// Tells what is left at the end of the stream.
pub fn tell_end<L: ItemList>(
    mode: Mode,
    place: u64,
    end: u64,
    out: &mut L,
) -> Result<(), AllocError>
    requires { place ≤ end }
    ensures { Tells (L.list out.old) (told_at_end mode place (end - place)) (L.list out.new) result }
{
    match mode {
        Mode::Hunting(from) => tell_loss(from, end, out),
        Mode::Synced(_) => tell_last(place, end, out),
    }
}
