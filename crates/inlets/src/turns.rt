//! The turn of an input.

ghost use Rattle.std.specs.Prelude.{◌≡◌, ◌<◌, true, false, Some, IsSome};
ghost use Rattle.std.specs.List.{slice_get};
ghost use Rattle.request.specs.declared.stream.Stream.{Stream};
ghost use Rattle.schedule.specs.Streams.{all_streams};
ghost use Rattle.mux.specs.declared.event.Event.{Event};
ghost use Rattle.mux.specs.History.{with_event, is_closed, is_mapped_to};
ghost use Rattle.mux.specs.Lawful.{input_count};
ghost use Rattle.mux.specs.Answers.{OfferAnswers};
ghost use Rattle.inlets.specs.Turns.{IsTurned, Turns};

use crate::entry::Entry;
use crate::inlet::Inlet;
use crate::taking::Taking;
use mux::{Mux, Offered};
use reading::Look;
use schedule::Schedule;
use tspkt::LentPacket;

/// Takes the packet of an open input that comes next, or holds it back, or closes the input, as far as its inlet shows.
#[inline(always)]
pub fn take<I: Inlet>(mux: &mut Mux, number: usize, entry: &mut Entry<I>) -> Taking
    requires number { number < input_count mux.old.run.schedule }
    requires open { is_closed number mux.old.events ≡ false }
    ensures turns { Turns I.shown I.IsOver I.IsWaiting I.looks I.released number mux.old entry.old result mux.new entry.new }
    ensures run { mux.new.run ≡ mux.old.run }
{
    match entry.inlet.look(mux.schedule()) {
        Look::Packet(place) => give(mux, number, place, entry),
        Look::Over => {
            close(mux, number, entry);
            Taking::Closed
        }
        Look::More => Taking::Waits,
    }
}

/// Offers the packet that an inlet shows, whose stream is said to be at this place.
#[inline(always)]
fn give<I: Inlet>(mux: &mut Mux, number: usize, place: usize, entry: &mut Entry<I>) -> Taking
    requires number { number < input_count mux.old.run.schedule }
    requires open { is_closed number mux.old.events ≡ false }
    requires shown { IsSome (I.shown entry.old.inlet) }
    ensures turned { IsTurned I.shown I.IsOver I.IsWaiting I.released number mux.old entry.old result mux.new entry.new }
    ensures run { mux.new.run ≡ mux.old.run }
{
    match offer(mux, number, place, &entry.inlet.head()) {
        Offered::Taken => {
            entry.inlet.release();
            Taking::Took
        }
        Offered::Full | Offered::Early => Taking::HeldBack,
        Offered::Stranger | Offered::Backward => {
            close(mux, number, entry);
            Taking::Closed
        }
        Offered::Closed => unreachable!(),
    }
}

/// Offers a packet of an input to the stream at this place, where it goes there, and else to that which is found.
#[inline(always)]
fn offer(mux: &mut Mux, number: usize, place: usize, item: &LentPacket) -> Offered
    requires { number < input_count mux.old.run.schedule }
    ensures answer { OfferAnswers mux.old number item.now result mux.new }
    ensures run { mux.new.run ≡ mux.old.run }
{
    if goes_to(mux.schedule(), number, place, item) {
        mux.offer_to(place, item)
    } else {
        mux.offer(number, item)
    }
}

/// Whether a packet of an input is known to go to the stream at this place: by a schedule of one plan, where its input and its PID are
/// those of the stream.
#[inline(always)]
fn goes_to(schedule: &Schedule, number: usize, place: usize, item: &LentPacket) -> bool
    ensures { result ≡ true → (stream : Stream) × (slice_get (all_streams schedule.now) place ≡ Some stream)
        × (stream.input ≡ number) × (is_mapped_to schedule.now stream number item.now ≡ true) }
{
    if schedule.later_plans() > 0 {
        return false;
    }
    match schedule.streams().get(place) {
        Some(stream) => stream.input == number && stream.pid == item.pid(),
        None => false,
    }
}

/// Closes an open input.
fn close<I>(mux: &mut Mux, number: usize, entry: &mut Entry<I>)
    requires number { number < input_count mux.old.run.schedule }
    requires open { is_closed number mux.old.events ≡ false }
    ensures mux { mux.new ≡ with_event mux.old (Event.Close number) }
    ensures entry { entry.new ≡ record entry.old { is_closed = true } }
{
    mux.close_input(number);
    entry.is_closed = true;
}
