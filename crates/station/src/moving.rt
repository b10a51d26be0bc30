//! How the packets of a ring come into the multiplex.

ghost use Rattle.std.specs.Prelude.{◌≡◌, ◌<◌};
ghost use Rattle.mux.specs.Lawful.{input_count};
ghost use Rattle.station.specs.Stations.{IsLawfulInput, LeavesOthers};
ghost use Rattle.station.specs.Ticking.{Moves};

use inlets::{Entry, Taking, take};
use mux::Mux;
use port::RingEnd;

/// Moves what a ring shows into the multiplex, at most so many packets: each packet is offered in its turn, until one isn't
/// taken, which is then shown. An input is closed at its end mark, and where the packet that comes next can never be taken. Of
/// a closed input nothing is moved.
pub(crate) fn move_in(mux: &mut Mux, number: usize, entry: &mut Entry<RingEnd>, most: usize)
    requires number { number < input_count mux.old.run.schedule }
    requires lawful { IsLawfulInput mux.old number entry.old }
    ensures moves { Moves number most mux.old entry.old mux.new entry.new }
    ensures lawful { IsLawfulInput mux.new number entry.new }
    ensures others { LeavesOthers number mux.old mux.new }
    ensures run { mux.new.run ≡ mux.old.run }
{
    if entry.is_closed {
        return;
    }
    for _count in 0..most {
        match take(mux, number, entry) {
            Taking::Took => {}
            Taking::HeldBack | Taking::Closed | Taking::Waits => return,
        }
    }
}
