//! The tick of a station by value, as its users write it. It asks for no memory either: what it answers for want of memory never comes.

ghost use Rattle.std.specs.Prelude.{◌≡◌, ◌≢◌};
ghost use Rattle.station.specs.Stations.{rings_of};
ghost use Rattle.station.specs.Ticking.{TicksWith};

use crate::station::{Station, move_all};
use mux::Slot;

impl Station {
    /// Ticks as `tick_behind` does, and answers the packet of the slot. `Memory` never comes.
    pub fn tick(&mut self) -> Slot
        ensures ticks { TicksWith self.old result self.new }
        ensures unrefused { result ≢ Slot.Memory }
        ensures rings { rings_of self.new.inputs ≡ rings_of self.old.inputs }
        ensures run { self.new.history.run ≡ self.old.history.run }
    {
        move_all(&mut self.mux, &mut self.entries, self.ring);
        self.mux.slot()
    }
}
