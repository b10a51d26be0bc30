//! How a station's packets are caught as they go out.

ghost use Rattle.std.specs.Prelude.{◌≡◌, ◌<◌, ◌≤◌, ◌++◌, [], vec_len, vec_capacity};
ghost use Rattle.station.specs.Stations.{rings_of};
ghost use Rattle.station.specs.Ticking.{Ticks};
ghost use Rattle.broadcast.specs.Broadcasts.{emitted_by};

use mux::Sending;
use station::Station;
use tspkt::Packet;

/// A tick of the station. The packet that went out, if one did, stands in `sent`, which has room for it.
pub(crate) fn tick(station: &mut Station, sent: &mut Vec<Packet>) -> Sending
    requires empty { sent.old.items ≡ [] }
    requires room { 0 < vec_capacity sent.old }
    ensures ticks { Ticks station.old result station.new }
    ensures emitted { emitted_by station.new ≡ emitted_by station.old ++ sent.new.items }
    ensures rings { rings_of station.new.inputs ≡ rings_of station.old.inputs }
    ensures run { station.new.history.run ≡ station.old.history.run }
    ensures capacity { vec_capacity sent.old ≤ vec_capacity sent.new }
{
    station.tick_behind(sent)
}
