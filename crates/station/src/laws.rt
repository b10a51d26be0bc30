//! What holds of all stations.

ghost use Rattle.station.specs.Agreement.{StationsAgree, SlotsAgree};

/// Of two stations of one plan that are given the same packets, what one sent begins what the other sent; where they sent as many
/// slots they sent the same. So the slots that `advance` sends are those that so many calls of `tick` would send.
pub fn stations_agree()
    ensures begins { StationsAgree }
    ensures same { SlotsAgree }
{}
