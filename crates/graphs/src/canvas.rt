//! Where things stand in a picture, in points.

use crate::record::Record;

/// How wide the picture is.
pub(crate) const WIDTH: u64 = 1_400;
/// Where the curves begin from the left, and how wide they are.
pub(crate) const LEFT: u64 = 100;

pub(crate) const PLOT: u64 = 720;
/// Where the key begins from the left, behind the last time below the curves.
pub(crate) const KEY: u64 = LEFT + PLOT + 30;
/// Where the shares begin from above, and how high they are.
pub(crate) const SHARES: u64 = 60;

pub(crate) const SHARES_HEIGHT: u64 = 240;
/// Where the levels begin from above, and how high they are.
pub(crate) const LEVELS: u64 = 370;

pub(crate) const LEVELS_HEIGHT: u64 = 160;
/// Where the bars begin from above, and how high each is.
pub(crate) const BARS: u64 = 610;

pub(crate) const BAR_HEIGHT: u64 = 16;

/// The colours of services, one behind the other.
const COLOURS: [&str; 16] = [
    "#1f77b4", "#ff7f0e", "#2ca02c", "#9467bd", "#8c564b", "#e377c2", "#17becf", "#bcbd22",
    "#aec7e8", "#ffbb78", "#98df8a", "#c5b0d5", "#c49c94", "#f7b6d2", "#9edae5", "#dbdb8d",
];

/// The colour of the tables.
const GREY: &str = "#7f7f7f";

/// The colour of a kind: of the service at this place, or of the tables.
pub(crate) fn colour(service: Option<u16>, place: usize) -> &'static str {
    match service {
        Some(_) => COLOURS[place % 16],
        None => GREY,
    }
}

/// Where a slot of so many begins from the left, and where the last one ends.
fn x_of(slot: u64, slots: u64) -> u64 {
    let along = u128::from(slot.min(slots)) * u128::from(PLOT);
    let points = along.checked_div(u128::from(slots)).unwrap_or(0);
    LEFT.saturating_add(points.min(u128::from(PLOT)) as u64)
}

/// How far from the left a piece of a run begins, and where it ends.
pub(crate) fn edges(record: &Record, piece: usize) -> (u64, u64) {
    let before = record.slots_before(piece);
    let behind = before.saturating_add(record.slots_in(piece));
    (x_of(before, record.slots()), x_of(behind, record.slots()))
}
