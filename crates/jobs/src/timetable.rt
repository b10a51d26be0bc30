//! What a second of a made stream has in its places.

use crate::place::Place;
use crate::random::Random;
use crate::shape::Shape;
use crate::turns::Turns;
use std::alloc::{AllocError, Global};

/// How many places lie between two tables that come together.
const TABLE_STEP: u64 = 4;

/// The table that comes at a place, if one does: the PAT and the PMTs ten times a second, and the SDT once.
fn table_at(shape: Shape, place: u64) -> Option<Place> {
    let services = u64::from(shape.services);
    let tenth = (shape.packets_a_second() / 10).max(1);
    if place == tenth / 2 {
        return Some(Place::Table(shape.services.saturating_add(1)));
    }
    let within = place % tenth;
    let number = within / TABLE_STEP;
    if within % TABLE_STEP != 0 || number > services {
        return None;
    }
    u8::try_from(number).ok().map(Place::Table)
}

/// What goes into the places of a second: the tables, a few null packets, and the streams in turn, which have PCRs thirty times.
pub fn second_of(
    alloc: Global,
    shape: Shape,
    random: &mut Random,
) -> Result<Vec<Place>, AllocError> {
    let mut turns = Turns::new(alloc, shape, random)?;
    let mut places = Vec::new(alloc);
    let clocks = (shape.packets_a_second() / 30).max(1);
    for place in 0..shape.packets_a_second() {
        if place % clocks == 0 {
            turns.ask_for_clocks();
        }
        let next = match table_at(shape, place) {
            Some(table) => table,
            None if random.below(100) < shape.nulls => Place::Null,
            None => turns.next_place(),
        };
        places.push(next)?;
    }
    Ok(places)
}
