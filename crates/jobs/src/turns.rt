//! The turns of the streams.

use crate::place::Place;
use crate::random::Random;
use crate::shape::Shape;
use crate::turn::Turn;
use std::alloc::{AllocError, Global};

/// The places that a video stream gets, where another stream gets one.
const VIDEO: i64 = 14;

/// The streams of a made stream, in turn: each gets its share of the places, and no bursts.
#[derive(Drop)]
pub struct Turns {
    turns: Vec<Turn>,
    /// What the streams get in all.
    weights: i64,
}

impl Turns {
    /// Those of the streams of a shape, which don't all begin alike.
    pub fn new(alloc: Global, shape: Shape, random: &mut Random) -> Result<Turns, AllocError> {
        let mut turns = Vec::new(alloc);
        let mut weights = 0i64;
        for _ in 0..shape.services {
            for stream in 0..shape.streams {
                let weight = if stream == 0 { VIDEO } else { 1 };
                turns.push(Turn {
                    weight,
                    owed: random.below(16) as i64,
                    has_clock: stream == 0,
                    is_due: stream == 0,
                })?;
                weights = weights.wrapping_add(weight);
            }
        }
        Ok(Turns { turns, weights })
    }

    /// From now on the next packet of each stream that has a PCR has to have it.
    pub fn ask_for_clocks(&mut self) {
        for turn in self.turns.iter_mut() {
            turn.is_due = turn.has_clock;
        }
    }

    /// The number of the stream that is owed most, which every stream's share was added to before.
    fn most_owed(&mut self) -> usize {
        let (mut most, mut number) = (i64::MIN, 0);
        for (place, turn) in self.turns.iter_mut().enumerate() {
            turn.owed = turn.owed.wrapping_add(turn.weight);
            if turn.owed > most {
                most = turn.owed;
                number = place;
            }
        }
        number
    }

    /// The next place, of the stream that is owed most.
    pub fn next_place(&mut self) -> Place {
        let number = self.most_owed();
        let weights = self.weights;
        let Some(turn) = self.turns.get_mut(number) else {
            return Place::Null;
        };
        turn.owed = turn.owed.wrapping_sub(weights);
        let Ok(stream) = u8::try_from(number) else {
            return Place::Null;
        };
        if turn.is_due {
            turn.is_due = false;
            Place::Clock(stream)
        } else {
            Place::Stream(stream)
        }
    }
}
