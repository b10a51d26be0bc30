//! The tables, slot after slot.

use crate::table_place::TablePlace;
use crate::table_rounds::TableRounds;
use std::marker::Model;

/// The slots of a multiplex, one after another, and which table packet each carries. It keeps
/// count, so that no slot needs a division.
#[derive(Drop)]
pub struct TableTurn {
    rounds: TableRounds,
    /// Slots from the slow packet of a round to the next round.
    pause: u64,
    slot: u64,
    /// Slots to the next one that has a table.
    wait: u64,
    /// The step of its round that is due there.
    step: usize,
    /// The slow packet whose turn it is in that round.
    rotation: usize,
}

impl Model for TableTurn {
    ghost use Rattle.rounds.specs.Turn.{TurnValue, IsTurn};

    ghost Value = { TurnValue };

    ghost view = { λ t. record { rounds = t.rounds; slot = t.slot } };

    ghost invariant = { λ t. IsTurn t.rounds t.pause t.slot t.wait t.step t.rotation };
}

impl TableTurn {
    ghost use Rattle.std.specs.Prelude.{◌≡◌, ◌+◌, ◌<◌};
    ghost use Rattle.rounds.specs.Rounds.{table_at};

    /// Stands at slot 0.
    pub fn new(rounds: &TableRounds) -> TableTurn
        ensures { result ≡ record { rounds = rounds.now; slot = 0 } }
    {
        rounds.known();
        TableTurn {
            rounds: *rounds,
            pause: rounds.period() - rounds.fast_len() as u64 * rounds.gap(),
            slot: 0,
            wait: 0,
            step: 0,
            rotation: 0,
        }
    }

    /// The slot that it stands at, counted from 0.
    pub fn slot(&self) -> u64
        ensures { result ≡ self.now.slot }
    {
        self.slot
    }

    /// The table packet that this slot carries, or `None` where it has none.
    pub fn next(&self) -> Option<TablePlace>
        ensures { result ≡ table_at self.now.rounds self.now.slot }
    {
        if self.wait != 0 {
            None
        } else if self.step < self.rounds.fast_len() {
            Some(TablePlace::Fast(self.step))
        } else {
            Some(TablePlace::Slow(self.rotation))
        }
    }

    /// Goes on to the next slot. The one that it stands at is below 2^64 - 1.
    pub fn advance(&mut self)
        requires { self.old.slot < u64.MAX }
        ensures { self.new ≡ record { rounds = self.old.rounds; slot = self.old.slot + 1 } }
    {
        self.slot += 1;
        if self.wait != 0 {
            self.wait -= 1;
        } else if self.step < self.rounds.fast_len() {
            self.step += 1;
            self.wait = self.rounds.gap() - 1;
        } else {
            self.step = 0;
            self.wait = self.pause - 1;
            self.rotation += 1;
            if self.rotation == self.rounds.slow_len() {
                self.rotation = 0;
            }
        }
    }
}
