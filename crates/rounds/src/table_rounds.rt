//! When the tables are sent.

use crate::limits::{gap, half_second, two_seconds};
use crate::rounds_fault::RoundsFault;
use crate::table_place::TablePlace;
use std::marker::Model;

/// The rounds in which the tables of a multiplex are sent (profile; the times are those of
/// ETSI TR 101 290, 5.2.1 and ETSI TR 101 211, 4.4).
///
/// A round begins each `period` slots. It has the fast packets in turn, a gap apart, and a gap
/// behind them one of the slow packets, which take turns round by round.
#[derive(Clone, Copy)]
pub struct TableRounds {
    rate: u64,
    gap: u64,
    period: u64,
    fast_len: usize,
    slow_len: usize,
}

impl Model for TableRounds {
    ghost use Rattle.rounds.specs.Rounds.{RoundsValue, IsRounds};

    ghost Value = { RoundsValue };

    ghost view = { λ r. record {
      rate = r.rate;
      gap = r.gap;
      period = r.period;
      fast_len = r.fast_len;
      slow_len = r.slow_len;
    } };

    ghost invariant = { λ r. IsRounds (record {
      rate = r.rate;
      gap = r.gap;
      period = r.period;
      fast_len = r.fast_len;
      slow_len = r.slow_len;
    }) };

    ghost inverse = { λ r. record {
      rate = r.rate;
      gap = r.gap;
      period = r.period;
      fast_len = r.fast_len;
      slow_len = r.slow_len;
    } };
}

impl TableRounds {
    ghost use Rattle.std.specs.Prelude.{◌≡◌, ◌≤◌, MatchResult, None, Some};
    ghost use Rattle.rounds.specs.Rounds.{rounds_with, rounds_fault_of, table_at, IsRounds};

    /// The rounds of a multiplex of so many bits a second (500,000 to 100,000,000), with a round
    /// each `period` slots (1 to 1,000,000), `fast_len` packets of the PAT and the PMTs and
    /// `slow_len` of the SDT and the NIT (1 to 1,000 each).
    ///
    /// It answers `RoundTooLong` where the packets of a round, each with its gap, don't fit the
    /// period, else `PeriodTooLong` where the PAT would come later than each half second, or the
    /// SDT later than each two seconds.
    #[tactic(auto, unfolding(crate::specs::Rounds::rounds_fault_of))]
    pub fn new(
        rate: u64,
        period: u64,
        fast_len: usize,
        slow_len: usize,
    ) -> Result<TableRounds, RoundsFault>
        requires rate_above { 500000 ≤ rate }
        requires rate_below { rate ≤ 100000000 }
        requires period_above { 1 ≤ period }
        requires period_below { period ≤ 1000000 }
        requires fast_above { 1 ≤ fast_len }
        requires fast_below { fast_len ≤ 1000 }
        requires slow_above { 1 ≤ slow_len }
        requires slow_below { slow_len ≤ 1000 }
        ensures { let r = rounds_with rate period fast_len slow_len in MatchResult result
            (λ rounds. (rounds ≡ r) × (rounds_fault_of r ≡ None))
            (λ fault. rounds_fault_of r ≡ Some fault) }
    {
        let gap = gap(rate);
        if period < (fast_len as u64 + 1) * gap {
            return Err(RoundsFault::RoundTooLong);
        }
        if half_second(rate) < period || two_seconds(rate) < slow_len as u64 * period {
            return Err(RoundsFault::PeriodTooLong);
        }
        Ok(TableRounds {
            rate,
            gap,
            period,
            fast_len,
            slow_len,
        })
    }

    /// What all rounds keep; and their rate is a number of 64 bits.
    pub fn known(&self)
        ensures rounds { IsRounds self.now }
        ensures rate { self.now.rate ≤ u64.MAX }
    {
        let _rate = self.rate;
    }

    /// The rate of the multiplex, in bits a second.
    pub fn rate(&self) -> u64
        ensures value { result ≡ self.now.rate }
    {
        self.rate
    }

    /// Slots from one table packet of a round to the next.
    pub fn gap(&self) -> u64
        ensures { result ≡ self.now.gap }
    {
        self.gap
    }

    /// Slots from one round to the next.
    pub fn period(&self) -> u64
        ensures { result ≡ self.now.period }
    {
        self.period
    }

    /// Packets of the PAT and the PMTs.
    pub fn fast_len(&self) -> usize
        ensures { result ≡ self.now.fast_len }
    {
        self.fast_len
    }

    /// Packets of the SDT and the NIT.
    pub fn slow_len(&self) -> usize
        ensures { result ≡ self.now.slow_len }
    {
        self.slow_len
    }

    /// The table packet that a slot carries, counted from 0, or `None` where it has none.
    #[tactic(auto, unfolding(crate::specs::Rounds::table_at))]
    pub fn table_at(&self, slot: u64) -> Option<TablePlace>
        ensures { result ≡ table_at self.now slot }
    {
        let place = slot % self.period;
        if place % self.gap != 0 {
            return None;
        }
        let step = (place / self.gap) as usize;
        if step < self.fast_len {
            return Some(TablePlace::Fast(step));
        }
        if step == self.fast_len {
            let round = slot / self.period;
            return Some(TablePlace::Slow((round % self.slow_len as u64) as usize));
        }
        None
    }
}
