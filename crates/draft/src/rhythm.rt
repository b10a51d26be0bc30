//! The rate and the period of a first plan.

ghost use Rattle.std.specs.Prelude.{◌≡◌, ◌≤◌, IfSome};
ghost use Rattle.advice.specs.Load.{left_rate_of};
ghost use Rattle.draft.specs.Rhythm.{with_tenth as with_tenth_said};

use advice::left_rate;
use rounds::TableRounds;

/// The least rate of a multiplex, in bits a second.
const LEAST: u64 = 500_000;

/// The largest one.
const MOST: u64 = 100_000_000;

/// One packet each tenth of a second, in bits a second.
const SLOT_RATE: u64 = 15_040;

/// How many rates are tried, each with a tenth more for the tables than the one before.
const TRIES: u64 = 64;

/// A rate and a tenth of it more, rounded up; 2^64 - 1 where it is more.
fn with_tenth(rate: u64) -> u64
    ensures { result ≡ with_tenth_said rate }
{
    rate.saturating_add(rate.div_ceil(10))
}

/// The rate that is tried at a step: what the streams want, and what a round of the tables takes each tenth of a second, with so many
/// tenths of it more; a multiple of 1,000.
fn rate_at(wanted: u64, fast: usize, step: u64) -> Option<u64>
    ensures { IfSome result (λ rate. (LEAST ≤ rate) × (rate ≤ MOST)) }
{
    let round = (fast as u64).saturating_add(1).saturating_mul(SLOT_RATE);
    let tables = round.saturating_mul(step.saturating_add(10)) / 10;
    let rate = wanted.saturating_add(tables).max(LEAST);
    if rate > MOST {
        return None;
    }
    Some(rate.div_ceil(1_000) * 1_000)
}

/// A period at this rate, in slots: a tenth of a second, or as near to it as tables of so many packets allow.
fn period_at(rate: u64, fast: usize, slow: usize) -> u64
    requires rate_above { LEAST ≤ rate }
    requires rate_below { rate ≤ MOST }
    requires slow_above { 1 ≤ slow }
    requires slow_below { slow ≤ 1000 }
    requires fast_below { fast ≤ 1000 }
    ensures some { 1 ≤ result }
    ensures few { result ≤ 1000000 }
{
    let gap = rate.div_ceil(1_000_000).max(2);
    let shortest = (fast as u64 + 1) * gap;
    let longest = (rate / 3_008).min(rate / 752 / slow as u64);
    (rate / SLOT_RATE).max(shortest).min(longest).max(1)
}

/// The rounds of a multiplex at this rate.
fn rounds_at(rate: u64, fast: usize, slow: usize) -> Option<TableRounds>
    requires rate_above { LEAST ≤ rate }
    requires rate_below { rate ≤ MOST }
    requires fast_above { 1 ≤ fast }
    requires fast_below { fast ≤ 1000 }
    requires slow_above { 1 ≤ slow }
    requires slow_below { slow ≤ 1000 }
    ensures fast { IfSome result (λ rounds. rounds.fast_len ≡ fast) }
    ensures slow { IfSome result (λ rounds. rounds.slow_len ≡ slow) }
{
    TableRounds::new(rate, period_at(rate, fast, slow), fast, slow).ok()
}

/// The rounds of a multiplex for streams that need this rate, in bits a second, with `fast` packets of the PAT and the PMTs and
/// `slow` of the SDT and the NIT (1 to 1,000 each): beside the tables it leaves the streams a tenth more than they need. A round
/// comes about each tenth of a second. None where no rate of a multiplex does.
pub fn rounds_for(needed: u64, fast: usize, slow: usize) -> Option<TableRounds>
    requires fast_above { 1 ≤ fast }
    requires fast_below { fast ≤ 1000 }
    requires slow_above { 1 ≤ slow }
    requires slow_below { slow ≤ 1000 }
    ensures fast { IfSome result (λ rounds. rounds.fast_len ≡ fast) }
    ensures slow { IfSome result (λ rounds. rounds.slow_len ≡ slow) }
    ensures left { IfSome result (λ rounds. with_tenth_said needed ≤ left_rate_of rounds) }
{
    let wanted = with_tenth(needed);
    for step in 0..TRIES {
        let rate = rate_at(wanted, fast, step)?;
        if let Some(rounds) = rounds_at(rate, fast, slow)
            && wanted <= left_rate(&rounds)
        {
            return Some(rounds);
        }
    }
    None
}
