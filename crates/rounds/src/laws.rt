//! What holds of all rounds.

ghost use Rattle.std.specs.Prelude.{◌<◌};
ghost use Rattle.rounds.specs.declared.table_place.TablePlace.TheVariants.{Fast, Slow};
ghost use Rattle.rounds.specs.Rounds.{RecursWithin, AreApart, ArePlaces, RoundsBegin, fast_limit_of, sdt_limit_of, nit_limit_of};

use crate::table_rounds::TableRounds;

/// Each packet of the PAT and the PMTs comes at least each half second (ETSI TR 101 290, 5.2.1).
pub fn fast_recurs(rounds: &TableRounds, place: usize)
    requires { place < rounds.now.fast_len }
    ensures { RecursWithin rounds.now (Fast place) (fast_limit_of rounds.now.rate) }
{
    rounds.known();
}

/// Each packet of the SDT comes at least each two seconds, and so each of the NIT at least each
/// ten (ETSI TR 101 211, 4.4).
pub fn slow_recurs(rounds: &TableRounds, place: usize)
    requires { place < rounds.now.slow_len }
    ensures sdt { RecursWithin rounds.now (Slow place) (sdt_limit_of rounds.now.rate) }
    ensures nit { RecursWithin rounds.now (Slow place) (nit_limit_of rounds.now.rate) }
{
    rounds.known();
}

/// Two table slots are a gap apart at least.
pub fn tables_are_apart(rounds: &TableRounds)
    ensures { AreApart rounds.now }
{
    rounds.known();
}

/// The first slot of each round carries the PAT's first packet, slot 0 among them.
pub fn rounds_begin(rounds: &TableRounds)
    ensures { RoundsBegin rounds.now }
{
    rounds.known();
}

/// No slot carries a packet that isn't in one of the two lists.
pub fn are_places(rounds: &TableRounds)
    ensures { ArePlaces rounds.now }
{
    rounds.known();
}
