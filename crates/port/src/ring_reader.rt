//! Taking what a ring shows out of it, in chunks.

ghost use Rattle.std.specs.Prelude.{◌≡◌, []};
ghost use Rattle.rtrb.specs.Ring.{received};
ghost use Rattle.port.specs.Rings.{ring_id};

use crate::carried::Carried;
use crate::nothing_after_end::NothingAfterEnd;
use rtrb::{Consumer, Producer};
use std::alloc::Global;
use std::marker::Model;

/// How many packets come out of a ring at once, at most, the end mark counted as one.
const CHUNK: usize = 16;

/// The receiving end of a ring, which takes what is seen in it out of it in one go, and hands it on one by one. Contracts see
/// which ring it is, and what was handed on, the oldest first.
#[derive(Drop)]
pub(crate) struct RingReader {
    input: usize,
    consumer: Consumer<Carried, Global, NothingAfterEnd>,
    /// What came out of the ring last.
    chunk: [Carried; CHUNK],
    /// How much that is.
    count: usize,
    /// How much of it was handed on.
    passed: usize,
}

impl Model for RingReader {
    ghost use Rattle.std.specs.Prelude.{◌≤◌, drop, take};
    ghost use Rattle.rtrb.specs.Ring.{received};
    ghost use Rattle.port.specs.Rings.{ring_id};
    ghost use Rattle.port.specs.Chunks.{ReaderValue, handed_on, AreWaiting, IsLastOf};

    ghost Value = { ReaderValue };

    ghost view = { λ r. record {
      ring = ring_id r.consumer.end r.input;
      handed = handed_on (received r.consumer) (drop r.passed (take r.count r.chunk));
    } };

    ghost invariant = { λ r. (r.passed ≤ r.count) × (r.count ≤ 16)
        × AreWaiting (received r.consumer) (drop r.passed (take r.count r.chunk))
        × IsLastOf r.chunk r.passed (handed_on (received r.consumer) (drop r.passed (take r.count r.chunk))) };
}

impl RingReader {
    ghost use Rattle.std.specs.Prelude.{◌≡◌, ◌++◌, ◌∷◌, ◌<◌, [], List, length, MatchBool};
    ghost use Rattle.rtrb.specs.Ring.{received, sent};
    ghost use Rattle.port.specs.Arrivals.{CarriedValue, marks_of};
    ghost use Rattle.port.specs.Rings.{ring_id};

    /// The end of an input's ring, out of which nothing came.
    pub fn new(input: usize, consumer: Consumer<Carried, Global, NothingAfterEnd>) -> RingReader
        requires { received consumer ≡ [] }
        ensures { result ≡ record { ring = ring_id consumer.end input; handed = [] } }
    {
        RingReader {
            input,
            consumer,
            chunk: [Carried::end(); CHUNK],
            count: 0,
            passed: 0,
        }
    }

    /// Hands on what comes next, which `last` then shows. False is answered where nothing is seen in the ring. Nothing comes
    /// behind an end mark.
    pub fn advance(&mut self) -> bool
        ensures { MatchBool result
            ((x : CarriedValue) × (self.new ≡ record self.old { handed = self.old.handed ++ x ∷ [] })
            × (marks_of self.old.handed ≡ 0))
            (self.new ≡ self.old) }
    {
        if self.passed < self.count {
            self.passed += 1;
            return true;
        }
        let count = self.consumer.pop_partial_slice(&mut self.chunk);
        // A chunk into which nothing came shows still what was handed on last.
        if count == 0 {
            return false;
        }
        self.count = count;
        self.passed = 1;
        true
    }

    /// What was handed on last.
    pub fn last(&self) -> &Carried
        requires { 0 < length self.now.handed }
        ensures { (before : List CarriedValue) × (self.now.handed ≡ before ++ result.now ∷ []) }
    {
        &self.chunk[self.passed - 1]
    }

    /// How many of those that were sent weren't handed on, beside the end that sends.
    pub fn left(&mut self, producer: &mut Producer<Carried, Global, NothingAfterEnd>) -> usize
        requires { ring_id producer.old.end self.old.ring.input ≡ self.old.ring }
        ensures reader { self.new ≡ self.old }
        ensures ring { ring_id producer.new.end self.old.ring.input ≡ self.old.ring }
        ensures sent { sent producer.new ≡ sent producer.old }
        ensures left { (rest : List CarriedValue) × (sent producer.old ≡ self.old.handed ++ rest) × (length rest ≡ result) }
    {
        self.count - self.passed + self.consumer.slots_beside(producer)
    }
}
