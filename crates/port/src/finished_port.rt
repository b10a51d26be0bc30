//! What is left of a port that sends no more.

ghost use Rattle.std.specs.Prelude.{◌≡◌};
ghost use Rattle.rtrb.specs.Ring.{sent};
ghost use Rattle.port.specs.Arrivals.{packets_of, EndsMarked};
ghost use Rattle.port.specs.Rings.{ring_id};

use crate::carried::Carried;
use crate::nothing_after_end::NothingAfterEnd;
use rtrb::Producer;
use std::alloc::Global;
use std::marker::Model;

/// What is left of a port that sends no more. Contracts see the port as it was at its end, and whether the end mark was sent,
/// which then stands behind all packets.
#[derive(Drop)]
pub struct FinishedPort {
    pub(crate) input: usize,
    pub(crate) producer: Producer<Carried, Global, NothingAfterEnd>,
    pub(crate) is_ended: bool,
}

impl Model for FinishedPort {
    ghost use Rattle.rtrb.specs.Ring.{sent};
    ghost use Rattle.port.specs.Arrivals.{packets_of, EndsMarked};
    ghost use Rattle.port.specs.Rings.{FinishedValue, ring_id};

    ghost Value = { FinishedValue };

    ghost view = { λ f. record {
      port = record { ring = ring_id f.producer.end f.input; sent = packets_of (sent f.producer) };
      is_ended = f.is_ended;
    } };

    ghost invariant = { λ f. EndsMarked f.is_ended (sent f.producer) };
}

impl FinishedPort {
    /// The number of its input.
    pub fn input(&self) -> usize
        ensures { result ≡ self.now.port.ring.input }
    {
        self.input
    }

    /// Whether the end mark was sent.
    pub fn is_ended(&self) -> bool
        ensures { result ≡ self.now.is_ended }
    {
        self.is_ended
    }
}
