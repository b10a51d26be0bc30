//! The packets that went out.

ghost use Rattle.std.specs.Prelude.{◌≡◌, ◌<◌, ◌++◌, ◌∷◌, [], ◌%◌, length, IfOk, All};
ghost use Rattle.tspkt.specs.Packet.{IsPacket, null_packet};
ghost use Rattle.emission.specs.Emission.{of_pid};

use crate::pid_counters::PidCounters;
use past::Past;
use std::alloc::{AllocError, Global};
use std::marker::Model;
use tspkt::{Packet, null};

/// The packets that went out, one a slot, oldest first. None of them lies here: only the counters that come next.
#[derive(Drop)]
pub(crate) struct Output {
    sent: Past<Packet>,
    /// What a slot carries that has nothing else.
    null: Packet,
    counters: PidCounters,
}

impl Model for Output {
    ghost use Rattle.std.specs.Prelude.{ℕ, List, reverse};
    ghost use Rattle.std.specs.Prelude.{◌≡◌};
    ghost use Rattle.tspkt.specs.Packet.{null_packet};
    ghost use Rattle.mux.specs.Output.{IsOutput};

    ghost Value = { List (List ℕ) };

    ghost view = { λ o. reverse o.sent };

    ghost invariant = { λ o. IsOutput (reverse o.sent) o.counters × (o.null ≡ null_packet) };
}

impl Output {
    /// Nothing went out.
    pub fn new(alloc: Global) -> Result<Output, AllocError>
        ensures { IfOk result (λ o. o ≡ []) }
    {
        Ok(Output {
            sent: Past::new(),
            null: null(),
            counters: PidCounters::new(alloc)?,
        })
    }

    /// What every output keeps: its packets are whole.
    pub fn known(&self)
        ensures { All IsPacket self.now }
    {
        let _ = &self.sent;
    }

    /// The null packet.
    pub fn null(&self) -> &Packet
        ensures { result.now ≡ null_packet }
    {
        &self.null
    }

    /// The continuity counter that the next packet of a PID gets: how many it had, modulo 16.
    pub fn counter(&self, pid: u16) -> u8
        requires { pid < 8192 }
        ensures value { result ≡ length (of_pid pid self.now) % 16 }
        ensures within { result < 16 }
    {
        self.counters.next(pid)
    }

    /// One more packet went out.
    pub fn push(&mut self, packet: &Packet)
        ensures { self.new ≡ self.old ++ packet.now ∷ [] }
    {
        packet.known();
        self.counters.count(packet.pid());
        self.sent.add(*packet);
    }
}
