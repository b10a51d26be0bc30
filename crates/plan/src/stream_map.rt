//! The streams by their inputs and PIDs.

use request::Stream;
use std::alloc::{AllocError, Global};
use std::marker::Model;
use tspkt::PID_COUNT;

/// For each PID of each input the number of its stream, in one step. Contracts see its cells.
#[derive(Drop)]
pub struct StreamMap {
    inputs: usize,
    numbers: Vec<Option<u8>>,
}

impl Model for StreamMap {
    ghost use Rattle.tspkt.specs.declared.packet.TheConstants.{PID_COUNT};
    ghost use Rattle.std.specs.Prelude.{◌≡◌, ◌*◌, ◌≤◌, length};
    ghost use Rattle.plan.specs.StreamPlace.{StreamMapValue};

    ghost Value = { StreamMapValue };

    ghost view = { λ m. record { inputs = m.inputs; numbers = m.numbers.items } };

    ghost invariant = { λ m. (m.inputs ≤ 8) × (length m.numbers.items ≡ m.inputs * PID_COUNT) };
}

impl StreamMap {
    ghost use Rattle.std.specs.Prelude.{◌≡◌, ◌<◌, ◌≤◌, length, IfOk};
    ghost use Rattle.std.specs.List.{All};
    ghost use Rattle.request.specs.declared.stream.Stream.{Stream};
    ghost use Rattle.plan.specs.StreamPlace.{number_at, IsMapOf};

    /// The look-up in these streams of so many inputs. There are at most 8 inputs and 64 streams.
    /// It fails only for want of memory.
    pub fn new(alloc: Global, inputs: usize, streams: &[Stream]) -> Result<StreamMap, AllocError>
        requires inputs { inputs ≤ 8 }
        requires count { length streams.now ≤ 64 }
        requires known { All (λ (s : Stream). s.input < inputs) streams.now }
        requires pids { All (λ (s : Stream). s.pid < PID_COUNT) streams.now }
        ensures { IfOk result (λ m. IsMapOf m streams.now) }
    {
        let mut numbers = vec![in alloc; None; inputs * PID_COUNT]?;
        for (number, stream) in streams.iter().enumerate() {
            let cell = stream.input * PID_COUNT + usize::from(stream.pid);
            numbers[cell] = numbers[cell].or(Some(number as u8));
        }
        Ok(StreamMap { inputs, numbers })
    }

    /// An equal look-up. It fails only for want of memory.
    pub fn copy(&self, alloc: Global) -> Result<StreamMap, AllocError>
        ensures { IfOk result (λ map. map ≡ self.now) }
    {
        Ok(StreamMap {
            inputs: self.inputs,
            numbers: Vec::from_slice(alloc, &self.numbers)?,
        })
    }

    /// The number of the first stream with this PID of this input; none where there is no such
    /// stream, also for an input that isn't there and for a PID of 8,192 and more.
    pub fn find(&self, input: usize, pid: u16) -> Option<usize>
        ensures { result ≡ number_at self.now input pid }
    {
        if input >= self.inputs || usize::from(pid) >= PID_COUNT {
            return None;
        }
        self.numbers[input * PID_COUNT + usize::from(pid)].map(usize::from)
    }
}
