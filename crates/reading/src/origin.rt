//! Where packets of an input come from.

ghost use Rattle.std.specs.Prelude.{◌≡◌, ◌≤◌};
ghost use Rattle.tspkt.specs.declared.framer.TheConstants.{MAX_LIMIT};
ghost use Rattle.request.specs.Request.{IsInput, input_value};
ghost use Rattle.reading.specs.Takeable.{OriginValue, origin_of, stamp_at};

use request::Input;
use std::marker::Model;
use tspkt::{PacketSize, PositionClock};

/// An input of a plan, as its packets need it: its number, how they follow one another, and when its bytes come.
#[derive(Drop)]
pub struct Origin {
    number: usize,
    size: PacketSize,
    offset: u64,
    clock: PositionClock,
}

impl Model for Origin {
    ghost use Rattle.std.specs.Prelude.{◌≤◌};
    ghost use Rattle.request.specs.declared.limits.TheConstants.{MAX_OFFSET};
    ghost use Rattle.reading.specs.Takeable.{OriginValue};

    ghost Value = { OriginValue };

    ghost view = { λ o. record { number = o.number; size = o.size; rate = o.clock.rate; offset = o.offset } };

    ghost invariant = { λ o. o.offset ≤ MAX_OFFSET };
}

impl Origin {
    /// The input with this number.
    pub fn new(number: usize, input: &Input) -> Origin
        requires { IsInput (input_value input.now) }
        ensures { result ≡ origin_of number (input_value input.now) }
    {
        Origin {
            number,
            size: input.size,
            offset: input.offset,
            clock: PositionClock::with_size(input.size, input.rate),
        }
    }

    /// The number of the input.
    pub fn number(&self) -> usize
        ensures { result ≡ self.now.number }
    {
        self.number
    }

    /// When a packet comes that begins at this position of the input, in bytes: ticks of 27 MHz. It is found without a division
    /// where the packet follows the one before it.
    pub fn stamp(&mut self, position: u64) -> u64
        requires { position ≤ MAX_LIMIT }
        ensures value { result ≡ stamp_at self.old position }
        ensures origin { self.new ≡ self.old }
    {
        self.clock.go_to(position);
        self.offset + self.clock.time()
    }
}
