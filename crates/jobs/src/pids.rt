//! The PIDs of a made stream.

ghost use Rattle.std.specs.Prelude.{◌<◌};

use crate::random::Random;

/// From the PIDs of a service to those of the next.
const STEP: u16 = 0x20;

/// The PIDs of a made stream: a service's streams follow one another, and its PMT has the last of the service's PIDs.
#[derive(Clone, Copy, Debug)]
pub struct Pids {
    base: u16,
}

impl Pids {
    /// PIDs that leave room for eight services.
    pub fn new(random: &mut Random) -> Pids {
        let place = random.below(0xC0) as u16;
        Pids {
            base: 0x0100 + STEP * place,
        }
    }

    /// That of a stream of a service.
    pub fn stream(self, service: u8, stream: u8) -> u16
        ensures { result < 8192 }
    {
        let behind = STEP * u16::from(service) + u16::from(stream);
        self.base.wrapping_add(behind) % 0x2000
    }

    /// That of the PMT of a service.
    pub fn pmt(self, service: u8) -> u16
        ensures { result < 8192 }
    {
        self.stream(service, 0x1F)
    }
}
