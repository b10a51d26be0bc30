//! The multiplexes that are measured.

use crate::shape::Shape;

/// A measured multiplex: what its inputs have, and what goes into it.
#[derive(Clone, Copy, Debug)]
pub struct Multiplex {
    pub inputs: u8,
    pub shape: Shape,
    /// How many services of each input go into the multiplex.
    pub taken: u8,
    /// In bits a second.
    pub rate: u64,
    /// How many slots lie between two rounds of the tables.
    pub period: u64,
    /// Whether it is made in one thread alone.
    pub is_serial: bool,
}

/// Four recordings of two services, which leave little of the rate.
pub const RECORDINGS: Multiplex = Multiplex {
    inputs: 4,
    shape: Shape {
        rate: 10_000_000,
        services: 2,
        streams: 2,
        nulls: 7,
    },
    taken: 2,
    rate: 38_000_000,
    period: 1_000,
    is_serial: false,
};

/// The same in one thread.
pub const RECORDINGS_SERIAL: Multiplex = Multiplex {
    inputs: 4,
    shape: Shape {
        rate: 10_000_000,
        services: 2,
        streams: 2,
        nulls: 7,
    },
    taken: 2,
    rate: 38_000_000,
    period: 1_000,
    is_serial: true,
};

/// Eight inputs of two services of four streams.
pub const CABLE: Multiplex = Multiplex {
    inputs: 8,
    shape: Shape {
        rate: 12_000_000,
        services: 2,
        streams: 4,
        nulls: 3,
    },
    taken: 2,
    rate: 100_000_000,
    period: 4_000,
    is_serial: false,
};

/// One service of the eight of a transponder.
pub const TRANSPONDER: Multiplex = Multiplex {
    inputs: 1,
    shape: Shape {
        rate: 40_000_000,
        services: 8,
        streams: 2,
        nulls: 3,
    },
    taken: 1,
    rate: 5_200_000,
    period: 1_000,
    is_serial: true,
};

/// One service in a multiplex that has room for twenty.
pub const THIN: Multiplex = Multiplex {
    inputs: 1,
    shape: Shape {
        rate: 5_000_000,
        services: 1,
        streams: 2,
        nulls: 3,
    },
    taken: 1,
    rate: 100_000_000,
    period: 1_000,
    is_serial: false,
};
