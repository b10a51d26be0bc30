//! Analysing a made stream.

use crate::digest::Digest;
use crate::made_input::MadeInput;
use crate::made_reader::MadeReader;
use crate::off_air::OffAir;
use crate::random::Random;
use crate::shape::Shape;
use anyhow::{Result, bail};
use printing::StreamAnalysis;
use reading::ReadSource;
use std::alloc::Global;
use std::io::Write;
use tspkt::PacketSize;

/// A multiplex of eight services.
const SHAPE: Shape = Shape {
    rate: 38_000_000,
    services: 8,
    streams: 2,
    nulls: 3,
};

/// After how many slots the absence of a stream is a fault.
const WATCH: u64 = 20_000;

/// Analyses so many seconds of a stream as it comes off air, and prints how many faults were told and the digest of their lines.
pub fn judge<O: Write>(
    alloc: Global,
    name: &str,
    seed: u64,
    seconds: u64,
    out: &mut O,
) -> Result<()> {
    let input = MadeInput::new(alloc, SHAPE, 1, seed, 0)?;
    let streams = u64::from(SHAPE.services) * u64::from(SHAPE.streams);
    let maker = OffAir::new(input.maker(alloc)?, Random::new(seed, 1), streams);
    let packets = SHAPE.packets_a_second().saturating_mul(seconds);
    let mut source = ReadSource::new(MadeReader::new(maker, packets));
    let mut analysis = StreamAnalysis::new(alloc, PacketSize::Ts188, SHAPE.rate, WATCH);
    let mut lines = Digest::new();
    let Ok(Some(faults)) = analysis.read(alloc, &mut source, &mut lines) else {
        bail!("the stream was not read to its end");
    };
    let (bytes, value) = (lines.bytes(), lines.value());
    writeln!(
        out,
        "{name} packets {packets} faults {faults} bytes {bytes} digest {value:016x}"
    )?;
    Ok(())
}
