//! A source that is measured.

ghost use Rattle.std.specs.Prelude.{◌≡◌, ◌<◌, length, map, slice_get, Some, IfOk};
ghost use Rattle.measuring.specs.Metering.{AreNewMeters, sizes_of, source_of};

use files::{FileCause, FileIdentity, InputFile};
use plan::Plan;
use rate_meter::{Measured, Meter, RateMeter};
use reading::Source;
use std::alloc::{AllocError, Global};
use std::io;
use tspkt::PacketSize;

/// A source, and a meter that sees the bytes that are read from it. Without memory for a meter it is read all the same.
#[derive(Drop)]
pub struct Metered<R, M = RateMeter> {
    source: R,
    meter: Option<M>,
}

impl<R, M: Meter> Metered<R, M> {
    ghost use Rattle.std.specs.Prelude.{◌≡◌, option_copied};
    ghost use Rattle.measuring.specs.Metering.{IsNewMeter, source_of, meter_of};

    /// One of which nothing was read, and whose stream has this size.
    pub fn new(alloc: Global, size: PacketSize, source: R) -> Metered<R, M>
        ensures source { source_of result ≡ source }
        ensures meter { IsNewMeter M.shown size result }
    {
        Metered {
            source,
            meter: M::new(alloc, size).ok(),
        }
    }

    /// What measures it: none where there was no memory for it.
    pub fn meter(&self) -> Option<&M>
        ensures { option_copied result ≡ meter_of self.now }
    {
        self.meter.as_ref()
    }

    /// What the clock with the most points says of it, of those that say a rate.
    pub fn measured(&self) -> Option<Measured> {
        self.meter.as_ref()?.measured()
    }
}

impl<R: Source, M: Meter> Source for Metered<R, M> {
    ghost use Rattle.std.specs.Prelude.{◌≡◌, IfOk, OnOk, OnErr, take};
    ghost use Rattle.std.specs.Io.{ReadsAtMost};
    ghost use Rattle.std.specs.Io.KnownBytes.{ReadConsumes};
    ghost use Rattle.reading.specs.Failures.{FailsOnce};
    ghost use Rattle.measuring.specs.Metering.{IsShown, meter_of, metered_remaining, metered_failures};

    ghost remaining = { metered_remaining R.remaining };

    ghost failures = { metered_failures R.failures };

    /// Reads, and shows what was read to the meter.
    fn read(&mut self, piece: &mut [u8]) -> io::Result<usize>
        ensures bound { ReadsAtMost result piece.new }
        ensures bytes { ReadConsumes
            (metered_remaining R.remaining self.old) (metered_remaining R.remaining self.new) result piece.new }
        ensures ok { OnOk result (metered_failures R.failures self.new ≡ metered_failures R.failures self.old) }
        ensures err { OnErr result
            (FailsOnce (metered_failures R.failures self.old) (metered_failures R.failures self.new)) }

        ensures shown { IfOk result (λ count. IsShown M.shown (take count piece.new) (meter_of self.old) (meter_of self.new)) }
        ensures unread { OnErr result (meter_of self.new ≡ meter_of self.old) }
    {
        let count = self.source.read(piece)?;
        if let Some(meter) = &mut self.meter {
            meter.show(&piece[..count]);
        }
        Ok(count)
    }
}

impl<R: InputFile, M: Meter> InputFile for Metered<R, M> {
    fn identity(&self) -> Option<FileIdentity> {
        self.source.identity()
    }

    fn length(&self) -> Option<u64> {
        self.source.length()
    }

    fn head(&self) -> &[u8] {
        self.source.head()
    }

    fn cause(&self) -> FileCause {
        self.source.cause()
    }
}

/// How the packets of the input with this number of a plan follow one another.
fn size_at(plan: &Plan, number: usize) -> PacketSize
    requires { number < length plan.now.request.inputs }
    ensures { slice_get (sizes_of plan.now) number ≡ Some result }
{
    let input = &plan.inputs()[number];
    input.size
}

/// Each of these sources, those of a plan's inputs in their order, with a meter of its input's size.
pub fn with_meters<R: Drop, M: Meter + Drop>(
    alloc: Global,
    plan: &Plan,
    sources: Vec<R>,
) -> Result<Vec<Metered<R, M>>, AllocError>
    requires { length sources.items ≡ length plan.now.request.inputs }
    ensures meters { IfOk result (λ all. AreNewMeters M.shown plan.now all.items) }
    ensures sources { IfOk result (λ all. map source_of all.items ≡ sources.items) }
    ensures count { IfOk result (λ all. length all.items ≡ length sources.items) }
{
    let mut all = Vec::new(alloc);
    for source in sources {
        let size = size_at(plan, all.len());
        all.push(Metered::new(alloc, size, source))?;
    }
    Ok(all)
}
