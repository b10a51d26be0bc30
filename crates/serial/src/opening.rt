//! The inputs of a run, before anything is taken.

ghost use Rattle.std.specs.Prelude.{◌≡◌, ◌<◌, length, IfOk};
ghost use Rattle.reading.specs.InputLimit.{IsAllowed};
ghost use Rattle.serial.specs.Opening.{IsOpened, AreOpened};

use inlets::Entry;
use reading::{InputLimit, PacketReader, Source};
use schedule::Schedule;
use std::alloc::{AllocError, Global};

/// The inputs of a schedule, one a reader, each of at most so many bytes at its size.
pub(crate) fn open_inputs<R: Source + Drop>(
    alloc: Global,
    schedule: &Schedule,
    limit: InputLimit,
    readers: Vec<R>,
) -> Result<Vec<Entry<PacketReader<R>>>, AllocError>
    requires readers { length readers.items ≡ length schedule.now.first.request.inputs }
    requires limit { IsAllowed limit }
    ensures { IfOk result (λ inputs. AreOpened R.remaining R.failures limit schedule.now readers.items inputs.items) }
{
    let mut inputs = Vec::new(alloc);
    for reader in readers {
        inputs.push(open_input(alloc, schedule, inputs.len(), limit, reader))?;
    }
    Ok(inputs)
}

/// The input with this number of a schedule's plans, of which nothing was taken, and of which at most so many bytes may come at its
/// size.
fn open_input<R: Source>(
    alloc: Global,
    schedule: &Schedule,
    number: usize,
    limit: InputLimit,
    source: R,
) -> Entry<PacketReader<R>>
    requires number { number < length schedule.now.first.request.inputs }
    requires limit { IsAllowed limit }
    ensures { IsOpened R.remaining R.failures limit schedule.now number source result }
{
    schedule.known();
    let input = &schedule.plan(0).inputs()[number];
    let most = limit.bytes(input.size);
    Entry {
        inlet: PacketReader::new(alloc, number, input, source, most),
        is_closed: false,
    }
}
