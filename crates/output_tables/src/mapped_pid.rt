//! The output's PIDs.

ghost use Rattle.std.specs.Prelude.{◌≡◌, slice_get};
ghost use Rattle.request.specs.Request.{service_value};
ghost use Rattle.selection.specs.Chosen.{streams_of};
ghost use Rattle.output_tables.specs.Output.{mapped_pid};

use request::{Request, Service, Stream};

/// PCR_PID where a program has no PCR (ISO/IEC 13818-1, 2.4.4.9).
const NO_PCR_PID: u16 = 0x1FFF;

/// The stream of this number.
fn stream_at(request: &Request, number: usize) -> Option<Stream>
    ensures { result ≡ slice_get request.now.streams number }
{
    request.streams().get(number).copied()
}

/// The output PID of a PID of the service; 0x1FFF, which says that there is no PCR, where none of its streams has the
/// PID.
pub fn mapped_pid(request: &Request, service: &Service, pid: u16) -> u16
    ensures { result ≡ mapped_pid (streams_of request.now (service_value service.now)) pid }
{
    for number in &service.streams {
        if let Some(stream) = stream_at(request, *number) {
            if stream.pid == pid {
                return stream.output_pid;
            }
        }
    }
    NO_PCR_PID
}
