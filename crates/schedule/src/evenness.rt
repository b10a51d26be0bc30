//! What the plans of a schedule have in common.

ghost use Rattle.std.specs.Prelude.{◌≡◌, ◌↔◌, map, IsTrue};
ghost use Rattle.request.specs.Request.{input_value};
ghost use Rattle.schedule.specs.Switches.{IsEvenWith};

use request::{Input, Request};

/// Whether two inputs agree in all that a plan says of them.
fn is_same_input(input: &Input, other: &Input) -> bool
    ensures { IsTrue result ↔ (input_value input.now ≡ input_value other.now) }
{
    input.file.as_str() == other.file.as_str()
        && input.rate == other.rate
        && input.offset == other.offset
        && input.size == other.size
}

/// Whether two lists of inputs agree in all that a plan says of them, their files too.
pub fn are_same_inputs(inputs: &[Input], others: &[Input]) -> bool
    ensures { IsTrue result ↔ (map input_value inputs.now ≡ map input_value others.now) }
{
    if inputs.len() != others.len() {
        return false;
    }
    for (number, input) in inputs.iter().enumerate() {
        if !is_same_input(input, &others[number]) {
            return false;
        }
    }
    true
}

/// Whether another plan agrees with the first in all that a run has one of.
pub(crate) fn is_even_with(first: &Request, other: &Request) -> bool
    ensures { IsTrue result ↔ IsEvenWith first.now other.now }
{
    other.rate() == first.rate()
        && other.period() == first.period()
        && other.watch() == first.watch()
        && other.queue() == first.queue()
        && other.ring() == first.ring()
        && other.transport_stream_id() == first.transport_stream_id()
        && other.original_network_id() == first.original_network_id()
        && other.network_id() == first.network_id()
        && are_same_inputs(other.inputs(), first.inputs())
}
