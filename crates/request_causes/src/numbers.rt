//! The numbers of a plan with their ranges.

ghost use Rattle.std.specs.Prelude.{◌≡◌, IfSome, is_some, find, option_copied};
ghost use Rattle.std.specs.List.{list_any};
ghost use Rattle.request.specs.Parts.{input_parts_value, service_parts_value, parts_value};
ghost use Rattle.request_causes.specs.RangeCauses.{is_outside, IsOutside, top_numbers, input_numbers, service_numbers, stream_numbers};

use crate::number_key::NumberKey;
use crate::ranged_number::RangedNumber;
use request::{
    FIRST_PID, InputParts, LAST_PID, MAX_ID, MAX_ITEMS, MAX_LEAK, MAX_OFFSET, MAX_RATE, MAX_SLOTS,
    MAX_VERSION, MIN_LEAK, MIN_RATE, Parts, ServiceParts, StreamParts,
};

/// The first of these numbers that is outside its range.
fn find_first_outside(numbers: &[RangedNumber]) -> Option<&RangedNumber>
    ensures { option_copied result ≡ find is_outside numbers.now }
{
    numbers.iter().find(|number| number.is_outside())
}

/// The same, copied.
fn find_outside(numbers: &[RangedNumber]) -> Option<RangedNumber>
    ensures outside { IfSome result (IsOutside numbers.now) }
    ensures some { is_some result ≡ list_any is_outside numbers.now }
{
    let number = find_first_outside(numbers)?;
    Some(*number)
}

/// The numbers at the top.
fn top_numbers(parts: &Parts) -> [RangedNumber; 9]
    ensures { result ≡ top_numbers (parts_value parts.now) }
{
    [
        RangedNumber::new(NumberKey::Rate, parts.rate, MIN_RATE, MAX_RATE),
        RangedNumber::new(NumberKey::Period, parts.period, 1, MAX_SLOTS),
        RangedNumber::new(NumberKey::Watch, parts.watch, 1, MAX_SLOTS),
        RangedNumber::new(NumberKey::Version, parts.version, 0, MAX_VERSION),
        RangedNumber::new(NumberKey::Queue, parts.queue, 1, MAX_ITEMS),
        RangedNumber::new(NumberKey::Ring, parts.ring, 1, MAX_ITEMS),
        RangedNumber::new(
            NumberKey::TransportStreamId,
            parts.transport_stream_id,
            0,
            MAX_ID,
        ),
        RangedNumber::new(
            NumberKey::OriginalNetworkId,
            parts.original_network_id,
            0,
            MAX_ID,
        ),
        RangedNumber::new(NumberKey::NetworkId, parts.network_id, 0, MAX_ID),
    ]
}

/// The first number at the top that is outside its range.
pub fn find_outside_top(parts: &Parts) -> Option<RangedNumber>
    ensures outside { IfSome result (IsOutside (top_numbers (parts_value parts.now))) }
    ensures some { is_some result ≡ list_any is_outside (top_numbers (parts_value parts.now)) }
{
    find_outside(&top_numbers(parts))
}

/// The first number of an input that is outside its range.
pub fn find_outside_input(input: &InputParts) -> Option<RangedNumber>
    ensures outside { IfSome result (IsOutside (input_numbers (input_parts_value input.now))) }
    ensures some { is_some result
        ≡ list_any is_outside (input_numbers (input_parts_value input.now)) }
{
    find_outside(&[
        RangedNumber::new(NumberKey::Rate, input.rate, MIN_RATE, MAX_RATE),
        RangedNumber::new(NumberKey::Offset, input.offset, 0, MAX_OFFSET),
    ])
}

/// The first number of a service, without those of its streams and its input, that is outside its range.
pub fn find_outside_service(service: &ServiceParts) -> Option<RangedNumber>
    ensures outside { IfSome result (IsOutside (service_numbers (service_parts_value service.now))) }
    ensures some { is_some result
        ≡ list_any is_outside (service_numbers (service_parts_value service.now)) }
{
    find_outside(&[
        RangedNumber::new(NumberKey::Program, service.program, 1, MAX_ID),
        RangedNumber::new(NumberKey::Service, service.service, 1, MAX_ID),
        RangedNumber::new(NumberKey::Pmt, service.pmt, FIRST_PID, LAST_PID),
    ])
}

/// The first number of a stream that is outside its range.
pub fn find_outside_stream(stream: &StreamParts) -> Option<RangedNumber>
    ensures outside { IfSome result (IsOutside (stream_numbers stream.now)) }
    ensures some { is_some result ≡ list_any is_outside (stream_numbers stream.now) }
{
    find_outside(&[
        RangedNumber::new(NumberKey::Pid, stream.pid, FIRST_PID, LAST_PID),
        RangedNumber::new(NumberKey::Out, stream.out, FIRST_PID, LAST_PID),
        RangedNumber::new(NumberKey::Leak, stream.leak, MIN_LEAK, MAX_LEAK),
    ])
}
