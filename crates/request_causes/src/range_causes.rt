//! What of a plan is out of its range.

ghost use Rattle.std.specs.Prelude.{◌≡◌, ◌&&◌, not, true, Some, IfOk, IfSome, is_some, length, map};
ghost use Rattle.std.specs.List.{list_any};
ghost use Rattle.request.specs.Parts.{input_parts_value, service_parts_value, parts_value};
ghost use Rattle.request.specs.Ranges.{is_count_between, is_place, is_letter, has_good_rates, has_good_sizes, has_good_ids, is_network_name, are_descriptors, is_size, is_input, are_inputs, is_stream, is_service, are_services, has_good_top, has_good_lists};
ghost use Rattle.request.specs.Request.{has_bad_range, stream_rows_of};
ghost use Rattle.request_causes.specs.RangeCauses.{IsInputCause, IsServiceCause, IsRangeCause, is_outside, stream_numbers};

use crate::input_cause::InputCause;
use crate::numbers::{
    find_outside_input, find_outside_service, find_outside_stream, find_outside_top,
};
use crate::range_cause::RangeCause;
use crate::service_cause::ServiceCause;
use crate::stream_count::count_streams;
use request::{
    FIRST_LETTER, InputParts, LAST_LETTER, MAX_DESCRIPTORS, MAX_INPUTS, MAX_NAME, MAX_SERVICES,
    MAX_STREAMS, Parts, ServiceParts,
};
use std::alloc::{AllocError, Global};
use tables::are_whole;

/// A count from 1 to so many.
fn is_count(most: usize, count: usize) -> bool
    ensures { result ≡ is_count_between 1 most count }
{
    1 <= count && count <= most
}

/// The place of one of so many.
fn is_place(count: usize, number: i64) -> bool
    ensures { result ≡ is_place count number }
{
    match usize::try_from(number) {
        Ok(number) => number < count,
        Err(_) => false,
    }
}

/// A letter of a network's name.
fn is_letter(byte: u8) -> bool
    ensures { result ≡ is_letter byte }
{
    FIRST_LETTER <= byte && byte <= LAST_LETTER
}

/// The first byte of the network's name that is no letter.
fn letter_cause(parts: &Parts) -> Option<RangeCause>
    ensures cause { IfSome result (IsRangeCause (parts_value parts.now)) }
    ensures some { is_some result
        ≡ list_any (λ b. not (is_letter b)) (parts_value parts.now).network_name }
{
    let name = parts.network_name.as_bytes();
    for (place, byte) in name.iter().enumerate() {
        if !is_letter(*byte) {
            return Some(RangeCause::NameByte { place, byte: *byte });
        }
    }
    None
}

/// The length of the network's name, or its first byte that is no letter.
fn name_cause(parts: &Parts) -> Option<RangeCause>
    ensures cause { IfSome result (IsRangeCause (parts_value parts.now)) }
    ensures some { is_some result ≡ not (is_network_name (parts_value parts.now).network_name) }
{
    let name = parts.network_name.as_bytes();
    if is_count(MAX_NAME, name.len()) {
        letter_cause(parts)
    } else {
        Some(RangeCause::NameLength(name.len()))
    }
}

/// The length of the descriptors, or that they aren't whole.
fn descriptors_cause(parts: &Parts) -> Option<RangeCause>
    ensures cause { IfSome result (IsRangeCause (parts_value parts.now)) }
    ensures some { is_some result
        ≡ not (are_descriptors (parts_value parts.now).transport_descriptors) }
{
    let descriptors = parts.transport_descriptors.as_slice();
    if MAX_DESCRIPTORS < descriptors.len() {
        return Some(RangeCause::DescriptorsLength(descriptors.len()));
    }
    if are_whole(descriptors) {
        None
    } else {
        Some(RangeCause::DescriptorsNotWhole)
    }
}

/// The first thing at the top that is out of its range: a number, else the name, else the descriptors.
fn top_cause(parts: &Parts) -> Option<RangeCause>
    ensures cause { IfSome result (IsRangeCause (parts_value parts.now)) }
    ensures some { is_some result ≡ not (has_good_top (parts_value parts.now)) }
{
    if let Some(number) = find_outside_top(parts) {
        return Some(RangeCause::Top(number));
    }
    if let Some(cause) = name_cause(parts) {
        return Some(cause);
    }
    descriptors_cause(parts)
}

/// The size of an input's packets, where it is said and is neither 188 nor 204.
fn find_wrong_size(input: &InputParts) -> Option<i64>
    ensures size { IfSome result (λ size. input.now.size ≡ Some size) }
    ensures some { is_some result ≡ not (is_size input.now.size) }
{
    let size = input.size?;
    if size == 188 || size == 204 {
        None
    } else {
        Some(size)
    }
}

/// What of an input is out of its range: one of its numbers, else the size of its packets.
fn input_cause(input: &InputParts) -> Option<InputCause>
    ensures cause { IfSome result (IsInputCause (input_parts_value input.now)) }
    ensures some { is_some result ≡ not (is_input (input_parts_value input.now)) }
{
    if let Some(number) = find_outside_input(input) {
        return Some(InputCause::Number(number));
    }
    let size = find_wrong_size(input)?;
    Some(InputCause::PacketSize(size))
}

/// What is out of its range in the first input that has something.
fn first_input_cause(parts: &Parts) -> Option<RangeCause>
    ensures cause { IfSome result (IsRangeCause (parts_value parts.now)) }
    ensures some { is_some result ≡ list_any (λ i. not (is_input i)) (parts_value parts.now).inputs }
{
    let inputs = parts.inputs.as_slice();
    for (input, row) in inputs.iter().enumerate() {
        if let Some(cause) = input_cause(row) {
            return Some(RangeCause::Input { input, cause });
        }
    }
    None
}

/// The count of the inputs, or what is out of its range in the first that has something.
fn inputs_cause(parts: &Parts) -> Option<RangeCause>
    ensures cause { IfSome result (IsRangeCause (parts_value parts.now)) }
    ensures some { is_some result ≡ not (are_inputs (parts_value parts.now).inputs) }
{
    let count = parts.inputs.len();
    if is_count(MAX_INPUTS, count) {
        first_input_cause(parts)
    } else {
        Some(RangeCause::InputCount(count))
    }
}

/// The first number of a service's streams that is out of its range.
fn stream_cause(inputs: usize, service: &ServiceParts) -> Option<ServiceCause>
    ensures cause { IfSome result (IsServiceCause inputs (service_parts_value service.now)) }
    ensures some { is_some result ≡ list_any (λ s. list_any is_outside (stream_numbers s))
        (service_parts_value service.now).streams }
{
    let streams = service.streams.as_slice();
    for (stream, row) in streams.iter().enumerate() {
        if let Some(number) = find_outside_stream(row) {
            return Some(ServiceCause::Stream { stream, number });
        }
    }
    None
}

/// What of a service is out of its range: its input, else one of its numbers, else one of its streams'.
fn service_cause(inputs: usize, service: &ServiceParts) -> Option<ServiceCause>
    ensures cause { IfSome result (IsServiceCause inputs (service_parts_value service.now)) }
    ensures some { is_some result ≡ not (is_service inputs (service_parts_value service.now)) }
{
    let input = service.input;
    if !is_place(inputs, input) {
        return Some(ServiceCause::NoInput { input, inputs });
    }
    if let Some(number) = find_outside_service(service) {
        return Some(ServiceCause::Number(number));
    }
    stream_cause(inputs, service)
}

/// What is out of its range in the first service that has something.
fn first_service_cause(parts: &Parts) -> Option<RangeCause>
    ensures cause { IfSome result (IsRangeCause (parts_value parts.now)) }
    ensures some { is_some result ≡ list_any
        (λ s. not (is_service (length parts.now.inputs.items) s)) (parts_value parts.now).services }
{
    let (inputs, services) = (parts.inputs.len(), parts.services.as_slice());
    for (service, row) in services.iter().enumerate() {
        if let Some(cause) = service_cause(inputs, row) {
            return Some(RangeCause::Service { service, cause });
        }
    }
    None
}

/// The count of the services, or what is out of its range in the first that has something.
fn services_cause(parts: &Parts) -> Option<RangeCause>
    ensures cause { IfSome result (IsRangeCause (parts_value parts.now)) }
    ensures some { is_some result
        ≡ not (are_services (length parts.now.inputs.items) (parts_value parts.now).services) }
{
    let count = parts.services.len();
    if is_count(MAX_SERVICES, count) {
        first_service_cause(parts)
    } else {
        Some(RangeCause::ServiceCount(count))
    }
}

/// The count of the streams, where it is out of its range.
fn stream_count_cause(alloc: Global, parts: &Parts) -> Result<Option<RangeCause>, AllocError>
    ensures cause { IfOk result (λ found. IfSome found (IsRangeCause (parts_value parts.now))) }
    ensures some { IfOk result (λ found. is_some found
        ≡ not (is_count_between 1 MAX_STREAMS (length (stream_rows_of (parts_value parts.now).services)))) }
{
    let count = count_streams(alloc, &parts.services)?;
    if is_count(MAX_STREAMS, count) {
        Ok(None)
    } else {
        Ok(Some(RangeCause::StreamCount(count)))
    }
}

/// What of a plan of these parts is out of its range: something at the top, else of the inputs, else of the services, else the
/// count of the streams. There is something wherever `Request::new` answers `OutOfRange`.
pub fn range_cause(alloc: Global, parts: &Parts) -> Result<Option<RangeCause>, AllocError>
    ensures cause { IfOk result (λ found. IfSome found (IsRangeCause (parts_value parts.now))) }
    ensures some { IfOk result (λ found. is_some found ≡ has_bad_range (parts_value parts.now)) }
{
    if let Some(cause) = top_cause(parts) {
        return Ok(Some(cause));
    }
    if let Some(cause) = inputs_cause(parts) {
        return Ok(Some(cause));
    }
    if let Some(cause) = services_cause(parts) {
        return Ok(Some(cause));
    }
    stream_count_cause(alloc, parts)
}
