//! The ranges of a plan's numbers.

ghost use Rattle.std.specs.Prelude.{◌≡◌, map, length, string_bytes};
ghost use Rattle.std.specs.List.{list_all};
ghost use Rattle.request.specs.Ranges.{is_count_between, is_between, is_place, is_rate, is_pid, is_program_number, has_good_rates, has_good_sizes, has_good_ids, is_letter, is_network_name, are_descriptors, is_size, is_input, are_inputs, is_stream, is_service, are_services};
ghost use Rattle.request.specs.Parts.{input_parts_value, service_parts_value, parts_value};

use crate::input_parts::InputParts;
use crate::limits::{
    FIRST_LETTER, FIRST_PID, LAST_LETTER, LAST_PID, MAX_DESCRIPTORS, MAX_ID, MAX_INPUTS, MAX_ITEMS,
    MAX_LEAK, MAX_NAME, MAX_OFFSET, MAX_RATE, MAX_SERVICES, MAX_SLOTS, MAX_VERSION, MIN_LEAK,
    MIN_RATE,
};
use crate::parts::Parts;
use crate::service_parts::ServiceParts;
use crate::stream_parts::StreamParts;
use tables::are_whole;

/// A number from one to another.
fn is_between(low: u64, high: u64, number: i64) -> bool
    ensures { result ≡ is_between low high number }
{
    match u64::try_from(number) {
        Ok(number) => low <= number && number <= high,
        Err(_) => false,
    }
}

/// A count from 1 to so many.
pub fn is_count(most: usize, count: usize) -> bool
    ensures { result ≡ is_count_between 1 most count }
{
    1 <= count && count <= most
}

/// The place of one of so many.
fn is_place(count: usize, number: i64) -> bool
    ensures { result ≡ is_place count number }
{
    match usize::try_from(number) {
        Ok(number) => number < count,
        Err(_) => false,
    }
}

/// The rate of an input or the multiplex.
fn is_rate(number: i64) -> bool
    ensures { result ≡ is_rate number }
{
    is_between(MIN_RATE, MAX_RATE, number)
}

/// A PID that a plan may name.
fn is_pid(number: i64) -> bool
    ensures { result ≡ is_pid number }
{
    is_between(FIRST_PID, LAST_PID, number)
}

/// The number of a program or a service.
fn is_program_number(number: i64) -> bool
    ensures { result ≡ is_program_number number }
{
    is_between(1, MAX_ID, number)
}

/// The rate and the periods.
#[tactic(auto, unfolding(crate::specs::Ranges::has_good_rates))]
pub fn has_good_rates(parts: &Parts) -> bool
    ensures { result ≡ has_good_rates (parts_value parts.now) }
{
    is_rate(parts.rate)
        && is_between(1, MAX_SLOTS, parts.period)
        && is_between(1, MAX_SLOTS, parts.watch)
}

/// The version, the queues and the rings.
#[tactic(auto, unfolding(crate::specs::Ranges::has_good_sizes))]
pub fn has_good_sizes(parts: &Parts) -> bool
    ensures { result ≡ has_good_sizes (parts_value parts.now) }
{
    is_between(0, MAX_VERSION, parts.version)
        && is_between(1, MAX_ITEMS, parts.queue)
        && is_between(1, MAX_ITEMS, parts.ring)
}

/// The identifiers.
#[tactic(auto, unfolding(crate::specs::Ranges::has_good_ids))]
pub fn has_good_ids(parts: &Parts) -> bool
    ensures { result ≡ has_good_ids (parts_value parts.now) }
{
    is_between(0, MAX_ID, parts.transport_stream_id)
        && is_between(0, MAX_ID, parts.original_network_id)
        && is_between(0, MAX_ID, parts.network_id)
}

/// A letter of a network's name.
fn is_letter(byte: u8) -> bool
    ensures { result ≡ is_letter byte }
{
    FIRST_LETTER <= byte && byte <= LAST_LETTER
}

/// Whether all are letters of a network's name.
fn are_letters(bytes: &[u8]) -> bool
    ensures { result ≡ list_all is_letter bytes.now }
{
    bytes.iter().all(|byte| is_letter(*byte))
}

/// The name of a network.
#[tactic(auto, unfolding(crate::specs::Ranges::is_network_name))]
pub fn is_network_name(name: &str) -> bool
    ensures { result ≡ is_network_name name.now }
{
    is_count(MAX_NAME, name.len()) && are_letters(name.as_bytes())
}

/// The descriptors of a transport stream.
#[tactic(auto, unfolding(crate::specs::Ranges::are_descriptors))]
pub fn are_descriptors(bytes: &[u8]) -> bool
    ensures { result ≡ are_descriptors bytes.now }
{
    bytes.len() <= MAX_DESCRIPTORS && are_whole(bytes)
}

/// The size of an input's packets, where it is said.
fn is_size(size: Option<i64>) -> bool
    ensures { result ≡ is_size size }
{
    match size {
        Some(size) => size == 188 || size == 204,
        None => true,
    }
}

#[tactic(auto, unfolding(crate::specs::Ranges::is_input))]
fn is_input(input: &InputParts) -> bool
    ensures { result ≡ is_input (input_parts_value input.now) }
{
    is_rate(input.rate) && is_between(0, MAX_OFFSET, input.offset) && is_size(input.size)
}

/// Whether each is an input in its ranges.
fn are_all_inputs(inputs: &[InputParts]) -> bool
    ensures { result ≡ list_all (λ i. is_input (input_parts_value i)) inputs.now }
{
    inputs.iter().all(|input| is_input(input))
}

/// The inputs, each in its ranges, and how many they are.
#[tactic(auto, unfolding(crate::specs::Ranges::are_inputs))]
pub fn are_inputs(inputs: &[InputParts]) -> bool
    ensures { result ≡ are_inputs (map input_parts_value inputs.now) }
{
    is_count(MAX_INPUTS, inputs.len()) && are_all_inputs(inputs)
}

#[tactic(auto, unfolding(crate::specs::Ranges::is_stream))]
fn is_stream(stream: &StreamParts) -> bool
    ensures { result ≡ is_stream stream.now }
{
    is_pid(stream.pid) && is_pid(stream.out) && is_between(MIN_LEAK, MAX_LEAK, stream.leak)
}

/// Whether each is a stream in its ranges.
fn are_all_streams(streams: &[StreamParts]) -> bool
    ensures { result ≡ list_all is_stream streams.now }
{
    streams.iter().all(|stream| is_stream(stream))
}

/// A service of one of so many inputs.
#[tactic(auto, unfolding(crate::specs::Ranges::is_service))]
fn is_service(inputs: usize, service: &ServiceParts) -> bool
    ensures { result ≡ is_service inputs (service_parts_value service.now) }
{
    is_place(inputs, service.input)
        && is_program_number(service.program)
        && (is_program_number(service.service)
            && is_pid(service.pmt)
            && are_all_streams(&service.streams))
}

/// Whether each is a service in its ranges.
fn are_all_services(inputs: usize, services: &[ServiceParts]) -> bool
    ensures { result ≡ list_all (λ s. is_service inputs (service_parts_value s)) services.now }
{
    services.iter().all(|service| is_service(inputs, service))
}

/// The services of so many inputs, each in its ranges, and how many they are.
#[tactic(auto, unfolding(crate::specs::Ranges::are_services))]
pub fn are_services(inputs: usize, services: &[ServiceParts]) -> bool
    ensures { result ≡ are_services inputs (map service_parts_value services.now) }
{
    is_count(MAX_SERVICES, services.len()) && are_all_services(inputs, services)
}
