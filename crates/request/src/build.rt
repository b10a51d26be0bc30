//! The parts of a request, made of a plan without fault.

ghost use Rattle.std.specs.Prelude.{◌≡◌, ◌<◌, ◌^◌, IfOk, map, All};
ghost use Rattle.request.specs.Request.{natural_of, settings_of, size_of, input_of, input_value, stream_of, stream_number, service_rows, service_of, service_value};
ghost use Rattle.request.specs.Answers.{HasShortIds, HasShortNumbers, HasShortPids};
ghost use Rattle.request.specs.Parts.{input_parts_value, service_parts_value, parts_value};

use crate::input::Input;
use crate::input_parts::InputParts;
use crate::parts::Parts;
use crate::service::Service;
use crate::service_parts::ServiceParts;
use crate::settings::Settings;
use crate::stream::Stream;
use crate::stream_row::StreamRow;
use std::alloc::{AllocError, Global};
use tspkt::PacketSize;

/// The number, or 0 for a negative one.
fn natural(number: i64) -> u64
    ensures { result ≡ natural_of number }
{
    match u64::try_from(number) {
        Ok(number) => number,
        Err(_) => 0,
    }
}

/// A number of 16 bits.
fn short(number: i64) -> u16
    requires { natural_of number < 2 ^ 16 }
    ensures { result ≡ natural_of number }
{
    natural(number) as u16
}

/// The numbers at the top.
pub fn make_settings(parts: &Parts) -> Settings
    requires { HasShortIds (parts_value parts.now) }
    ensures { result ≡ settings_of (parts_value parts.now) }
{
    Settings {
        rate: natural(parts.rate),
        period: natural(parts.period),
        watch: natural(parts.watch),
        version: natural(parts.version) as u8,
        queue: natural(parts.queue) as usize,
        ring: natural(parts.ring) as usize,
        transport_stream_id: short(parts.transport_stream_id),
        original_network_id: short(parts.original_network_id),
        network_id: short(parts.network_id),
    }
}

/// How the packets of an input of this size follow one another.
fn size_of(size: Option<i64>) -> PacketSize
    ensures { result ≡ size_of size }
{
    match size {
        Some(size) => {
            if size == 204 {
                PacketSize::Ts204
            } else {
                PacketSize::Ts188
            }
        }
        None => PacketSize::Ts188,
    }
}

/// An input in numbers.
fn make_input(parts: InputParts) -> Input
    ensures { input_value result ≡ input_of (input_parts_value parts) }
{
    Input {
        file: parts.file,
        rate: natural(parts.rate),
        offset: natural(parts.offset),
        size: size_of(parts.size),
    }
}

/// The inputs in numbers.
pub fn make_inputs(alloc: Global, parts: Vec<InputParts>) -> Result<Vec<Input>, AllocError>
    ensures { IfOk result (λ v. map input_value v.items
        ≡ map input_of (map input_parts_value parts.items)) }
{
    let mut inputs = Vec::new(alloc);
    for input in parts {
        inputs.push(make_input(input))?;
    }
    Ok(inputs)
}

/// A stream in numbers.
fn make_stream(row: &StreamRow) -> Stream
    requires { HasShortPids row.now }
    ensures { result ≡ stream_of row.now }
{
    Stream {
        input: natural(row.input) as usize,
        pid: short(row.pid),
        output_pid: short(row.out),
        leak: natural(row.leak),
    }
}

/// The streams in numbers.
pub fn make_streams(alloc: Global, rows: &[StreamRow]) -> Result<Vec<Stream>, AllocError>
    requires { All HasShortPids rows.now }
    ensures { IfOk result (λ v. v.items ≡ map stream_of rows.now) }
{
    let mut streams = Vec::new(alloc);
    for row in rows {
        streams.push(make_stream(row))?;
    }
    Ok(streams)
}

/// The place of the stream that a row is, or repeats.
fn stream_number(streams: &[StreamRow], row: &StreamRow) -> usize
    ensures { result ≡ stream_number streams.now row.now }
{
    for (i, stream) in streams.iter().enumerate() {
        if row.has_same_source(stream) {
            return i;
        }
    }
    streams.len()
}

/// The numbers of the streams of a service.
fn stream_numbers(
    alloc: Global,
    streams: &[StreamRow],
    service: &ServiceParts,
) -> Result<Vec<usize>, AllocError>
    ensures { IfOk result (λ v. v.items
        ≡ map (stream_number streams.now) (service_rows (service_parts_value service.now))) }
{
    let mut numbers = Vec::new(alloc);
    for stream in &service.streams {
        numbers.push(stream_number(streams, &StreamRow::new(service, stream)))?;
    }
    Ok(numbers)
}

/// A service in numbers.
fn make_service(
    alloc: Global,
    streams: &[StreamRow],
    service: &ServiceParts,
) -> Result<Service, AllocError>
    requires { HasShortNumbers service.now }
    ensures { IfOk result (λ v. service_value v
        ≡ service_of streams.now (service_parts_value service.now)) }
{
    let streams = stream_numbers(alloc, streams, service)?;
    Ok(Service {
        input: natural(service.input) as usize,
        program: short(service.program),
        service: short(service.service),
        pmt: short(service.pmt),
        streams,
    })
}

/// The services in numbers.
pub fn make_services(
    alloc: Global,
    streams: &[StreamRow],
    services: &[ServiceParts],
) -> Result<Vec<Service>, AllocError>
    requires { All HasShortNumbers services.now }
    ensures { IfOk result (λ v. map service_value v.items
        ≡ map (service_of streams.now) (map service_parts_value services.now)) }
{
    let mut made = Vec::new(alloc);
    for service in services {
        made.push(make_service(alloc, streams, service)?)?;
    }
    Ok(made)
}
