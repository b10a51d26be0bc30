//! The values of a first plan.

use crate::candidate::Candidate;
use crate::mapped_stream::{MappedStream, map_streams, mapped};
use crate::surveyed::Surveyed;
use advice::packets_rate;
use request::{InputParts, Parts, ServiceParts, StreamParts};
use std::alloc::{AllocError, Global};
use tspkt::PacketSize;

/// The PID of the first service's PMT. The others follow.
const FIRST_PMT_PID: u64 = 0x0100;

/// The name of the network.
const NETWORK_NAME: &str = "remux";

/// An identifier for private use (ETSI TS 101 162).
const PRIVATE_ID: i64 = 0xFF01;

/// What a plan of these services says but for its rate and its period, and the rate that their streams need.
#[derive(Drop)]
pub(crate) struct Lineup {
    inputs: Vec<InputParts>,
    services: Vec<ServiceParts>,
    /// The rate that the streams need, in bits a second: of each input the highest rates of its streams together, and no more than
    /// the input has.
    pub needed: u64,
}

/// A number as a plan's text has it: 2^63 - 1 where it is more.
fn number(value: u64) -> i64 {
    i64::try_from(value).unwrap_or(i64::MAX)
}

/// The places of the files that have one of the services, each once.
fn files_of(alloc: Global, services: &[Candidate]) -> Result<Vec<usize>, AllocError> {
    let mut files = Vec::new(alloc);
    for service in services {
        if !files.contains(&service.file) {
            files.push(service.file)?;
        }
    }
    Ok(files)
}

/// The rate of a file, in bits a second; 0 where it isn't known.
fn rate_of(surveyed: &Surveyed<'_>) -> u64 {
    match surveyed.survey.measured {
        Some(measured) => measured.rate,
        None => 0,
    }
}

/// The rate that the streams of a file need, in bits a second: no more than its packets have.
fn needed_of(surveyed: &Surveyed<'_>, streams: &[MappedStream], file: usize) -> u64 {
    let mut highest = 0u64;
    for stream in streams {
        if stream.file == file {
            highest = highest.saturating_add(stream.highest);
        }
    }
    highest.min(packets_rate(surveyed.survey.size, rate_of(surveyed)))
}

/// What a plan states of a size; 188 is what isn't stated.
fn stated_size(size: PacketSize) -> Option<i64> {
    match size {
        PacketSize::Ts188 => None,
        PacketSize::Ts204 => Some(204),
    }
}

/// The input that a file is.
fn input_of(alloc: Global, surveyed: &Surveyed<'_>) -> Result<InputParts, AllocError> {
    Ok(InputParts {
        file: String::from_str(alloc, surveyed.file)?,
        rate: number(rate_of(surveyed)),
        offset: 0,
        size: stated_size(surveyed.survey.size),
    })
}

/// The rows of a service's streams.
fn rows_of(
    alloc: Global,
    service: &Candidate,
    streams: &[MappedStream],
) -> Result<Vec<StreamParts>, AllocError> {
    let mut rows = Vec::new(alloc);
    for stream in &service.streams {
        if let Some(found) = mapped(streams, service.file, stream.pid) {
            rows.push(StreamParts {
                pid: i64::from(found.pid),
                out: number(found.out),
                leak: number(found.leak),
            })?;
        }
    }
    Ok(rows)
}

/// The services, with numbers from 1 on and PIDs of their PMTs from 0x0100 on.
fn services_of(
    alloc: Global,
    services: &[Candidate],
    files: &[usize],
    streams: &[MappedStream],
) -> Result<Vec<ServiceParts>, AllocError> {
    let mut all = Vec::new(alloc);
    for (place, service) in services.iter().enumerate() {
        let input = files.iter().position(|file| *file == service.file);
        let place = place as u64;
        all.push(ServiceParts {
            input: number(input.unwrap_or(files.len()) as u64),
            program: i64::from(service.program),
            service: number(place.saturating_add(1)),
            pmt: number(place.saturating_add(FIRST_PMT_PID)),
            streams: rows_of(alloc, service, streams)?,
        })?;
    }
    Ok(all)
}

impl Lineup {
    /// That of these services of these files.
    pub fn new(
        alloc: Global,
        files: &[Surveyed<'_>],
        services: &[Candidate],
    ) -> Result<Lineup, AllocError> {
        let used = files_of(alloc, services)?;
        let streams = map_streams(alloc, services)?;
        let mut inputs = Vec::new(alloc);
        let mut needed = 0u64;
        for file in &used {
            if let Some(surveyed) = files.get(*file) {
                needed = needed.saturating_add(needed_of(surveyed, &streams, *file));
                inputs.push(input_of(alloc, surveyed)?)?;
            }
        }
        let services = services_of(alloc, services, &used, &streams)?;
        Ok(Lineup {
            inputs,
            services,
            needed,
        })
    }

    /// The plan with this rate, in bits a second, and this period, in slots.
    pub fn parts(self, alloc: Global, rate: u64, period: u64) -> Result<Parts, AllocError> {
        Ok(Parts {
            rate: number(rate),
            period: number(period),
            watch: number(period.saturating_mul(20).min(1_000_000)),
            version: 0,
            queue: 1_024,
            ring: 1_024,
            transport_stream_id: 1,
            original_network_id: PRIVATE_ID,
            network_id: PRIVATE_ID,
            network_name: String::from_str(alloc, NETWORK_NAME)?,
            transport_descriptors: Vec::new(alloc),
            inputs: self.inputs,
            services: self.services,
        })
    }
}
