//! The plan of a measured multiplex.

use crate::made_input::MadeInput;
use crate::multiplex::Multiplex;
use crate::sections::program;
use anyhow::Result;
use plan::Plan;
use request::Request;
use std::alloc::{AllocError, Global};

/// The leak rates of video and of audio, in bits a second.
const VIDEO_LEAK: u64 = 18_000_000;

const AUDIO_LEAK: u64 = 2_000_000;

/// The first PIDs of the PMTs and of the streams in the multiplex.
const PMT_PID: u16 = 0x0020;

const STREAM_PID: u16 = 0x0100;

/// The text of a plan, and how many services it has so far.
#[derive(Drop)]
struct Text {
    alloc: Global,
    text: String,
    services: u16,
}

impl Text {
    /// The head of the text.
    fn new(alloc: Global, multiplex: Multiplex) -> Result<Text, AllocError> {
        let (rate, period) = (multiplex.rate, multiplex.period);
        let text = format!(in alloc;
            "rate = {rate}
period = {period}
watch = 20000
version = 0
queue = 256
ring = 256
transport_stream_id = 1
original_network_id = 2
network_id = 3
network_name = \"Jobs\"
transport_descriptors = \"\"
"
        )?;
        Ok(Text {
            alloc,
            text,
            services: 0,
        })
    }

    /// Adds an input.
    fn add_input(&mut self, input: &MadeInput) -> Result<(), AllocError> {
        let (rate, offset) = (input.shape.rate, input.offset);
        let row = format!(in self.alloc;
            "[[input]]\nfile = \"\"\nrate = {rate}\noffset = {offset}\n"
        )?;
        self.text.push_str(&row)
    }

    /// Adds a service of the input with this number.
    fn add_service(
        &mut self,
        number: usize,
        input: &MadeInput,
        service: u8,
    ) -> Result<(), AllocError> {
        let own = self.services;
        let program = program(service);
        let (service_id, pmt) = (own.wrapping_add(1), PMT_PID.wrapping_add(own));
        let row = format!(in self.alloc;
            "[[service]]\ninput = {number}\nprogram = {program}\nservice = {service_id}\npmt = {pmt}\n"
        )?;
        self.text.push_str(&row)?;
        for stream in 0..input.shape.streams {
            self.add_stream(input, service, stream)?;
        }
        self.services = own.wrapping_add(1);
        Ok(())
    }

    /// Adds a stream of the service that was added last.
    fn add_stream(&mut self, input: &MadeInput, service: u8, stream: u8) -> Result<(), AllocError> {
        let before = self.services.wrapping_mul(u16::from(input.shape.streams));
        let pid = input.pids.stream(service, stream);
        let out = STREAM_PID
            .wrapping_add(before)
            .wrapping_add(u16::from(stream));
        let leak = if stream == 0 { VIDEO_LEAK } else { AUDIO_LEAK };
        let row = format!(in self.alloc;
            "[[service.stream]]\npid = {pid}\nout = {out}\nleak = {leak}\n"
        )?;
        self.text.push_str(&row)
    }
}

/// The text of the plan of these inputs.
fn text_of(
    alloc: Global,
    multiplex: Multiplex,
    inputs: &[MadeInput],
) -> Result<String, AllocError> {
    let mut text = Text::new(alloc, multiplex)?;
    for input in inputs {
        text.add_input(input)?;
    }
    for (number, input) in inputs.iter().enumerate() {
        for service in 0..multiplex.taken {
            text.add_service(number, input, input.first.wrapping_add(service))?;
        }
    }
    Ok(text.text)
}

/// The plan of these inputs.
pub fn plan_of(alloc: Global, multiplex: Multiplex, inputs: &[MadeInput]) -> Result<Plan> {
    let request = Request::read(alloc, &text_of(alloc, multiplex, inputs)?)?;
    let mut found = Vec::new(alloc);
    for input in inputs {
        found.push(input.found(alloc, multiplex.taken)?)?;
    }
    Ok(Plan::build(alloc, &request, &found)?)
}
