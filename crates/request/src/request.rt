//! A plan in numbers, without fault.

use crate::build::{make_inputs, make_services, make_settings, make_streams};
use crate::copies::{copy_inputs, copy_services};
use crate::input::Input;
use crate::judge::judge;
use crate::parts::Parts;
use crate::plan_fault::PlanFault;
use crate::service::Service;
use crate::settings::Settings;
use crate::stream::Stream;
use std::alloc::{AllocError, Global};
use std::marker::Model;

/// What a user asks for: which services of which inputs go into the multiplex, each number in its range, and no number
/// or PID used for two things.
#[derive(Drop)]
pub struct Request {
    settings: Settings,
    network_name: String,
    transport_descriptors: Vec<u8>,
    inputs: Vec<Input>,
    services: Vec<Service>,
    streams: Vec<Stream>,
}

impl Model for Request {
    ghost use Rattle.std.specs.Prelude.{string_bytes};
    ghost use Rattle.request.specs.Request.{RequestValue, IsRequest, request_with};

    ghost Value = { RequestValue };

    ghost view = { λ r.
        request_with r.settings (string_bytes r.network_name) r.transport_descriptors.items
        r.inputs.items r.services.items r.streams.items };

    ghost invariant = { λ r.
        IsRequest (request_with r.settings (string_bytes r.network_name)
        r.transport_descriptors.items r.inputs.items r.services.items r.streams.items) };
}

impl Request {
    ghost use Rattle.std.specs.Prelude.{◌≡◌, ◌⊎◌, IfOk, IfErr, Some, None, option_map, map};
    ghost use Rattle.request.specs.Parts.{parts_value};
    ghost use Rattle.request.specs.Text.{text_parts};
    ghost use Rattle.request.specs.Request.{RequestValue, IsRequest, request_of, request_fault_of, input_value, service_value};
    ghost use Rattle.request.specs.Answers.{IsFaultOf, IsFaultOfText, text_fault_of};

    /// The request that these parts make.
    ///
    /// It answers `OutOfRange` where a number, a count or a text is out of its range or a service names an input that
    /// isn't there, else `ServiceTaken` where two services have one number, else `PidTaken` where an output PID is used
    /// for two things, two rows of one PID of an input differ or a service names a PID twice, else perhaps `Memory`.
    pub fn new(alloc: Global, parts: Parts) -> Result<Request, PlanFault>
        ensures value { IfOk result (λ r. r ≡ request_of (parts_value parts)) }
        ensures faultless { IfOk result (λ _. request_fault_of (parts_value parts) ≡ None) }
        ensures fault { IfErr result (IsFaultOf (parts_value parts)) }
    {
        let rows = judge(&parts)?;
        let settings = make_settings(&parts);
        let streams = make_streams(alloc, rows.as_slice())?;
        let services = make_services(alloc, rows.as_slice(), &parts.services)?;
        let inputs = make_inputs(alloc, parts.inputs)?;
        Ok(Request {
            settings,
            network_name: parts.network_name,
            transport_descriptors: parts.transport_descriptors,
            inputs,
            services,
            streams,
        })
    }

    /// The request that a text writes.
    ///
    /// It answers `BadText` where the text isn't TOML, or a key is missing, unknown or of another type, or the hex
    /// digits are wrong, else the fault of its parts as `Request::new` does. `Memory` may come before any of these.
    pub fn read(alloc: Global, text: &str) -> Result<Request, PlanFault>
        ensures value { IfOk result (λ r. option_map request_of (text_parts text.now) ≡ Some r) }
        ensures faultless { IfOk result (λ _. text_fault_of text.now ≡ None) }
        ensures fault { IfErr result (IsFaultOfText text.now) }
    {
        let parts = Parts::read(alloc, text)?;
        Request::new(alloc, parts)
    }

    /// An equal request. It is refused only for want of memory.
    pub fn copy(&self, alloc: Global) -> Result<Request, AllocError>
        ensures { IfOk result (λ r. r ≡ self.now) }
    {
        Ok(Request {
            settings: self.settings,
            network_name: String::from_str(alloc, self.network_name.as_str())?,
            transport_descriptors: self.transport_descriptors.to_vec(alloc)?,
            inputs: copy_inputs(alloc, &self.inputs)?,
            services: copy_services(alloc, &self.services)?,
            streams: self.streams.to_vec(alloc)?,
        })
    }

    /// What every request keeps: each number is in its range, and none is used for two things.
    pub fn known(&self)
        ensures { IsRequest self.now }
    {
        let _ = &self.settings;
    }

    /// The rate of the multiplex, in bits a second, 500,000 to 100,000,000.
    pub fn rate(&self) -> u64
        ensures value { result ≡ self.now.rate }
    {
        self.settings.rate
    }

    /// How many slots lie between two rounds of the tables, 1 to 1,000,000.
    pub fn period(&self) -> u64
        ensures value { result ≡ self.now.period }
    {
        self.settings.period
    }

    /// After how many slots without a packet of a PID its absence is told (ETSI TR 101 290, 1.6), 1 to 1,000,000.
    pub fn watch(&self) -> u64
        ensures value { result ≡ self.now.watch }
    {
        self.settings.watch
    }

    /// The version_number of the tables, 0 to 31.
    pub fn version(&self) -> u8
        ensures value { result ≡ self.now.version }
    {
        self.settings.version
    }

    /// How many packets the queue of a stream holds, 1 to 1,024.
    pub fn queue(&self) -> usize
        ensures value { result ≡ self.now.queue }
    {
        self.settings.queue
    }

    /// How many packets the ring of an input holds, 1 to 1,024.
    pub fn ring(&self) -> usize
        ensures value { result ≡ self.now.ring }
    {
        self.settings.ring
    }

    /// The transport_stream_id of the output.
    pub fn transport_stream_id(&self) -> u16
        ensures value { result ≡ self.now.transport_stream_id }
    {
        self.settings.transport_stream_id
    }

    /// The original_network_id of the output.
    pub fn original_network_id(&self) -> u16
        ensures value { result ≡ self.now.original_network_id }
    {
        self.settings.original_network_id
    }

    /// The network_id of the output's network.
    pub fn network_id(&self) -> u16
        ensures value { result ≡ self.now.network_id }
    {
        self.settings.network_id
    }

    /// The name of that network, 1 to 64 bytes from 0x20 to 0x7E.
    pub fn network_name(&self) -> &str
        ensures value { result.now ≡ self.now.network_name }
    {
        self.network_name.as_str()
    }

    /// The descriptors of the output in the NIT, whole ones of at most 900 bytes in all.
    pub fn transport_descriptors(&self) -> &[u8]
        ensures value { result.now ≡ self.now.transport_descriptors }
    {
        self.transport_descriptors.as_slice()
    }

    /// The inputs, 1 to 8, in the order of the text.
    pub fn inputs(&self) -> &[Input]
        ensures value { map input_value result.now ≡ self.now.inputs }
    {
        self.inputs.as_slice()
    }

    /// The services, 1 to 16, in the order of the text. Each names its streams by their places in `streams`.
    pub fn services(&self) -> &[Service]
        ensures value { map service_value result.now ≡ self.now.services }
    {
        self.services.as_slice()
    }

    /// The streams, 1 to 64: one for each PID of an input that the plan names, in the order of the first rows that name them.
    pub fn streams(&self) -> &[Stream]
        ensures value { result.now ≡ self.now.streams }
    {
        self.streams.as_slice()
    }
}
