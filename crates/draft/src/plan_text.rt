//! The text of a plan.

use crate::candidate::Candidate;
use probe::Codec;
use request::{InputParts, Parts, ServiceParts, StreamParts};
use std::alloc::{AllocError, Global};
use toml::Value;

/// What stands in front of the values.
const HEAD: &str =
    "# A plan that remux probe made. Beside the tables its rate leaves a tenth more than the services took at most.
# Each leak is of the kind of the stream: of audio, teletext and subtitles it is fixed, of others a guess by the highest rate.
# docs/FIRST-PLAN.md has those of the levels of video.
";

/// Adds the settings at the top.
fn push_settings(text: &mut String, parts: &Parts) -> Result<(), AllocError> {
    let (rate, period, watch, version) = (parts.rate, parts.period, parts.watch, parts.version);
    let (queue, ring) = (parts.queue, parts.ring);
    write!(text, "rate = {rate}\nperiod = {period}\nwatch = {watch}\n")?;
    write!(
        text,
        "version = {version}\nqueue = {queue}\nring = {ring}\n"
    )
}

/// Adds what names the output and its network.
fn push_names(alloc: Global, text: &mut String, parts: &Parts) -> Result<(), AllocError> {
    let (stream, network) = (parts.transport_stream_id, parts.network_id);
    let original = parts.original_network_id;
    let name = Value::string(alloc, &parts.network_name)?;
    let descriptors = hex::encode(alloc, &parts.transport_descriptors)?;
    write!(
        text,
        "transport_stream_id = {stream}\noriginal_network_id = {original}\n"
    )?;
    write!(text, "network_id = {network}\nnetwork_name = {name}\n")?;
    write!(text, "transport_descriptors = \"{descriptors}\"\n")
}

/// Adds an input.
fn push_input(alloc: Global, text: &mut String, input: &InputParts) -> Result<(), AllocError> {
    let (rate, offset) = (input.rate, input.offset);
    let file = Value::string(alloc, &input.file)?;
    write!(
        text,
        "\n[[input]]\nfile = {file}\nrate = {rate}\noffset = {offset}\n"
    )?;
    match input.size {
        Some(size) => write!(text, "size = {size}\n"),
        None => Ok(()),
    }
}

/// Adds a stream of a service that is coded so.
fn push_stream(text: &mut String, stream: &StreamParts, codec: Codec) -> Result<(), AllocError> {
    let (pid, out, leak) = (stream.pid, stream.out, stream.leak);
    write!(
        text,
        "[[service.stream]]\npid = 0x{pid:04X} # {codec}\nout = 0x{out:04X}\nleak = {leak}\n"
    )
}

/// Adds a service, with its name.
fn push_service(
    text: &mut String,
    service: &ServiceParts,
    known: &Candidate,
) -> Result<(), AllocError> {
    let (input, program) = (service.input, service.program);
    let (number, pmt) = (service.service, service.pmt);
    text.push_str("\n[[service]]")?;
    if !known.name.is_empty() {
        let name = &known.name;
        write!(text, " # {name}")?;
    }
    write!(
        text,
        "\ninput = {input}\nprogram = {program}\nservice = {number}\npmt = 0x{pmt:04X}\n"
    )?;
    if service.streams.is_empty() {
        return text.push_str("stream = []\n");
    }
    for (stream, known) in service.streams.iter().zip(known.streams.iter()) {
        push_stream(text, stream, known.codec)?;
    }
    Ok(())
}

/// The text of a plan with these values, of these services, each of which has its name and its streams in the same order.
pub(crate) fn plan_text(
    alloc: Global,
    parts: &Parts,
    services: &[Candidate],
) -> Result<String, AllocError> {
    let mut text = String::from_str(alloc, HEAD)?;
    push_settings(&mut text, parts)?;
    push_names(alloc, &mut text, parts)?;
    for input in &parts.inputs {
        push_input(alloc, &mut text, input)?;
    }
    for (service, known) in parts.services.iter().zip(services.iter()) {
        push_service(&mut text, service, known)?;
    }
    Ok(text)
}
