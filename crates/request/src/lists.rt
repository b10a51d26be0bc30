//! The lists of tables in a plan's text.

ghost use Rattle.std.specs.Prelude.{◌≡◌, IfOk, IfErr, Some, map};
ghost use Rattle.toml.specs.View.{table_view, array_view};
ghost use Rattle.request.specs.Text.{IsTextFault, each_of, stream_of, streams_at, service_of, services_at, input_of, inputs_at};
ghost use Rattle.request.specs.Parts.{input_parts_value, service_parts_value};

use crate::input_parts::InputParts;
use crate::keys::{is_closed, list, number, optional_number, text};
use crate::plan_fault::PlanFault;
use crate::service_parts::ServiceParts;
use crate::stream_parts::StreamParts;
use std::alloc::Global;
use toml::Table;
use toml::value::Array;

/// The stream of a table, where it has the keys and no others.
#[tactic(auto, unfolding(crate::specs::Text::stream_of))]
fn table_stream(table: &Table) -> Option<StreamParts>
    ensures { result ≡ stream_of (table_view table.now) }
{
    if !is_closed(&["pid", "out", "leak"], table) {
        return None;
    }
    let pid = number(table, "pid")?;
    let out = number(table, "out")?;
    let leak = number(table, "leak")?;
    Some(StreamParts { pid, out, leak })
}

/// The streams of a list of tables.
fn list_streams(alloc: Global, items: &Array) -> Result<Vec<StreamParts>, PlanFault>
    ensures ok { IfOk result (λ v. each_of stream_of (array_view items.now) ≡ Some v.items) }
    ensures err { IfErr result (IsTextFault (each_of stream_of (array_view items.now))) }
{
    let mut streams = Vec::new(alloc);
    for item in items {
        let table = item.as_table().ok_or(PlanFault::BadText)?;
        let stream = table_stream(table).ok_or(PlanFault::BadText)?;
        streams.push(stream)?;
    }
    Ok(streams)
}

/// The streams at a key.
fn streams(alloc: Global, table: &Table, key: &str) -> Result<Vec<StreamParts>, PlanFault>
    ensures ok { IfOk result (λ v. streams_at key.now (table_view table.now) ≡ Some v.items) }
    ensures err { IfErr result (IsTextFault (streams_at key.now (table_view table.now))) }
{
    match list(table, key) {
        Some(items) => list_streams(alloc, items),
        None => Err(PlanFault::BadText),
    }
}

/// The service of a table, where it has the keys and no others.
#[tactic(auto, unfolding(crate::specs::Text::service_of))]
fn table_service(alloc: Global, table: &Table) -> Result<ServiceParts, PlanFault>
    ensures ok { IfOk result (λ v. service_of (table_view table.now) ≡ Some (service_parts_value v)) }
    ensures err { IfErr result (IsTextFault (service_of (table_view table.now))) }
{
    if !is_closed(&["input", "program", "service", "pmt", "stream"], table) {
        return Err(PlanFault::BadText);
    }
    let input = number(table, "input").ok_or(PlanFault::BadText)?;
    let program = number(table, "program").ok_or(PlanFault::BadText)?;
    let service = number(table, "service").ok_or(PlanFault::BadText)?;
    let pmt = number(table, "pmt").ok_or(PlanFault::BadText)?;
    let streams = streams(alloc, table, "stream")?;
    Ok(ServiceParts {
        input,
        program,
        service,
        pmt,
        streams,
    })
}

/// The services of a list of tables.
fn list_services(alloc: Global, items: &Array) -> Result<Vec<ServiceParts>, PlanFault>
    ensures ok { IfOk result (λ v. each_of service_of (array_view items.now)
        ≡ Some (map service_parts_value v.items)) }
    ensures err { IfErr result (IsTextFault (each_of service_of (array_view items.now))) }
{
    let mut services = Vec::new(alloc);
    for item in items {
        let table = item.as_table().ok_or(PlanFault::BadText)?;
        let service = table_service(alloc, table)?;
        services.push(service)?;
    }
    Ok(services)
}

/// The services at a key.
pub fn services(alloc: Global, table: &Table, key: &str) -> Result<Vec<ServiceParts>, PlanFault>
    ensures ok { IfOk result (λ v. services_at key.now (table_view table.now)
        ≡ Some (map service_parts_value v.items)) }
    ensures err { IfErr result (IsTextFault (services_at key.now (table_view table.now))) }
{
    match list(table, key) {
        Some(items) => list_services(alloc, items),
        None => Err(PlanFault::BadText),
    }
}

/// The input of a table, where it has the keys and no others.
#[tactic(auto, unfolding(crate::specs::Text::input_of))]
fn table_input(alloc: Global, table: &Table) -> Result<InputParts, PlanFault>
    ensures ok { IfOk result (λ v. input_of (table_view table.now) ≡ Some (input_parts_value v)) }
    ensures err { IfErr result (IsTextFault (input_of (table_view table.now))) }
{
    if !is_closed(&["file", "rate", "offset", "size"], table) {
        return Err(PlanFault::BadText);
    }
    let file = text(table, "file").ok_or(PlanFault::BadText)?;
    let rate = number(table, "rate").ok_or(PlanFault::BadText)?;
    let offset = number(table, "offset").ok_or(PlanFault::BadText)?;
    let size = optional_number(table, "size").ok_or(PlanFault::BadText)?;
    let file = String::from_str(alloc, file)?;
    Ok(InputParts {
        file,
        rate,
        offset,
        size,
    })
}

/// The inputs of a list of tables.
fn list_inputs(alloc: Global, items: &Array) -> Result<Vec<InputParts>, PlanFault>
    ensures ok { IfOk result (λ v. each_of input_of (array_view items.now)
        ≡ Some (map input_parts_value v.items)) }
    ensures err { IfErr result (IsTextFault (each_of input_of (array_view items.now))) }
{
    let mut inputs = Vec::new(alloc);
    for item in items {
        let table = item.as_table().ok_or(PlanFault::BadText)?;
        let input = table_input(alloc, table)?;
        inputs.push(input)?;
    }
    Ok(inputs)
}

/// The inputs at a key.
pub fn inputs(alloc: Global, table: &Table, key: &str) -> Result<Vec<InputParts>, PlanFault>
    ensures ok { IfOk result (λ v. inputs_at key.now (table_view table.now)
        ≡ Some (map input_parts_value v.items)) }
    ensures err { IfErr result (IsTextFault (inputs_at key.now (table_view table.now))) }
{
    match list(table, key) {
        Some(items) => list_inputs(alloc, items),
        None => Err(PlanFault::BadText),
    }
}
