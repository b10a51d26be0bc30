//! The parts of a plan in its text.

ghost use Rattle.std.specs.Prelude.{◌≡◌, IfOk, IfErr, Some};
ghost use Rattle.toml.specs.View.{table_view};
ghost use Rattle.request.specs.Text.{IsTextFault, has_only, plan_keys, numbers_of, names_of, parts_of};
ghost use Rattle.request.specs.Parts.{parts_value};
ghost use Rattle.request.specs.TextView.{names_value};

use crate::keys::{hex_bytes, is_closed, number, text};
use crate::lists::{inputs, services};
use crate::parts::Parts;
use crate::plan_fault::PlanFault;
use std::alloc::Global;
use toml::Table;

/// The numbers at the top of a plan.
#[derive(Clone, Copy)]
struct Numbers {
    rate: i64,
    period: i64,
    watch: i64,
    version: i64,
    queue: i64,
    ring: i64,
}

/// What names the transport stream and its network.
#[derive(Drop)]
struct Names {
    transport_stream_id: i64,
    original_network_id: i64,
    network_id: i64,
    network_name: String,
    transport_descriptors: Vec<u8>,
}

/// The numbers at the top.
#[tactic(auto, unfolding(crate::specs::Text::numbers_of))]
fn table_numbers(table: &Table) -> Option<Numbers>
    ensures { result ≡ numbers_of (table_view table.now) }
{
    Some(Numbers {
        rate: number(table, "rate")?,
        period: number(table, "period")?,
        watch: number(table, "watch")?,
        version: number(table, "version")?,
        queue: number(table, "queue")?,
        ring: number(table, "ring")?,
    })
}

/// What names the transport stream and its network.
#[tactic(auto, unfolding(crate::specs::Text::names_of))]
fn table_names(alloc: Global, table: &Table) -> Result<Names, PlanFault>
    ensures ok { IfOk result (λ v. names_of (table_view table.now) ≡ Some (names_value v)) }
    ensures err { IfErr result (IsTextFault (names_of (table_view table.now))) }
{
    let transport_stream_id = number(table, "transport_stream_id").ok_or(PlanFault::BadText)?;
    let original_network_id = number(table, "original_network_id").ok_or(PlanFault::BadText)?;
    let network_id = number(table, "network_id").ok_or(PlanFault::BadText)?;
    let network_name = text(table, "network_name").ok_or(PlanFault::BadText)?;
    let transport_descriptors = hex_bytes(alloc, table, "transport_descriptors")?;
    let network_name = String::from_str(alloc, network_name)?;
    Ok(Names {
        transport_stream_id,
        original_network_id,
        network_id,
        network_name,
        transport_descriptors,
    })
}

/// Whether no other key stands at the top.
fn has_plan_keys(table: &Table) -> bool
    ensures { result ≡ has_only plan_keys (table_view table.now) }
{
    let names = [
        "rate",
        "period",
        "watch",
        "version",
        "queue",
        "ring",
        "transport_stream_id",
        "original_network_id",
        "network_id",
        "network_name",
        "transport_descriptors",
        "input",
        "service",
    ];
    is_closed(&names, table)
}

/// The parts of a plan in a table, where it has the keys and no others.
#[tactic(auto, unfolding(crate::specs::Text::parts_of))]
fn table_parts(alloc: Global, table: &Table) -> Result<Parts, PlanFault>
    ensures ok { IfOk result (λ v. parts_of (table_view table.now) ≡ Some (parts_value v)) }
    ensures err { IfErr result (IsTextFault (parts_of (table_view table.now))) }
{
    if !has_plan_keys(table) {
        return Err(PlanFault::BadText);
    }
    let numbers = table_numbers(table).ok_or(PlanFault::BadText)?;
    let names = table_names(alloc, table)?;
    let inputs = inputs(alloc, table, "input")?;
    let services = services(alloc, table, "service")?;
    Ok(Parts {
        rate: numbers.rate,
        period: numbers.period,
        watch: numbers.watch,
        version: numbers.version,
        queue: numbers.queue,
        ring: numbers.ring,
        transport_stream_id: names.transport_stream_id,
        original_network_id: names.original_network_id,
        network_id: names.network_id,
        network_name: names.network_name,
        transport_descriptors: names.transport_descriptors,
        inputs,
        services,
    })
}

impl Parts {
    ghost use Rattle.std.specs.Prelude.{◌≡◌, IfOk, IfErr, Some};
    ghost use Rattle.request.specs.Text.{IsTextFault, text_parts};
    ghost use Rattle.request.specs.Parts.{parts_value};

    /// The parts that a text writes. It answers `BadText` where the text isn't TOML, or a key is missing, unknown or of
    /// another type, or the hex digits are wrong, and `Memory` where memory ends
    /// before that is known.
    pub fn read(alloc: Global, text: &str) -> Result<Parts, PlanFault>
        ensures parts { IfOk result (λ v. text_parts text.now ≡ Some (parts_value v)) }
        ensures fault { IfErr result (IsTextFault (text_parts text.now)) }
    {
        match toml::table_from_str(alloc, text) {
            Ok(table) => table_parts(alloc, &table),
            Err(e) => {
                if e.is_memory() {
                    Err(PlanFault::Memory)
                } else {
                    Err(PlanFault::BadText)
                }
            }
        }
    }
}
