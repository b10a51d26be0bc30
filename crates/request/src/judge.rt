//! The faults of a plan that are found without memory.

ghost use Rattle.std.specs.Prelude.{◌≡◌, ◌≤◌, map, length, true, false, Some, None, IfSome, IfNone, IfOk, IfErr};
ghost use Rattle.request.specs.Ranges.{has_good_top, has_good_lists};
ghost use Rattle.request.specs.Request.{stream_rows_of, has_bad_range, request_fault_of};
ghost use Rattle.request.specs.Parts.{service_parts_value, parts_value};

use crate::limits::MAX_STREAMS;
use crate::parts::Parts;
use crate::plan_fault::PlanFault;
use crate::ranges::{
    are_descriptors, are_inputs, are_services, has_good_ids, has_good_rates, has_good_sizes,
    is_count, is_network_name,
};
use crate::stream_row::StreamRow;
use crate::streams::find_streams;
use crate::taken::{has_pid_twice, has_service_twice};
use arrayvec::ArrayVec;

/// The numbers and texts at the top.
#[tactic(auto, unfolding(crate::specs::Ranges::has_good_top))]
fn has_good_top(parts: &Parts) -> bool
    ensures { result ≡ has_good_top (parts_value parts.now) }
{
    has_good_rates(parts)
        && has_good_sizes(parts)
        && has_good_ids(parts)
        && is_network_name(parts.network_name.as_str())
        && are_descriptors(&parts.transport_descriptors)
}

/// The inputs and the services.
#[tactic(auto, unfolding(crate::specs::Ranges::has_good_lists))]
fn has_good_lists(parts: &Parts) -> bool
    ensures { result ≡ has_good_lists (parts_value parts.now) }
{
    are_inputs(&parts.inputs) && are_services(parts.inputs.len(), &parts.services)
}

/// The streams of a plan where each number and each count is in its range.
fn find_ranged_streams(parts: &Parts) -> Option<ArrayVec<StreamRow, MAX_STREAMS>>
    ensures found { IfSome result (λ v. v.items
        ≡ stream_rows_of (map service_parts_value parts.now.services.items)) }
    ensures good { IfSome result (λ _. has_bad_range (parts_value parts.now) ≡ false) }
    ensures bad { IfNone result (has_bad_range (parts_value parts.now) ≡ true) }
{
    if !has_good_top(parts) {
        return None;
    }
    if !has_good_lists(parts) {
        return None;
    }
    let Some(streams) = find_streams(&parts.services) else {
        return None;
    };
    if is_count(MAX_STREAMS, streams.len()) {
        Some(streams)
    } else {
        None
    }
}

/// The streams of a plan without fault, or its fault of the least number.
pub fn judge(parts: &Parts) -> Result<ArrayVec<StreamRow, MAX_STREAMS>, PlanFault>
    ensures streams { IfOk result (λ v. v.items
        ≡ stream_rows_of (map service_parts_value parts.now.services.items)) }
    ensures faultless { IfOk result (λ _. request_fault_of (parts_value parts.now) ≡ None) }
    ensures fault { IfErr result (λ e. request_fault_of (parts_value parts.now) ≡ Some e) }
{
    let Some(streams) = find_ranged_streams(parts) else {
        return Err(PlanFault::OutOfRange);
    };
    if has_service_twice(&parts.services) {
        return Err(PlanFault::ServiceTaken);
    }
    if has_pid_twice(streams.as_slice(), &parts.services) {
        return Err(PlanFault::PidTaken);
    }
    Ok(streams)
}
