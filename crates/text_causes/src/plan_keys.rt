//! The keys of a plan's text, as `serde` looks for them.

use serde::Deserialize;

/// The keys at the top of a plan.
#[derive(Drop, Deserialize)]
#[serde(deny_unknown_fields)]
pub(crate) struct PlanKeys {
    pub rate: i64,
    pub period: i64,
    pub watch: i64,
    pub version: i64,
    pub queue: i64,
    pub ring: i64,
    pub transport_stream_id: i64,
    pub original_network_id: i64,
    pub network_id: i64,
    pub network_name: String,
    pub transport_descriptors: String,
    pub input: Vec<InputKeys>,
    pub service: Vec<ServiceKeys>,
}

/// The keys of an input.
#[derive(Drop, Deserialize)]
#[serde(deny_unknown_fields)]
pub(crate) struct InputKeys {
    pub file: String,
    pub rate: i64,
    pub offset: i64,
    pub size: Option<i64>,
}

/// The keys of a service.
#[derive(Drop, Deserialize)]
#[serde(deny_unknown_fields)]
pub(crate) struct ServiceKeys {
    pub input: i64,
    pub program: i64,
    pub service: i64,
    pub pmt: i64,
    pub stream: Vec<StreamKeys>,
}

/// The keys of a stream.
#[derive(Drop, Deserialize)]
#[serde(deny_unknown_fields)]
pub(crate) struct StreamKeys {
    pub pid: i64,
    pub out: i64,
    pub leak: i64,
}
