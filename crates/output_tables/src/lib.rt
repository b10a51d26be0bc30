//! The tables of the output: PAT, PMTs, SDT and NIT, their sections and the packets that they take, made of the chosen
//! services.
#![tactic(auto)]

mod copied_descriptors;
mod counts;
mod mapped_pid;
mod output_header;
mod output_nit;
mod output_pat;
mod output_pmt;
mod output_sdt;
mod output_section;
mod output_sections;
mod row_group;
mod table_packets;
mod table_set;
mod too_large;

pub use counts::{fast_count, slow_count};
pub use table_set::TableSet;
pub use too_large::is_too_large;
