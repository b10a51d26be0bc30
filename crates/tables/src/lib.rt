//! The tables of a transport stream: PAT and PMT (ISO/IEC 13818-1, 2.4.4), SDT and NIT (EN 300 468, 5.2).
#![tactic(auto)]

mod ca_descriptor;
mod descriptor;
mod descriptor_loop;
mod descriptors;
mod header;
mod network_name_descriptor;
mod nit;
mod nit_row;
mod pat;
mod pat_row;
mod pmt;
mod pmt_row;
mod row;
mod rows;
mod sdt;
mod sdt_row;
mod section_reader;
mod service_descriptor;
mod service_list_descriptor;
mod service_list_entry;
mod table_fault;
mod table_run;
mod table_section;
mod write_fault;

pub use ca_descriptor::has_ca_descriptor;
pub use descriptor::Descriptor;
pub use descriptor_loop::DescriptorLoop;
pub use descriptors::are_whole;
pub use header::Header;
pub use network_name_descriptor::push_network_name;
pub use nit::Nit;
pub use nit_row::NitRow;
pub use pat::Pat;
pub use pat_row::PatRow;
pub use pmt::Pmt;
pub use pmt_row::PmtRow;
pub use sdt::{MAX_SDT_ROWS_LENGTH, Sdt};
pub use sdt_row::SdtRow;
pub use section_reader::SectionReader;
pub use service_descriptor::ServiceDescriptor;
pub use service_list_descriptor::push_service_list;
pub use service_list_entry::ServiceListEntry;
pub use table_fault::TableFault;
pub use table_run::TableRun;
pub use write_fault::WriteFault;
