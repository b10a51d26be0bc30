//! A chosen service.

use request::Service;
use tables::{Pmt, SdtRow};

/// A service of the plan with what its input says of it.
#[derive(Clone, Copy)]
pub struct ChosenService<'a> {
    /// What the plan asks for.
    pub service: &'a Service,
    /// The input's PMT of the program.
    pub pmt: &'a Pmt,
    /// The first row of the input's SDT with the program's number as service_id.
    pub row: &'a SdtRow,
    /// service_type of the first service descriptor in the row whose lengths fill it, 8 bits.
    pub service_type: u8,
}
