//! A service of a plan, as a document has it.

use plan::Plan;
use serde::Serialize;
use std::alloc::{AllocError, Global};

/// A service of a plan, as a document has it.
#[derive(Drop, Serialize)]
pub(crate) struct ServiceDocument {
    service: u16,
    pmt: u16,
}

impl ServiceDocument {
    /// Those of a plan. `Err` is want of memory.
    pub fn all_of(alloc: Global, plan: &Plan) -> Result<Vec<ServiceDocument>, AllocError> {
        let mut services = Vec::new(alloc);
        for service in plan.services() {
            services.push(ServiceDocument {
                service: service.service,
                pmt: service.pmt,
            })?;
        }
        Ok(services)
    }
}
