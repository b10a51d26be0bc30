//! The selection of a plan's services from what was found in its inputs, with the faults of what
//! was found.
#![tactic(auto)]

mod choice;
mod chosen_service;
mod chosen_services;
mod faults;
mod seeking;

pub use choice::choose;
pub use chosen_service::ChosenService;
pub use chosen_services::ChosenServices;
pub use faults::program_fault;
pub use seeking::seek;
