//! An example: a plan, the tables and packets of its input, and the stored first run over them.
//!
//! A slot and a packet of an input take 27,000 ticks; tables go out in the slots 0, 2 and 4, 100, 102 and 104, and so on.
#![tactic(auto)]

mod example_plan;
mod first_run;
mod input_packets;
mod plan_text;
mod second_plan;

pub use example_plan::{PLAN, add_section, open, planned, tables};
pub use first_run::first_slots;
pub use input_packets::{add_packets, eight_packets, packets};
pub use plan_text::{plan_of, plan_with_rings, service, settings, settings_with_rings};
pub use second_plan::{plan_a_period, switched};
