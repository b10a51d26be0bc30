//! Where a plan is at fault, and what was found there: for each fault of a plan that what was found in its inputs has, one
//! place to which it applies, in numbers and in words.
#![tactic(auto)]

mod ca_place;
mod causes;
mod choice_causes;
mod large_table;
mod missing_stream;
mod plan_cause;
mod program_causes;
mod row_lack;
mod service_numbers;
mod stream_tests;
mod table_causes;

pub use ca_place::CaPlace;
pub use causes::cause_of;
pub use large_table::LargeTable;
pub use missing_stream::MissingStream;
pub use plan_cause::PlanCause;
pub use row_lack::RowLack;
pub use service_numbers::ServiceNumbers;
