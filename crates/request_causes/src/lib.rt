//! Where a plan's text is at fault by itself: for each fault of a plan that needs no input to be seen, one place to which it
//! applies, in numbers and in words.
#![tactic(auto)]

mod causes;
mod input_cause;
mod number_key;
mod numbers;
mod pid_cause;
mod pid_causes;
mod placed_row;
mod range_cause;
mod range_causes;
mod ranged_number;
mod repeat;
mod request_cause;
mod row_causes;
mod rows;
mod service_cause;
mod stream_count;

pub use causes::cause_of;
pub use input_cause::InputCause;
pub use number_key::NumberKey;
pub use pid_cause::PidCause;
pub use placed_row::PlacedRow;
pub use range_cause::RangeCause;
pub use ranged_number::RangedNumber;
pub use request_cause::RequestCause;
pub use service_cause::ServiceCause;
