//! The measuring of inputs while they are read: a source that shows its bytes to a rate meter, and what is said of the rates, in lines
//! on standard error behind all others.
#![tactic(auto)]

mod metered;
mod rate_lines;
mod reading_on;

pub use metered::{Metered, with_meters};
pub use rate_lines::{
    is_input_wrong, is_too_much, print_leaks_of, print_measured, print_other_rate,
    print_wrong_rates, sum_of,
};
pub use reading_on::read_on;
