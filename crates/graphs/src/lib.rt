//! A picture of a run as an SVG: what of its multiplex each service has over time, how full the transport buffers are, and how long packets
//! waited.
//!
//! A `Record` is shown the slots that go out, and keeps as much of them as a picture needs, however long the run is. `print_picture` draws it.
#![tactic(auto)]

mod bar;
mod bars;
mod canvas;
mod curves;
mod kinds;
mod names;
mod picture;
mod record;
mod shares;
mod times;

pub use bar::Bar;
pub use kinds::Kinds;
pub use picture::print_picture;
pub use record::Record;
