//! The feed of what was sent: one writer publishes packets, and readers read them beside it.
//!
//! A feed is opened for a schedule and for so many readers. Its `FeedWriter` appends packets, which readers don't see yet, and
//! publishes them: what is published only grows, and is an emission of the schedule each time. Each `FeedReader` reads all that is
//! published, each packet once and in order, with no lock and without waiting, and copies it into room of its own. A mark says
//! how far the feed went when it was made: a reader that learns it reads no less from then on. The mark of `seal` is the last:
//! nothing is published after it.
//!
//! What is published stands twice (crate `left_right`): readers read one copy while the writer brings the other one up to date.
//! The order of the packets, and the marks, stand beside it (crate `marks`).
//!
//! A writer and a reader are generic in their ends of `left_right`, of which they know what `PublishingEnd` and `ReadingEnd`
//! say: so they can be sent to other threads, and what holds a writer can stand in a `Mutex`.
#![tactic(auto)]

mod append;
mod content;
mod feed_reader;
mod feed_rule;
mod feed_writer;
mod informed;
mod joining;
mod knowledge;
pub mod laws;
mod not_let_in;
mod opening;
mod publisher;
mod publishing;
mod publishing_end;
mod reader_end;
mod reading;
mod reading_end;
mod version;

pub use append::Append;
pub use feed_reader::FeedReader;
pub use feed_rule::FeedRule;
pub use feed_writer::FeedWriter;
pub use informed::Informed;
pub use knowledge::Knowledge;
pub use not_let_in::NotLetIn;
pub use opening::open;
pub use publisher::Publisher;
pub use publishing_end::PublishingEnd;
pub use reader_end::ReaderEnd;
pub use reading_end::ReadingEnd;
pub use version::{Version, VersionOf};
