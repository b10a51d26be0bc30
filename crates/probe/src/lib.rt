//! What is in a transport stream, by its packets.
//!
//! A `ProgramSearch` finds the programs of the PAT. A `Probe` then reads the packets from the first one on, one at a time, and
//! keeps what is asked of them: the PMTs and the SDT, which other tables there are, how many packets each PID has, the PCRs, and what
//! is wrong with packets and sections, with its first place. Its `Survey` says it all at the end, with the rates that a `RateMeter`
//! measured.
//!
//! A `Codec` names what an elementary stream carries, `language_of` its language, and a `DvbText` prints the name of a service.
//! Nothing here knows of plans or of files.
#![tactic(auto)]

mod codec;
mod dvb_text;
mod language;
mod occurrences;
mod pcr_step;
mod pcr_watch;
mod pcr_watches;
mod pid_count;
mod pid_counts;
mod pid_survey;
mod place;
mod probe;
mod program_search;
mod references;
mod section_watch;
mod section_watches;
mod sighting;
mod survey;
mod surveying;
mod table_kind;

pub use codec::{Codec, codec_of};
pub use dvb_text::DvbText;
pub use language::language_of;
pub use occurrences::Occurrences;
pub use pid_survey::PidSurvey;
pub use place::Place;
pub use probe::Probe;
pub use program_search::ProgramSearch;
pub use survey::Survey;
pub use table_kind::TableKind;
