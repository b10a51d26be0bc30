//! Sections of tables (ISO/IEC 13818-1, 2.4.4): their CRC, and their way out of packets and into them.
#![tactic(auto)]

mod assembler;
mod assembly;
mod collected;
mod packets;
mod reading;
mod register;
mod table;
mod told;

pub use assembler::Assembler;
pub use assembly::assemble;
pub use packets::packets_of;
pub use reading::MAX_SECTION_LENGTH;
pub use register::crc;
pub use told::Told;
