//! What of an output is kept for a picture, as it is written.

use crate::packet_cut::PacketCut;
use graphs::Record;

/// What of an output is kept for a picture, as it is written.
#[derive(Drop)]
pub(crate) struct PictureWatch {
    record: Record,
    cut: PacketCut,
}

impl PictureWatch {
    /// That of an output of which nothing was written.
    pub fn new(record: Record) -> PictureWatch {
        PictureWatch {
            record,
            cut: PacketCut::new(),
        }
    }

    /// These bytes were written.
    pub fn add(&mut self, bytes: &[u8]) {
        for byte in bytes {
            if let Some(packet) = self.cut.add(*byte) {
                self.record.see(packet);
            }
        }
    }

    /// What was kept.
    pub fn into_record(self) -> Record {
        self.record
    }
}
