//! What is published.

ghost use Rattle.feed.specs.Versions.{content_after};

use crate::append::Append;
use crate::content::Content;
use left_right::Absorb;
use marks::Mark;
use schedule::Schedule;
use std::alloc::AllocError;
use std::snapshot::Snapshot;
use tspkt::Packet;

/// The packets that were published, the mark of them, and the schedule, which takes no bytes. It is generic in two of them only
/// so that it is found that it may be sent to another thread: of a struct that names both no proof of it is found.
#[derive(Drop)]
pub struct VersionOf<P, M> {
    pub schedule: P,
    pub packets: Vec<Packet>,
    pub mark: M,
}

/// A version of a feed.
pub type Version = VersionOf<Snapshot<Schedule>, Mark>;

impl Absorb<Append> for Version {
    type State = Content;

    ghost state = { λ v. record { schedule = v.schedule.value; packets = v.packets.items; mark = v.mark } };

    ghost applied = { content_after };

    fn absorb_first(&mut self, operation: &Append, _other: &Version) -> Result<(), AllocError> {
        match self.packets.push(operation.packet) {
            Ok(()) => {
                self.mark = operation.mark.copy();
                Ok(())
            }
            Err(_) => Err(AllocError),
        }
    }
}
