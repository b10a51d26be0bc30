//! What is told of a stream that is framed.

/// What stands at a place of a stream.
#[derive(Clone, Copy, Debug, PartialEq, Eq)]
pub enum Kind {
    /// A packet whose last byte is 0xAA.
    Packet,
    OtherPacket,
    Bad,
    SyncLoss,
    Lost,
}

impl Kind {
    /// Its word.
    pub fn word(self) -> &'static str {
        match self {
            Kind::Packet => "packet",
            Kind::OtherPacket => "another packet",
            Kind::Bad => "bad",
            Kind::SyncLoss => "sync loss",
            Kind::Lost => "lost",
        }
    }
}

/// An item without its bytes: a place, or of lost bytes their number.
#[derive(Clone, Copy, Debug, PartialEq, Eq)]
pub struct Told {
    pub kind: Kind,
    pub number: u64,
}
