//! An end of a feed that refuses as one does that finds no memory.

ghost use Rattle.std.specs.Prelude.{◌≡◌};

use feed::PublishingEnd;
use marks::Mark;
use std::alloc::AllocError;
use std::sync::Wait;
use tspkt::Packet;

/// Refuses the first so many appends and the first so many publishes, and else does as its end.
pub struct RefusingEnd<E: PublishingEnd> {
    pub end: E,
    pub appends: u64,
    pub publishes: u64,
}

impl<E: PublishingEnd> PublishingEnd for RefusingEnd<E> {
    ghost feed = { λ r. E.feed r.end };

    ghost schedule = { λ r. E.schedule r.end };

    ghost published = { λ r. E.published r.end };

    ghost pending = { λ r. E.pending r.end };

    ghost is_marked = { λ r. E.is_marked r.end };

    fn append(&mut self, packet: Packet, mark: Mark) -> bool {
        if self.appends > 0 {
            self.appends -= 1;
            return false;
        }
        self.end.append(packet, mark)
    }

    fn publish<R: Wait>(&mut self, rt: &R) -> Result<(), AllocError> {
        if self.publishes > 0 {
            self.publishes -= 1;
            return Err(AllocError);
        }
        self.end.publish(rt)
    }

    fn mark(&self) -> Mark {
        self.end.mark()
    }

    fn close<R: Wait>(self, rt: &R) {
        let RefusingEnd {
            end,
            appends: _,
            publishes: _,
        } = self;
        end.close(rt);
    }
}
