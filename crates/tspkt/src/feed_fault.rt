//! Why a piece of a stream was not taken.

use std::alloc::{AllocError, AllocFailed};
use thiserror::Error;

/// Why a framer did not take a piece. It is as it was, and told nothing.
#[derive(Clone, Copy, Debug, PartialEq, Eq, Error)]
pub enum FeedFault {
    /// With the piece the stream would pass its limit of bytes.
    #[error("the input passes its limit")]
    TooMuch,
    /// There is no memory for the items.
    #[error("no memory")]
    Memory,
}

impl From<AllocError> for FeedFault {
    ghost use Rattle.std.specs.Prelude.{◌≡◌};
    ghost use Rattle.tspkt.specs.declared.feed_fault.FeedFault.TheVariants.{Memory};

    ghost from_gives = { λ _ e. e ≡ Memory };

    fn from(_e: AllocError) -> FeedFault {
        FeedFault::Memory
    }
}

impl<T: Drop> From<AllocFailed<T>> for FeedFault {
    ghost use Rattle.std.specs.Prelude.{◌≡◌};
    ghost use Rattle.tspkt.specs.declared.feed_fault.FeedFault.TheVariants.{Memory};

    ghost from_gives = { λ _ e. e ≡ Memory };

    fn from(_e: AllocFailed<T>) -> FeedFault {
        FeedFault::Memory
    }
}
