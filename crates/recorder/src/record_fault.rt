//! Why a recorder goes no further.

use std::alloc::AllocError;

/// Why a recorder goes no further.
#[derive(Clone, Copy, Debug, PartialEq, Eq)]
pub enum RecordFault {
    /// A write failed, in this call or an earlier one.
    Write,
    /// There is no memory for what is read, or the feed is closed and lets no reader in.
    Memory,
}

impl From<AllocError> for RecordFault {
    ghost use Rattle.std.specs.Prelude.{◌≡◌};
    ghost use Rattle.recorder.specs.declared.record_fault.RecordFault.TheVariants.{Memory};

    ghost from_gives = { λ _ e. e ≡ Memory };

    fn from(_e: AllocError) -> RecordFault {
        RecordFault::Memory
    }
}
