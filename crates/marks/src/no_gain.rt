//! What a caller has of a step of a sequence.

use crate::entry::Entry;
use logbook::Gain;

/// Nothing beside what the step tells.
pub(crate) struct NoGain;

impl Gain<Entry, u64> for NoGain {
    ghost use base.Fml.{ftrue};

    ghost after = { λ names about answer. ftrue };
}
