//! Where a run ends.

use advice::reached;
use plan::Plan;

/// The bytes of a slot.
const SLOT: u64 = 188;

/// Where a run ends, as far as that is known before.
#[derive(Drop)]
pub struct Goal {
    /// How many bytes each input has; none where that isn't known, as of a pipe.
    lengths: Vec<Option<u64>>,
    /// When the multiplex ends, in milliseconds.
    end: Option<u64>,
}

/// When the last of the inputs of a plan ends, which have so many bytes, in milliseconds; none where that isn't known.
fn last_end(plan: &Plan, lengths: &[Option<u64>]) -> Option<u64> {
    let mut last = 0;
    for (input, length) in plan.inputs().iter().zip(lengths.iter()) {
        let end = reached(input.offset, input.rate, (*length)?);
        last = end.max(last);
    }
    Some(last)
}

impl Goal {
    /// That of a run of this plan, whose inputs have so many bytes, and which has at most so many slots, if it has a limit.
    pub fn of(plan: &Plan, lengths: Vec<Option<u64>>, slots: Option<u64>) -> Goal {
        let most = slots.map(|slots| reached(0, plan.rate(), slots.saturating_mul(SLOT)));
        let end = match (last_end(plan, &lengths), most) {
            (Some(last), Some(most)) => Some(most.min(last)),
            (last, most) => last.or(most),
        };
        Goal { lengths, end }
    }

    /// How many bytes the input with this number has.
    pub(crate) fn length(&self, number: usize) -> Option<u64> {
        *self.lengths.get(number)?
    }

    /// When the multiplex ends, in milliseconds.
    pub(crate) fn end(&self) -> Option<u64> {
        self.end
    }
}
