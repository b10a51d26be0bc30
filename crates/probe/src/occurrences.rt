//! How often something comes in a stream, and where first.

use crate::place::Place;

/// How often something comes in a stream, and where first.
#[derive(Clone, Copy, Debug, PartialEq, Eq)]
pub struct Occurrences {
    /// How often, at most 2^64 - 1.
    pub count: u64,
    /// Where it came first; none where it never came.
    pub first: Option<Place>,
}

impl Occurrences {
    ghost use Rattle.std.specs.Prelude.{◌≡◌, if◌then◌else◌};
    ghost use Rattle.probe.specs.Occurring.{never, once_more};

    /// It never came.
    pub(crate) fn new() -> Occurrences
        ensures { result ≡ never }
    {
        Occurrences {
            count: 0,
            first: None,
        }
    }

    /// The same behind a packet at this place, where it came once more or not.
    pub(crate) fn with(self, came: bool, place: Place) -> Occurrences
        ensures { result ≡ (if came then once_more place self else self) }
    {
        if !came {
            return self;
        }
        Occurrences {
            count: self.count.saturating_add(1),
            first: Some(self.first.unwrap_or(place)),
        }
    }
}
