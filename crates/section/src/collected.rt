//! How bytes for a begun section end.

/// How bytes for a begun section end.
#[derive(Clone, Copy)]
pub enum Collected {
    /// The section goes on.
    Begun,
    /// It is too long.
    TooLong,
    /// So many of the bytes made it whole.
    Whole(usize),
}

impl Collected {
    ghost use Rattle.std.specs.Prelude.{◌≡◌};
    ghost use Rattle.section.specs.Collecting.{is_ended};

    /// Whether the rest of the payload is ignored.
    pub fn is_ended(self) -> bool
        ensures { result ≡ is_ended self }
    {
        match self {
            Collected::TooLong => true,
            Collected::Begun | Collected::Whole(_) => false,
        }
    }
}
