//! How long a run goes on.

ghost use Rattle.std.specs.Prelude.{◌≡◌};
ghost use Rattle.words.specs.Ranges.{IsAllowedLength, most_slots_of};

/// How long a run goes on, if its inputs don't end before.
#[derive(Clone, Copy, Debug, PartialEq, Eq)]
pub enum RunLength {
    /// At most so many slots, 1 to 1,000,000, over inputs of up to 16,777,216 packets.
    Slots(u64),
    /// Until its inputs end: 2^40 slots, a week and more at every rate, over inputs of up to 2^47 bytes.
    All,
}

/// The most slots of a run of this length.
pub fn most_slots(length: RunLength) -> u64
    requires { IsAllowedLength length }
    ensures { result ≡ most_slots_of length }
{
    match length {
        RunLength::Slots(slots) => slots,
        RunLength::All => 1 << 40,
    }
}
