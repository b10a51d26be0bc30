//! How far a measured rate is from a stated one, and parts of a rate.

ghost use Rattle.std.specs.Prelude.{◌≡◌, ◌≤◌};
ghost use Rattle.rate_meter.specs.Deviation.{part_of as part_said, deviation_of as deviation_said, off_by_of};

/// The deviation that is taken for granted, in parts per million.
const GRANTED: u64 = 50;

/// How far a rate is above or below another, in parts per million of the other, rounded to the nearest.
#[derive(Clone, Copy, Debug, PartialEq, Eq)]
pub enum Deviation {
    Above(u64),
    Below(u64),
}

/// The part of a number that so many of so many are, rounded to the nearest.
fn part_of(number: u64, part: u64, whole: u64) -> u64
    requires { 1 ≤ whole }
    ensures { result ≡ part_said number part whole }
{
    let product = u128::from(number) * u128::from(part);
    let rounded = (product + u128::from(whole / 2)) / u128::from(whole);
    rounded.min(u128::from(u64::MAX)) as u64
}

/// How far a measured rate is from the stated one, which is above 0. The rates have one unit.
pub fn deviation_of(measured: u64, stated: u64) -> Deviation
    requires { 1 ≤ stated }
    ensures { result ≡ deviation_said measured stated }
{
    if measured < stated {
        Deviation::Below(part_of(1_000_000, stated - measured, stated))
    } else {
        Deviation::Above(part_of(1_000_000, measured - stated, stated))
    }
}

/// How far a measured rate is from the stated one: none where it is 50 parts per million or less, and of a stated 0.
pub fn off_by(measured: u64, stated: u64) -> Option<Deviation>
    ensures { result ≡ off_by_of measured stated }
{
    if stated == 0 {
        return None;
    }
    let found = deviation_of(measured, stated);
    match found {
        Deviation::Above(parts) | Deviation::Below(parts) if parts > GRANTED => Some(found),
        _ => None,
    }
}

/// The rate of so many of the packets of a stream of this rate, of which there were so many in all, above 0: rounded to the
/// nearest, in the unit of the rate.
pub(crate) fn part_rate(rate: u64, part: u64, whole: u64) -> u64
    requires { 1 ≤ whole }
    ensures { result ≡ part_said rate part whole }
{
    part_of(rate, part, whole)
}
