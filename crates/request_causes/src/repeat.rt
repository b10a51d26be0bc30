//! A number that is there twice.

ghost use Rattle.std.specs.Prelude.{◌≡◌, ◌==◌, IfSome, is_some};
ghost use Rattle.std.specs.List.{position_from};
ghost use Rattle.std.specs.Ordering.{int_eq};
ghost use Rattle.request.specs.Request.{has_repeat};
ghost use Rattle.request_causes.specs.Causes.{AreBoth};

/// A number that stands at two places of a list.
#[derive(Clone, Copy)]
pub struct Repeat {
    /// The first place, from 0.
    pub first: usize,
    /// The second.
    pub second: usize,
    /// The number.
    pub number: i64,
}

/// The first place of a number.
fn place_of(numbers: &[i64], number: &i64) -> Option<usize>
    ensures { result ≡ position_from (int_eq number.now) 0 numbers.now }
{
    numbers.iter().position(|other| *number == *other)
}

/// The first number that is there twice, with its first two places.
pub fn find_repeat(numbers: &[i64]) -> Option<Repeat>
    ensures both { IfSome result (λ r. AreBoth numbers.now r.first r.second r.number) }
    ensures some { is_some result ≡ has_repeat numbers.now }
{
    for (first, number) in numbers.iter().enumerate() {
        if let Some(behind) = place_of(&numbers[first + 1..], number) {
            return Some(Repeat {
                first,
                second: first + 1 + behind,
                number: *number,
            });
        }
    }
    None
}
