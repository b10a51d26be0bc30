//! What a port promises the end of its ring.

ghost use Rattle.std.specs.Prelude.{◌≡◌};
ghost use Rattle.port.specs.Arrivals.{marks_of};

use crate::carried::Carried;
use rtrb::Protocol;

/// Nothing is sent behind an end mark. The end of the ring knows this of all that comes, with no test when it runs.
#[derive(Clone, Copy)]
pub(crate) struct NothingAfterEnd;

impl Protocol<Carried> for NothingAfterEnd {
    ghost allows = { λ before _. marks_of before ≡ 0 };
}
