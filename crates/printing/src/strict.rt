//! The status of a command that is to be relied on.

ghost use Rattle.std.specs.Prelude.{◌≡◌, ◌≢◌, true, false};

/// The status of a strict command that had no fault, and found what isn't as it should be.
const UNSOUND: u8 = 1;

/// The status with which a command ends that would end with this one: a strict one that found what isn't as it should be, and had no
/// fault, ends with 1.
pub fn strict_status(is_strict: bool, is_sound: bool, status: u8) -> u8
    ensures lenient { is_strict ≡ false → result ≡ status }
    ensures sound { is_sound ≡ true → result ≡ status }
    ensures failed { status ≢ 0 → result ≡ status }
    ensures strict { is_strict ≡ true → is_sound ≡ false → status ≡ 0 → result ≡ 1 }
{
    if is_strict && !is_sound && status == 0 {
        UNSOUND
    } else {
        status
    }
}
