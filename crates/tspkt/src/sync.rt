//! Sync bytes in step.

ghost use Rattle.std.specs.Prelude.{◌≡◌, ◌≤◌};
ghost use Rattle.tspkt.specs.Framed.{acquires_sync};

use crate::window::Window;

/// Whether five sync bytes stand so many bytes apart, up to 208, the first of them here (ISO/IEC 13818-1, 2.4.3.3; ETSI TR 101 290,
/// 5.2.1).
pub fn acquires_sync(bytes: &[u8], stride: usize) -> bool
    requires { stride ≤ 208 }
    ensures { result ≡ acquires_sync stride bytes.now }
{
    bytes.len() > 4 * stride && Window::new(&[], bytes).acquires_sync(0, stride)
}
