//! What a framer kept, and the piece behind it, read as one.

use std::marker::Model;

/// The bytes that were kept, and the piece that follows them.
#[derive(Drop)]
pub struct Window<'a> {
    kept: &'a [u8],
    piece: &'a [u8],
}

impl<'a> Model for Window<'a> {
    ghost use Rattle.std.specs.Prelude.{ℕ, List, ◌++◌};

    ghost Value = { List ℕ };

    ghost view = { λ w. w.kept.now ++ w.piece.now };
}

impl<'a> Window<'a> {
    ghost use Rattle.std.specs.Prelude.{◌≡◌, ◌+◌, ◌*◌, ◌<◌, ◌≤◌, ◌++◌, length, take, drop, slice_index, ◌==◌, ◌^◌};
    ghost use Rattle.tspkt.specs.Framed.{acquires_sync};

    /// What was kept, and then the piece.
    pub fn new(kept: &'a [u8], piece: &'a [u8]) -> Window<'a>
        ensures { result ≡ kept.now ++ piece.now }
    {
        Window { kept, piece }
    }

    /// How many bytes there are.
    pub fn len(&self) -> usize
        requires { length self.now < 2 ^ 64 }
        ensures { result ≡ length self.now }
    {
        self.kept.len() + self.piece.len()
    }

    fn byte(&self, at: usize) -> u8
        requires { at < length self.now }
        ensures { result ≡ slice_index self.now at }
    {
        let count = self.kept.len();
        if at < count {
            self.kept[at]
        } else {
            self.piece[at - count]
        }
    }

    /// Whether the byte is the sync byte.
    pub fn is_sync(&self, at: usize) -> bool
        requires { at < length self.now }
        ensures { result ≡ (slice_index self.now at == 71) }
    {
        self.byte(at) == 0x47
    }

    /// Whether five sync bytes stand from `at` on, a stride apart.
    pub fn acquires_sync(&self, at: usize, stride: usize) -> bool
        requires fits { length self.now < 2 ^ 64 }
        requires inside { at + 4 * stride < length self.now }
        ensures { result ≡ acquires_sync stride (drop at self.now) }
    {
        self.is_sync(at)
            && self.is_sync(at + stride)
            && self.is_sync(at + 2 * stride)
            && self.is_sync(at + 3 * stride)
            && self.is_sync(at + 4 * stride)
    }

    /// Copies the bytes from `at` on.
    pub fn copy(&self, at: usize, out: &mut [u8])
        requires fits { length self.now < 2 ^ 64 }
        requires inside { at + length out.old ≤ length self.now }
        ensures { out.new ≡ take (length out.old) (drop at self.now) }
    {
        let count = self.kept.len();
        if at >= count {
            let start = at - count;
            out.copy_from_slice(&self.piece[start..start + out.len()]);
        } else if at + out.len() <= count {
            out.copy_from_slice(&self.kept[at..at + out.len()]);
        } else {
            let (front, back) = out.split_at_mut(count - at);
            front.copy_from_slice(&self.kept[at..]);
            back.copy_from_slice(&self.piece[..back.len()]);
        }
    }

    /// Copies the 188 bytes from `at` on.
    #[inline(always)]
    pub fn copy_packet(&self, at: usize, out: &mut [u8; 188])
        requires fits { length self.now < 2 ^ 64 }
        requires inside { at + 188 ≤ length self.now }
        ensures { out.new ≡ take 188 (drop at self.now) }
    {
        let count = self.kept.len();
        // Nearly each packet lies whole in the piece.
        if at >= count {
            let Some(bytes) = self.piece[at - count..].first_chunk() else {
                unreachable!()
            };
            *out = *bytes;
        } else {
            self.copy(at, out);
        }
    }
}
