//! A digest of what is written.

use std::io;
use std::io::Write;

/// What the words of a packet are multiplied by, each by its own odd number.
const FACTORS: [u64; 24] = [
    0xB4FB_DAAE_CA27_6A15,
    0xE297_1EB6_D7A5_DAED,
    0x43FC_C28E_38AC_B887,
    0x00F6_5319_EA32_AB2D,
    0x1200_6CB0_3DCD_EC1B,
    0x44D5_1D38_B0B8_2FD5,
    0x4383_DAE2_644F_0F51,
    0x59EA_AEEF_E71D_131F,
    0x4409_A11E_4CA2_9575,
    0x1D61_E63D_FB73_B049,
    0x0688_E9C4_1B93_93AF,
    0x823D_2C39_B179_82D3,
    0x7FE1_DA94_B7D8_1581,
    0x5806_2618_7950_D283,
    0x3F13_B008_1C8B_9AF7,
    0xD3A6_D5FE_4391_594D,
    0x0A34_5C31_D19A_883D,
    0x66B9_1EBA_5021_8B83,
    0x8262_F390_348A_20B3,
    0xAB09_A999_79AC_40B3,
    0xADEB_D4BC_E333_EFB1,
    0x12C8_CC0B_97BB_B28D,
    0x0C66_ACA3_32E5_68E9,
    0x2D41_511F_EE38_BC0F,
];

/// A digest of bytes, which doesn't depend on how they come in pieces, and how many there are. It keeps none of the bytes but
/// those of a piece of 188 that isn't whole yet.
#[derive(Clone, Copy)]
pub struct Digest {
    hash: u64,
    bytes: u64,
    piece: [u8; 188],
    filled: usize,
}

/// The sum of the words of a piece, each multiplied by its factor.
fn sum_of(piece: &[u8; 188]) -> u64 {
    let (words, last) = piece.as_chunks::<8>();
    let mut sum = 0u64;
    for (word, factor) in words.iter().zip(FACTORS.iter()) {
        sum = sum.wrapping_add(u64::from_le_bytes(*word).wrapping_mul(*factor));
    }
    match last.first_chunk::<4>() {
        Some(half) => sum.wrapping_add(u64::from(u32::from_le_bytes(*half)).wrapping_mul(
            FACTORS[23],
        )),
        None => sum,
    }
}

impl Digest {
    /// Of no bytes.
    pub fn new() -> Digest {
        Digest {
            hash: 0,
            bytes: 0,
            piece: [0; 188],
            filled: 0,
        }
    }

    /// How many bytes there are.
    pub fn bytes(&self) -> u64 {
        self.bytes
    }

    /// The digest of the bytes.
    pub fn value(&self) -> u64 {
        let mut rest = [0; 188];
        for (to, from) in rest.iter_mut().zip(self.piece.iter().take(self.filled)) {
            *to = *from;
        }
        let mut last = *self;
        last.fold(&rest);
        let mixed = (last.hash ^ last.bytes).wrapping_mul(FACTORS[0]);
        mixed ^ (mixed >> 32)
    }

    /// Adds a whole piece.
    fn fold(&mut self, piece: &[u8; 188]) {
        let turned = self.hash.rotate_left(29).wrapping_mul(FACTORS[23]);
        self.hash = turned.wrapping_add(sum_of(piece));
    }

    /// Adds bytes to the piece that isn't whole yet, and answers how many of them.
    fn fill(&mut self, bytes: &[u8]) -> usize {
        let mut count = 0usize;
        for (to, from) in self.piece.iter_mut().skip(self.filled).zip(bytes.iter()) {
            *to = *from;
            count = count.saturating_add(1);
        }
        self.filled = self.filled.saturating_add(count);
        if self.filled >= 188 {
            self.filled = 0;
            let piece = self.piece;
            self.fold(&piece);
        }
        count
    }

    /// Adds bytes.
    pub fn add(&mut self, bytes: &[u8]) {
        self.bytes = self.bytes.wrapping_add(bytes.len() as u64);
        let mut rest = bytes;
        if self.filled > 0 {
            let count = self.fill(rest);
            rest = rest.get(count..).unwrap_or(&[]);
        }
        let (pieces, last) = rest.as_chunks::<188>();
        for piece in pieces {
            self.fold(piece);
        }
        if !last.is_empty() {
            let _ = self.fill(last);
        }
    }
}

impl Write for Digest {
    fn write(&mut self, buf: &[u8]) -> io::Result<usize> {
        self.add(buf);
        Ok(buf.len())
    }

    fn flush(&mut self) -> io::Result<()> {
        Ok(())
    }
}
