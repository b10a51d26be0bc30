//! Reading a source for its rate alone.

use reading::Source;
use std::alloc::Global;

/// How many bytes are read at once.
const PIECE: usize = 1 << 16;

/// Reads a source on, at most so many pieces of 65,536 bytes, to its end or a failure. Without memory for a piece nothing is read.
pub fn read_on<R: Source>(alloc: Global, source: &mut R, pieces: usize) {
    let Ok(mut piece) = vec![in alloc; 0; PIECE] else {
        return;
    };
    for _ in 0..pieces {
        match source.read(piece.as_mut_slice()) {
            Ok(0) | Err(_) => return,
            Ok(_) => {}
        }
    }
}
