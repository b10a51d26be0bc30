//! What decides which of two packets that wait first goes.

/// The head of a stream's queue, as the choice compares it.
#[derive(Clone, Copy)]
pub(crate) struct Head {
    /// Its time, in ticks of 27 MHz; `u64::MAX` where nothing waits.
    pub time: u64,
    /// The output PID of the stream.
    pub pid: u16,
}
