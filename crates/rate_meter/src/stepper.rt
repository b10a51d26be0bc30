//! Finding packets.

use crate::seen::{Seen, seen_at};
use arrayvec::ArrayVec;
use std::marker::Model;
use tspkt::PacketSize;

/// How many of the first bytes of a packet are looked at.
const HEAD: usize = 12;

/// How many good sync bytes in a row acquire sync.
const IN_SYNC: u8 = 5;

/// Finds the packets of a stream that comes in pieces, by their sync bytes: five good ones in a row acquire sync, and two bad ones
/// in a row lose it. It looks at the first 12 bytes of each packet alone.
#[derive(Drop)]
pub struct Stepper {
    size: PacketSize,
    position: u64,
    skip: usize,
    head: ArrayVec<u8, HEAD>,
    good: u8,
}

impl Model for Stepper {
    ghost use Rattle.std.specs.Prelude.{length};
    ghost use Rattle.rate_meter.specs.Steps.{Step, IsStep};

    ghost Value = { Step };

    ghost view = { λ s. record { size = s.size; position = s.position; skip = s.skip; head = s.head.items; good = s.good } };

    ghost invariant = { λ s. IsStep s.skip (length s.head.items) s.good };
}

impl Stepper {
    ghost use Rattle.std.specs.Prelude.{◌≡◌, ◌+◌, ◌-◌, ◌<◌, ◌≤◌, ◌++◌, [], List, take, length, min};
    ghost use Rattle.std.specs.Option.{option_to_list};
    ghost use Rattle.tspkt.specs.declared.framer.TheConstants.{MAX_LIMIT};
    ghost use Rattle.rate_meter.specs.declared.seen.Seen.{Seen as SeenPacket};
    ghost use Rattle.rate_meter.specs.Steps.{first_step, passed, missed, gathered, headed, pushed, told, told_at_once, shown};

    /// One that stands at the first byte of a stream of this size.
    pub fn new(size: PacketSize) -> Stepper
        ensures { result ≡ first_step size }
    {
        Stepper {
            size,
            position: 0,
            skip: 0,
            head: ArrayVec::new(),
            good: 0,
        }
    }

    /// The position of the byte that comes next.
    pub fn position(&self) -> u64
        ensures { result ≡ self.now.position }
    {
        self.position
    }

    /// Passes over bytes, as many as there are before the next packet.
    fn pass(&mut self, count: usize) -> usize
        requires position { self.old.position + count ≤ MAX_LIMIT }
        ensures count { result ≡ min self.old.skip count }
        ensures passed { self.new ≡ passed result self.old }
    {
        let passed = self.skip.min(count);
        self.skip -= passed;
        self.position += passed as u64;
        passed
    }

    /// Passes over a bad sync byte.
    fn miss(&mut self)
        requires position { self.old.position < MAX_LIMIT }
        ensures { self.new ≡ missed self.old }
    {
        self.position += 1;
        self.head.clear();
        if self.good == IN_SYNC {
            self.skip = self.size.stride() - 1;
            self.good -= 1;
        } else {
            self.skip = 0;
            self.good = 0;
        }
    }

    /// Takes the twelfth byte of a packet, and answers the packet, if it is in sync.
    #[tactic(auto, unfolding(crate::specs::Steps::pushed, crate::specs::Steps::told))]
    fn finish(&mut self, byte: u8) -> Option<Seen>
        requires position { self.old.position < MAX_LIMIT }
        requires head { length self.old.head ≡ 11 }
        ensures pushed { self.new ≡ pushed byte self.old }
        ensures told { result ≡ told byte self.old }
        ensures position { self.new.position ≡ self.old.position + 1 }
    {
        let start = self.position.saturating_sub(HEAD as u64 - 1);
        let mut seen = None;
        self.head.push(byte);
        if self.good >= IN_SYNC - 1 {
            seen = seen_at(start, self.head.as_slice());
        }
        self.position += 1;
        self.skip = self.size.stride() - HEAD;
        self.head.clear();
        self.good = IN_SYNC.min(self.good + 1);
        seen
    }

    /// Takes a byte of the first 12 of a packet, and answers the packet whose twelfth it is.
    #[tactic(auto, unfolding(crate::specs::Steps::pushed, crate::specs::Steps::told))]
    fn push(&mut self, byte: u8) -> Option<Seen>
        requires position { self.old.position < MAX_LIMIT }
        requires skip { self.old.skip ≡ 0 }
        ensures pushed { self.new ≡ pushed byte self.old }
        ensures told { result ≡ told byte self.old }
        ensures position { self.new.position ≡ self.old.position + 1 }
    {
        if self.head.is_empty() && byte != 0x47 {
            self.miss();
            return None;
        }
        if self.head.len() == HEAD - 1 {
            return self.finish(byte);
        }
        self.head.push(byte);
        self.position += 1;
        None
    }

    /// Takes bytes of a packet that has begun, up to its eleventh, and answers how many.
    fn gather(&mut self, piece: &[u8]) -> usize
        requires position { self.old.position + length piece.now ≤ MAX_LIMIT }
        ensures within { result ≤ length piece.now }
        ensures begun { 0 < result → 0 < length self.old.head }
        ensures room { 0 < result → length self.old.head + result ≤ 11 }
        ensures gathered { self.new ≡ gathered (take result piece.now) self.old }
        ensures none { result ≡ 0 → self.new ≡ self.old }
    {
        if self.head.is_empty() {
            return 0;
        }
        let count = (HEAD - 1 - self.head.len()).min(piece.len());
        self.head.try_extend_from_slice(&piece[..count]).unwrap();
        self.position += count as u64;
        count
    }

    /// Takes the first 12 bytes of a packet at once, and answers the packet, if it is in sync.
    #[inline(always)]
    fn take_head(&mut self, head: &[u8]) -> Option<Seen>
        requires position { self.old.position + 12 ≤ MAX_LIMIT }
        requires head { length head.now ≡ 12 }
        requires empty { self.old.head ≡ [] }
        ensures headed { self.new ≡ headed self.old }
        ensures told { result ≡ told_at_once head.now self.old }
    {
        let start = self.position;
        let is_told = self.good >= IN_SYNC - 1;
        self.position += HEAD as u64;
        self.skip = self.size.stride() - HEAD;
        self.good = IN_SYNC.min(self.good + 1);
        if is_told { seen_at(start, head) } else { None }
    }

    /// Takes bytes from the front of a piece, and answers how many, and the packet that they tell, if they tell one.
    #[inline(always)]
    pub fn step(&mut self, piece: &[u8]) -> (usize, Option<Seen>)
        requires some { 0 < length piece.now }
        requires position { self.old.position + length piece.now ≤ MAX_LIMIT }
        ensures some { 0 < result.0 }
        ensures within { result.0 ≤ length piece.now }
        ensures position { self.new.position ≡ self.old.position + result.0 }
        ensures shown { (seen : List SeenPacket) → shown (record { step = self.old; seen = seen }) (take result.0 piece.now)
            ≡ record { step = self.new; seen = option_to_list result.1 ++ seen } }
    {
        if self.skip > 0 {
            return (self.pass(piece.len()), None);
        }
        if self.head.is_empty() && piece.len() >= HEAD && piece[0] == 0x47 {
            return (HEAD, self.take_head(&piece[..HEAD]));
        }
        let gathered = self.gather(piece);
        if gathered > 0 {
            return (gathered, None);
        }
        (1, self.push(piece[0]))
    }
}
