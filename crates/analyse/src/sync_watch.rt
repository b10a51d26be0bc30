//! The watch of sync.

ghost use Rattle.std.specs.Prelude.{◌≡◌};
ghost use Rattle.analyse.specs.SyncWatching.{run_behind};

use std::marker::Model;

/// The sync byte (ISO/IEC 13818-1, 2.4.3.3).
const SYNC_BYTE: u8 = 0x47;

/// So many good slots in a row acquire sync (ETSI TR 101 290, 5.2.1).
const ACQUIRED_BY: u8 = 5;

/// What a slot tells of sync.
#[derive(Clone, Copy, Debug, PartialEq, Eq)]
pub struct SyncSeen {
    /// TS_sync_loss: sync stood, and this slot and the one before are both bad.
    pub lost: bool,
    /// Sync_byte_error: the slot doesn't begin with 0x47.
    pub bad: bool,
}

/// How many good slots came last, behind a slot, up to five.
fn run_behind(run: u8, bad: bool) -> u8
    ensures { result ≡ run_behind run bad }
{
    if bad {
        return 0;
    }
    if run < ACQUIRED_BY {
        return run + 1;
    }
    run
}

/// Watches the first byte of each slot of a stream (ETSI TR 101 290, 5.2.1: TS_sync_loss, Sync_byte_error).
#[derive(Drop)]
pub struct SyncWatch {
    run: u8,
    in_sync: bool,
    was_bad: bool,
}

impl Model for SyncWatch {
    ghost use Rattle.analyse.specs.SyncWatching.{SyncState};

    ghost Value = { SyncState };

    ghost view = { λ w. record { run = w.run; in_sync = w.in_sync; was_bad = w.was_bad } };
}

impl SyncWatch {
    ghost use Rattle.std.specs.Prelude.{◌≡◌, [], ◌∷◌, ◌++◌, ℕ, List, length};
    ghost use Rattle.analyse.specs.SyncWatching.{HasSeenSlots, is_lost_by, behind};
    ghost use Rattle.analyse.specs.Quiet.{stands};
    ghost use Rattle.analyse.specs.Slots.{is_sync_lost_at, is_sync_byte_bad_at};

    /// A watch that has seen no slot.
    pub fn new() -> SyncWatch
        ensures { HasSeenSlots result [] }
    {
        SyncWatch {
            run: 0,
            in_sync: false,
            was_bad: false,
        }
    }

    /// Sees the next slot, and tells its faults of sync.
    #[inline(always)]
    pub fn push(&mut self, slot: &[u8; 188]) -> SyncSeen
        ensures seen { (slots : List (List ℕ)) → HasSeenSlots self.old slots
            → HasSeenSlots self.new (slots ++ slot.now ∷ []) }
        ensures lost { (slots : List (List ℕ)) → HasSeenSlots self.old slots
            → result.lost ≡ is_sync_lost_at (slots ++ slot.now ∷ []) (length slots) }
        ensures bad { (slots : List (List ℕ)) → HasSeenSlots self.old slots
            → result.bad ≡ is_sync_byte_bad_at (slots ++ slot.now ∷ []) (length slots) }
    {
        let bad = slot[0] != SYNC_BYTE;
        let lost = self.is_lost_by(bad);
        *self = self.behind(bad);
        SyncSeen { lost, bad }
    }

    /// Whether sync stands, and the slot is good: it tells nothing, and leaves the watch as it is.
    #[inline(always)]
    pub fn stands(&self, slot: &[u8; 188]) -> bool
        ensures { result ≡ stands self.now slot.now }
    {
        slot[0] == SYNC_BYTE && self.run >= ACQUIRED_BY && self.in_sync && !self.was_bad
    }

    /// Whether sync is lost by a slot.
    fn is_lost_by(&self, bad: bool) -> bool
        ensures { result ≡ is_lost_by self.now bad }
    {
        bad && self.was_bad && self.in_sync
    }

    #[tactic(auto, unfolding(crate::specs::SyncWatching::behind))]
    /// What is known behind a slot.
    fn behind(&self, bad: bool) -> SyncWatch
        ensures { result ≡ behind self.now bad }
    {
        let run = run_behind(self.run, bad);
        SyncWatch {
            run,
            in_sync: self.in_sync && !self.is_lost_by(bad) || run >= ACQUIRED_BY,
            was_bad: bad,
        }
    }
}
