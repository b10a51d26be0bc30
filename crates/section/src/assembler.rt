//! An assembler of the sections of one PID (ISO/IEC 13818-1, 2.4.4).

ghost use Rattle.std.specs.Prelude.{◌≡◌, Bool};
ghost use Rattle.section.specs.Assembled.{is_repeat, is_discontinuous};

use crate::reading::{give_up, read_payload};
use crate::told::Told;
use arrayvec::ArrayVec;
use std::alloc::AllocError;
use std::marker::Model;
use tspkt::Packet;

/// Whether the packet is the last one sent again.
fn is_repeat(last: &Option<Packet>, packet: &Packet) -> bool
    ensures { result ≡ is_repeat last.now packet.now }
{
    match last {
        Some(last) => last.is_copy(packet),
        None => false,
    }
}

/// Whether the packet's counter isn't the one behind the last.
fn is_discontinuous(last: &Option<Packet>, packet: &Packet) -> bool
    ensures { result ≡ is_discontinuous last.now packet.now }
{
    match last {
        Some(last) => packet.counter() != (last.counter() + 1) % 16,
        None => false,
    }
}

/// Makes the sections of one PID out of its packets, in the order in which they come
/// (ISO/IEC 13818-1, 2.4.4; what it tells of damage is profile).
///
/// It keeps at most one section that was begun, and the last packet with a payload. A packet that
/// is sent again is skipped; behind a counter that doesn't follow, a begun section is cut.
#[derive(Drop)]
pub struct Assembler {
    begun: ArrayVec<u8, 1024>,
    last: Option<Packet>,
    skipped: bool,
}

impl Model for Assembler {
    ghost use Rattle.section.specs.Assembled.{AssemblerState};
    ghost use Rattle.section.specs.Collecting.{IsBegun};

    ghost Value = { AssemblerState };

    ghost view = { λ a. record { begun = a.begun.items; last = a.last; skipped = a.skipped } };

    ghost invariant = { λ a. IsBegun a.begun.items };
}

impl Assembler {
    ghost use Rattle.std.specs.Prelude.{◌≡◌, ◌+◌, ◌<◌, ◌≤◌, ◌==◌, ◌++◌, not, length, OnOk, OnErr, vec_len, vec_capacity};
    ghost use Rattle.section.specs.Assembled.{fresh, packet_told};

    /// An assembler that has seen no packet.
    pub fn new() -> Assembler
        ensures { result ≡ fresh }
    {
        Assembler {
            begun: ArrayVec::new(),
            last: None,
            skipped: false,
        }
    }

    /// Whether a section was begun whose end has yet to come.
    pub fn has_begun(&self) -> bool
        ensures { result ≡ not (length self.now.begun == 0) }
    {
        !self.begun.is_empty()
    }

    /// Reads the next packet of the PID, and appends what it tells to `out`.
    ///
    /// It asks for room for 64 items first. A refusal changes nothing, and the packet may be
    /// given again; with that room nothing else can fail. Room that `out` has stays.
    #[tactic(auto, unfolding(crate::specs::Assembled::packet_told))]
    pub fn push(&mut self, packet: &Packet, out: &mut Vec<Told>) -> Result<(), AllocError>
        ensures state { OnOk result (self.new ≡ (packet_told self.old packet.now).state) }
        ensures told { OnOk result (
            out.new.items ≡ out.old.items ++ (packet_told self.old packet.now).told) }
        ensures err { OnErr result ((self.new ≡ self.old) × (out.new.items ≡ out.old.items)) }
        ensures full { OnErr result (vec_capacity out.old < vec_len out.old + 64) }
        ensures capacity { vec_capacity out.old ≤ vec_capacity out.new }
    {
        // At most two cuts, or one and the end of a section, and then 61 sections of three bytes.
        out.reserve(64)?;
        if !packet.has_payload() {
            return Ok(());
        }
        if !self.skipped && is_repeat(&self.last, packet) {
            self.skipped = true;
            self.last = Some(*packet);
            return Ok(());
        }
        if is_discontinuous(&self.last, packet) {
            give_up(&mut self.begun, out);
        }
        read_payload(&mut self.begun, packet.unit_start(), packet.payload(), out);
        self.skipped = false;
        self.last = Some(*packet);
        Ok(())
    }
}
