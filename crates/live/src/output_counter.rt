//! Packets and faults of an output, counted as it is written.

use crate::packet_cut::PacketCut;
use crate::run_board::RunBoard;
use analyse::{Analyser, Fault};
use schedule::Schedule;
use std::alloc::{AllocError, Global};
use tspkt::Packet;

/// A stream of the output, and the input that it is taken from.
#[derive(Clone, Copy)]
struct Origin {
    output_pid: u16,
    input: usize,
}

/// Counts the packets of a multiplex by the inputs that they are taken from, and its faults.
#[derive(Drop)]
pub(crate) struct OutputCounter {
    origins: Vec<Origin>,
    analyser: Analyser,
    told: Vec<Fault>,
    cut: PacketCut,
}

impl OutputCounter {
    /// That of a schedule's multiplex, of which nothing was written.
    pub fn new(alloc: Global, schedule: &Schedule) -> Result<OutputCounter, AllocError> {
        let plan = schedule.plan(0);
        let mut origins = Vec::new(alloc);
        for stream in schedule.streams() {
            origins.push(Origin {
                output_pid: stream.output_pid,
                input: stream.input,
            })?;
        }
        Ok(OutputCounter {
            origins,
            analyser: Analyser::new(alloc, plan.rate(), plan.request().watch()),
            told: Vec::new(alloc),
            cut: PacketCut::new(),
        })
    }

    /// Counts on a board what is written, each packet once it is whole. Behind want of memory no faults are counted.
    pub fn count(&mut self, bytes: &[u8], board: &RunBoard) {
        for byte in bytes {
            if let Some(packet) = self.cut.add(*byte) {
                let packet = *packet;
                self.count_packet(&packet, board);
            }
        }
    }

    /// Counts a packet that was written.
    fn count_packet(&mut self, packet: &[u8; 188], board: &RunBoard) {
        let pid = Packet::pid_in(packet);
        for origin in &self.origins {
            if origin.output_pid == pid
                && let Some(place) = board.inputs().get(origin.input)
            {
                place.add_sent();
            }
        }
        self.told.clear();
        if self.analyser.push(packet, &mut self.told).is_ok() {
            board.add_faults(self.told.len());
        }
    }
}
