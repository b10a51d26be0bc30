//! A made stream.

use crate::lane::Lane;
use crate::packet_maker::PacketMaker;
use crate::pids::Pids;
use crate::place::Place;
use crate::pool::Pool;
use crate::random::Random;
use crate::shape::Shape;
use crate::table_lane::TableLane;
use crate::timetable::second_of;
use std::alloc::{AllocError, Global};
use tspkt::Packet;

/// What fills the null packet.
const FILLING: [u8; 188] = [0xFF; 188];

/// The bits of a header that say that only payload follows it, and that an adaptation field comes first.
const PAYLOAD: u8 = 0x10;

const ADAPTATION_AND_PAYLOAD: u8 = 0x30;

/// How many values a PCR has.
const PCR_MODULUS: u64 = 300 << 33;

/// Makes a stream: the same places each second, with new payload.
#[derive(Drop)]
pub struct StreamMaker {
    rate: u64,
    /// The PCR of the stream's first byte.
    start: u64,
    places: Vec<Place>,
    at: usize,
    /// How many packets came before.
    packets: u64,
    tables: Vec<TableLane>,
    lanes: Vec<Lane>,
    pool: Pool,
    /// Whether the next table gets a wrong bit.
    breaks_table: bool,
}

/// The streams of a shape, with the counters at which they begin.
fn lanes_of(
    alloc: Global,
    shape: Shape,
    pids: Pids,
    random: &mut Random,
) -> Result<Vec<Lane>, AllocError> {
    let mut lanes = Vec::new(alloc);
    for service in 0..shape.services {
        for stream in 0..shape.streams {
            let counter = random.below(16) as u8;
            lanes.push(Lane::new(pids.stream(service, stream), counter))?;
        }
    }
    Ok(lanes)
}

impl StreamMaker {
    /// A stream of this shape and these PIDs, whose tables have these packets.
    pub fn new(
        alloc: Global,
        shape: Shape,
        pids: Pids,
        packets: &[Packet],
        random: &mut Random,
    ) -> Result<StreamMaker, AllocError> {
        let mut tables = Vec::new(alloc);
        for packet in packets {
            tables.push(TableLane::new(packet.bytes()))?;
        }
        Ok(StreamMaker {
            rate: shape.rate,
            start: random.below(PCR_MODULUS),
            places: second_of(alloc, shape, random)?,
            at: 0,
            packets: 0,
            tables,
            lanes: lanes_of(alloc, shape, pids, random)?,
            pool: Pool::new(alloc, random)?,
            breaks_table: false,
        })
    }

    /// The counter of the stream with this number leaves out so many.
    pub fn jump(&mut self, number: usize, by: u8) {
        if let Some(lane) = self.lanes.get_mut(number) {
            lane.jump(by);
        }
    }

    /// The next table gets a wrong bit, and no right CRC_32.
    pub fn break_table(&mut self) {
        self.breaks_table = true;
    }

    fn write_table(&mut self, number: u8, packet: &mut [u8; 188]) {
        if let Some(table) = self.tables.get_mut(usize::from(number)) {
            table.write(packet);
        }
        if self.breaks_table {
            self.breaks_table = false;
            packet[13] ^= 0x04;
        }
    }

    fn write_stream(&mut self, number: u8, control: u8, packet: &mut [u8; 188]) {
        self.pool.fill(packet);
        if let Some(lane) = self.lanes.get_mut(usize::from(number)) {
            let [sync, high, low, last] = lane.header(control);
            packet[0] = sync;
            packet[1] = high;
            packet[2] = low;
            packet[3] = last;
        }
    }

    /// The PCR of the packet that is next, by its byte 10.
    fn pcr(&self) -> u64 {
        let position = self.packets.wrapping_mul(188).wrapping_add(10);
        let ticks = position
            .wrapping_mul(216_000_000)
            .checked_div(self.rate)
            .unwrap_or(0);
        self.start.wrapping_add(ticks) % PCR_MODULUS
    }

    /// Writes an adaptation field that has a PCR.
    fn write_clock(&self, packet: &mut [u8; 188]) {
        let pcr = self.pcr();
        let fields = ((pcr / 300) << 15) | 0x7E00 | (pcr % 300);
        let [_, _, first, second, third, fourth, fifth, sixth] = fields.to_be_bytes();
        packet[4] = 7;
        packet[5] = 0x10;
        packet[6] = first;
        packet[7] = second;
        packet[8] = third;
        packet[9] = fourth;
        packet[10] = fifth;
        packet[11] = sixth;
    }
}

impl PacketMaker for StreamMaker {
    fn write_next(&mut self, packet: &mut [u8; 188]) {
        let place = self.places.get(self.at).copied().unwrap_or(Place::Null);
        match place {
            Place::Null => write_null(packet),
            Place::Table(number) => self.write_table(number, packet),
            Place::Stream(number) => self.write_stream(number, PAYLOAD, packet),
            Place::Clock(number) => {
                self.write_stream(number, ADAPTATION_AND_PAYLOAD, packet);
                self.write_clock(packet);
            }
        }
        self.packets = self.packets.wrapping_add(1);
        self.at = self.at.wrapping_add(1);
        if self.at >= self.places.len() {
            self.at = 0;
        }
    }
}

/// Writes the null packet.
fn write_null(packet: &mut [u8; 188]) {
    *packet = FILLING;
    packet[0] = 0x47;
    packet[1] = 0x1F;
    packet[3] = 0x10;
}
