//! An input of a measured multiplex.

use crate::made_reader::MadeReader;
use crate::pids::Pids;
use crate::random::Random;
use crate::sections::{program, table_packets};
use crate::shape::Shape;
use crate::stream_maker::StreamMaker;
use acquire::{Found, find_tables};
use anyhow::Result;
use std::alloc::Global;
use tspkt::Packet;

/// An input, and what a plan takes of it: so many services that follow one another.
#[derive(Drop)]
pub struct MadeInput {
    pub shape: Shape,
    pub pids: Pids,
    /// The first service that the plan takes.
    pub first: u8,
    /// When it begins, in ticks of 27 MHz.
    pub offset: u64,
    /// The packets of its tables.
    tables: Vec<Packet>,
    random: Random,
}

impl MadeInput {
    /// The input with this number, of which the plan takes so many services.
    pub fn new(alloc: Global, shape: Shape, taken: u8, seed: u64, number: u8) -> Result<MadeInput> {
        let mut random = Random::new(seed, number);
        let pids = Pids::new(&mut random);
        let left = u64::from(shape.services.saturating_sub(taken));
        Ok(MadeInput {
            shape,
            pids,
            first: random.below(left + 1) as u8,
            offset: random.below(1_000_000),
            tables: table_packets(alloc, shape, pids)?,
            random,
        })
    }

    /// What is found in it of so many services that the plan takes.
    pub fn found(&self, alloc: Global, taken: u8) -> Result<Found> {
        let mut programs = Vec::new(alloc);
        for service in 0..taken {
            programs.push(program(self.first.wrapping_add(service)))?;
        }
        Ok(find_tables(alloc, &programs, &self.tables)?)
    }

    /// What makes its packets.
    pub fn maker(&self, alloc: Global) -> Result<StreamMaker> {
        let mut random = self.random;
        Ok(StreamMaker::new(alloc, self.shape, self.pids, &self.tables, &mut random)?)
    }

    /// What reads it for so many seconds.
    pub fn reader(&self, alloc: Global, seconds: u64) -> Result<MadeReader<StreamMaker>> {
        let packets = self.shape.packets_a_second().saturating_mul(seconds);
        Ok(MadeReader::new(self.maker(alloc)?, packets))
    }
}
