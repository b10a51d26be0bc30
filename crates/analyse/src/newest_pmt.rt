//! What is kept of a program's newest PMT.

use std::marker::Model;

/// The elementary PIDs of a program's newest PMT.
#[derive(Drop)]
pub struct NewestPmt {
    pub program: u16,
    /// In the order of the PMT's rows.
    pub pids: Vec<u16>,
}

impl Model for NewestPmt {
    ghost use Rattle.analyse.specs.PmtWatching.{PmtPids};

    ghost Value = { PmtPids };

    ghost view = { λ p. record { program = p.program; pids = p.pids.items } };
}
