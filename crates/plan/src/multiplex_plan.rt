//! The plan of a multiplex.

use crate::planned_stream::PlannedStream;
use crate::rhythm::plan_rounds;
use crate::stream_map::StreamMap;
use acquire::Found;
use output_tables::TableSet;
use request::{Input, PlanFault, Request, Service};
use rounds::TableRounds;
use selection::{ChosenService, choose};
use std::alloc::{AllocError, Global};
use std::marker::Model;
use tspkt::Packet;

/// What a multiplex is made by: the request, the packets of its own tables, made of what was found
/// in the inputs, when each of them is sent, and a look-up of streams in one step.
#[derive(Drop)]
pub struct Plan {
    request: Request,
    tables: TableSet,
    rounds: TableRounds,
    streams: StreamMap,
}

impl Model for Plan {
    ghost use Rattle.plan.specs.Build.{PlanValue, IsPlan};
    ghost use Rattle.plan.specs.StreamPlace.{IsMapOf};

    ghost Value = { PlanValue };

    ghost view = { λ p. record { request = p.request; tables = p.tables; rounds = p.rounds } };

    ghost invariant = { λ p. IsMapOf p.streams p.request.streams ×
        IsPlan (record { request = p.request; tables = p.tables; rounds = p.rounds }) };
}

impl Plan {
    ghost use Rattle.std.specs.Prelude.{◌≡◌, ◌≤◌, ◌⊎◌, None, Some, IfOk, IfErr, map};
    ghost use Rattle.acquire.specs.Seen.{findings_of};
    ghost use Rattle.request.specs.Request.{IsRequest, input_value, service_value};
    ghost use Rattle.selection.specs.Chosen.{chosen_of, AreServicesOf, AreInputRows};
    ghost use Rattle.selection.specs.ChosenView.{chosen_value};
    ghost use Rattle.output_tables.specs.Room.{HaveRoom};
    ghost use Rattle.output_tables.specs.TableSet.{fast_packets, slow_packets};
    ghost use Rattle.plan.specs.Build.{IsPlanOf, build_fault_of, output_rounds};
    ghost use Rattle.plan.specs.Built.{IsBuilt};
    ghost use Rattle.plan.specs.StreamPlace.{planned_stream};

    /// The plan of a request, by what was found in each of its inputs, in their order: the PMTs of
    /// the services of the input, in the order of the plan, and the SDT.
    ///
    /// Of the faults that apply, to whichever service, the one with the least number is answered:
    /// `NoProgram`, `NoSdtRow`, `CaFound`, `RateMissing`, `StreamUnknown`, `TooLarge` where a PMT,
    /// the NIT or a row of the SDT has no room in a section, `RoundTooLong` where the packets of a
    /// round, with their gaps, take longer than the period, `PeriodTooLong` where a table would come
    /// less often than its limit; and `Memory` only where none of these applies.
    #[tactic(auto, unfolding(crate::specs::Build::build_fault_of))]
    pub fn build(alloc: Global, request: &Request, found: &[Found]) -> Result<Plan, PlanFault>
        ensures plan { IfOk result
            (IsPlanOf request.now (chosen_of request.now (map findings_of found.now))) }
        ensures no_fault { IfOk result (λ _.
            build_fault_of request.now (map findings_of found.now) ≡ None) }
        ensures fault { IfErr result (λ e.
            (e ≡ PlanFault.Memory) ⊎ (build_fault_of request.now (map findings_of found.now) ≡ Some e)) }
        ensures memory { result ≡ Err PlanFault.Memory →
            build_fault_of request.now (map findings_of found.now) ≡ None }
    {
        request.known();
        let chosen = choose(request, found)?;
        let rounds = plan_rounds(request, chosen.as_slice())?;
        let plan = Plan::assemble(alloc, request, chosen.as_slice(), rounds)?;
        Ok(plan)
    }

    /// The plan of a request for these services, whose tables have room. It fails only for want of
    /// memory.
    fn assemble(
        alloc: Global,
        request: &Request,
        chosen: &[ChosenService<'_>],
        rounds: TableRounds,
    ) -> Result<Plan, AllocError>
        requires request { IsRequest request.now }
        requires services { AreServicesOf request.now (map chosen_value chosen.now) }
        requires rows { AreInputRows (map chosen_value chosen.now) }
        requires room { HaveRoom request.now (map chosen_value chosen.now) }
        requires rounds { rounds ≡ output_rounds request.now (map chosen_value chosen.now) }
        ensures { IfOk result (IsPlanOf request.now (map chosen_value chosen.now)) }
    {
        let tables = TableSet::new(alloc, request, chosen)?;
        let streams = StreamMap::new(alloc, request.inputs().len(), request.streams())?;
        let request = request.copy(alloc)?;
        Ok(Plan {
            request,
            tables,
            rounds,
            streams,
        })
    }

    /// An equal plan. It fails only for want of memory.
    pub fn copy(&self, alloc: Global) -> Result<Plan, AllocError>
        ensures { IfOk result (λ plan. plan ≡ self.now) }
    {
        let request = self.request.copy(alloc)?;
        let tables = self.tables.copy(alloc)?;
        let streams = self.streams.copy(alloc)?;
        Ok(Plan {
            request,
            tables,
            rounds: self.rounds,
            streams,
        })
    }

    /// The stream with this PID of this input, in one step; none where the plan names no such
    /// stream, also for an input that isn't there.
    pub fn lookup(&self, input: usize, pid: u16) -> Option<PlannedStream>
        ensures { result ≡ planned_stream self.now.request.streams input pid }
    {
        let number = self.streams.find(input, pid)?;
        let stream = self.request.streams().get(number)?;
        Some(PlannedStream {
            number,
            output_pid: stream.output_pid,
            leak: stream.leak,
        })
    }

    /// What every plan keeps.
    pub fn known(&self)
        ensures { IsBuilt self.now }
    {
        self.request.known();
        self.rounds.known();
    }

    /// What was asked for.
    pub fn request(&self) -> &Request
        ensures value { result.now ≡ self.now.request }
    {
        &self.request
    }

    /// When the tables are sent.
    pub fn rounds(&self) -> &TableRounds
        ensures { result.now ≡ self.now.rounds }
    {
        &self.rounds
    }

    /// The packets of the PAT and, in the order of the services, of the PMTs, each with the counter
    /// 0.
    pub fn fast_packets(&self) -> &[Packet]
        ensures { result.now ≡ fast_packets self.now.tables }
    {
        self.tables.fast_packets()
    }

    /// The packets of the SDT and of the NIT, each with the counter 0.
    pub fn slow_packets(&self) -> &[Packet]
        ensures { result.now ≡ slow_packets self.now.tables }
    {
        self.tables.slow_packets()
    }

    /// The rate of the multiplex, in bits a second.
    pub fn rate(&self) -> u64
        ensures { result ≡ self.now.request.rate }
    {
        self.request.rate()
    }

    /// Slots from one table packet of a round to the next.
    pub fn gap(&self) -> u64
        ensures { result ≡ self.now.rounds.gap }
    {
        self.rounds.gap()
    }

    /// Slots from one round of the tables to the next.
    pub fn period(&self) -> u64
        ensures { result ≡ self.now.request.period }
    {
        self.request.period()
    }

    /// How many packets PAT and PMTs have.
    pub fn fast_len(&self) -> usize
        ensures { result ≡ self.now.rounds.fast_len }
    {
        self.rounds.fast_len()
    }

    /// How many packets SDT and NIT have.
    pub fn slow_len(&self) -> usize
        ensures { result ≡ self.now.rounds.slow_len }
    {
        self.rounds.slow_len()
    }

    /// The inputs, in the order of the plan's text.
    pub fn inputs(&self) -> &[Input]
        ensures { map input_value result.now ≡ self.now.request.inputs }
    {
        self.request.inputs()
    }

    /// The services, in the order of the plan's text.
    pub fn services(&self) -> &[Service]
        ensures { map service_value result.now ≡ self.now.request.services }
    {
        self.request.services()
    }

    /// The streams, by their numbers.
    pub fn streams(&self) -> &[request::Stream]
        ensures { result.now ≡ self.now.request.streams }
    {
        self.request.streams()
    }
}
