//! What the packets of a multiplex are for.

use crate::names::Names;
use plan::Plan;
use schedule::Schedule;
use std::alloc::{AllocError, Global};
use tspkt::{NULL_PID, PID_COUNT};

/// What stands for the null packets.
const NULLS: u8 = 0xFF;

/// The most services that are drawn by themselves; the packets of others count as tables.
const MOST: usize = 64;

/// What the packets of a multiplex are for, by their PIDs: a service, the tables, or nothing.
#[derive(Drop)]
pub struct Kinds {
    /// The numbers of the services, in the order in which the plans have them first.
    services: Vec<u16>,
    /// Their names, as XML has them.
    names: Vec<String>,
    /// By PID: the place of its service, the number of services for a table, or what stands for null packets.
    places: Vec<u8>,
}

impl Kinds {
    /// Those of a schedule. `Err` is want of memory.
    pub fn of(alloc: Global, schedule: &Schedule) -> Result<Kinds, AllocError> {
        let mut services: Vec<u16> = Vec::new(alloc);
        for number in 0..=schedule.later_plans() {
            for service in schedule.plan(number).services() {
                if services.len() < MOST
                    && !services.iter().any(|known| *known == service.service)
                {
                    services.push(service.service)?;
                }
            }
        }
        let tables = u8::try_from(services.len()).unwrap_or(NULLS);
        let (known, mut names) = (Names::of(alloc, schedule)?, Vec::new(alloc));
        for service in &services {
            names.push(known.name(alloc, *service)?)?;
        }
        let mut kinds = Kinds {
            services,
            names,
            places: vec![in alloc; tables; PID_COUNT]?,
        };
        kinds.place(NULL_PID, NULLS);
        for number in 0..=schedule.later_plans() {
            kinds.add(schedule.plan(number));
        }
        Ok(kinds)
    }

    /// The PID has this place.
    fn place(&mut self, pid: u16, place: u8) {
        if let Some(kept) = self.places.get_mut(usize::from(pid)) {
            *kept = place;
        }
    }

    /// Places the streams of a plan.
    fn add(&mut self, plan: &Plan) {
        for service in plan.services() {
            let found = self
                .services
                .iter()
                .position(|known| *known == service.service);
            if let Some(place) = found
                && let Ok(place) = u8::try_from(place)
            {
                for stream in &service.streams {
                    if let Some(stream) = plan.streams().get(*stream) {
                        self.place(stream.output_pid, place);
                    }
                }
            }
        }
    }

    /// How many kinds are drawn: the services, and the tables behind them.
    pub(crate) fn count(&self) -> usize {
        self.services.len().saturating_add(1)
    }

    /// The place of a PID's kind; none of null packets.
    pub(crate) fn kind(&self, pid: u16) -> Option<usize> {
        match self.places.get(usize::from(pid)) {
            Some(place) if *place != NULLS => Some(usize::from(*place)),
            _ => None,
        }
    }

    /// The name of the service at this place, as XML has it; empty where it has none, and of the tables.
    pub(crate) fn name(&self, place: usize) -> &str {
        match self.names.get(place) {
            Some(name) => name.as_str(),
            None => "",
        }
    }

    /// The number of the service at this place; none of the tables.
    pub(crate) fn service(&self, place: usize) -> Option<u16> {
        self.services.get(place).copied()
    }
}
