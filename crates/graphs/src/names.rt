//! The names of services.

use plan::Plan;
use probe::DvbText;
use schedule::Schedule;
use section::{Assembler, Told};
use std::alloc::{AllocError, Global};
use tables::{Sdt, ServiceDescriptor, TableFault};

/// The PID of the SDT (EN 300 468, 5.1.3).
const SDT_PID: u16 = 0x0011;

/// The most characters of a name that are drawn.
const LENGTH: usize = 20;

/// The names of services as a multiplex's own SDTs have them.
#[derive(Drop)]
pub(crate) struct Names {
    sdts: Vec<Sdt>,
}

/// What the sections of the SDT of a plan's multiplex are told as. Its packets all have the counter 0, and get counters that go on.
fn sdt_sections(alloc: Global, plan: &Plan) -> Result<Vec<Told>, AllocError> {
    let (mut assembler, mut told) = (Assembler::new(), Vec::new(alloc));
    let mut counter = 0u8;
    for packet in plan.slow_packets() {
        if packet.pid() == SDT_PID {
            assembler.push(&packet.with_counter(counter % 16), &mut told)?;
            counter = counter.wrapping_add(1);
        }
    }
    Ok(told)
}

/// The SDT of a section, where it is one. `Err` is want of memory.
fn sdt_in(alloc: Global, section: &[u8]) -> Result<Option<Sdt>, AllocError> {
    match Sdt::read(alloc, section) {
        Ok(sdt) => Ok(Some(sdt)),
        Err(TableFault::Memory) => Err(AllocError),
        Err(_) => Ok(None),
    }
}

impl Names {
    /// Those of the multiplex of a schedule. `Err` is want of memory.
    pub fn of(alloc: Global, schedule: &Schedule) -> Result<Names, AllocError> {
        let mut sdts = Vec::new(alloc);
        for number in 0..=schedule.later_plans() {
            let told = sdt_sections(alloc, schedule.plan(number))?;
            for item in &told {
                if let Told::Section(section) = item
                    && let Some(sdt) = sdt_in(alloc, section)?
                {
                    sdts.push(sdt)?;
                }
            }
        }
        Ok(Names { sdts })
    }

    /// The name of the service with this number, in the first plan that has it: at most 20 characters of it, as XML has them. Empty where it has
    /// none. `Err` is want of memory.
    pub fn name(&self, alloc: Global, service: u16) -> Result<String, AllocError> {
        let mut name = String::new(alloc);
        let row = self
            .sdts
            .iter()
            .flat_map(|sdt| sdt.rows())
            .find(|row| row.service_id == service);
        if let Some(row) = row
            && let Some(described) = ServiceDescriptor::first_in(&row.descriptors)
        {
            let text = DvbText(described.service_name);
            push_escaped(&mut name, &format!(in alloc; "{text}")?)?;
        }
        Ok(name)
    }
}

/// Adds the first characters of a text, none of which is of control, as XML has them. Two aren't allowed there, and become a `?` (XML 1.0, 2.2).
fn push_escaped(name: &mut String, text: &str) -> Result<(), AllocError> {
    for c in text.chars().take(LENGTH) {
        match c {
            '&' => name.push_str("&amp;")?,
            '<' => name.push_str("&lt;")?,
            '>' => name.push_str("&gt;")?,
            '\u{FFFE}' | '\u{FFFF}' => name.push('?')?,
            _ => name.push(c)?,
        }
    }
    Ok(())
}
