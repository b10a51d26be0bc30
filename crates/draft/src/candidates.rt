//! The services that a plan can take.

use crate::candidate::{Candidate, CandidateStream};
use crate::lack::Lack;
use crate::leak::leak_of;
use crate::left_out::LeftOut;
use crate::surveyed::Surveyed;
use probe::{Codec, DvbText, Survey, codec_of};
use request::{FIRST_PID, LAST_PID, MAX_RATE, MAX_STREAMS, MIN_RATE};
use std::alloc::{AllocError, Global};
use tables::{Pmt, ServiceDescriptor};

/// PCR_PID of a program that has no PCR (ISO/IEC 13818-1, 2.4.4.9).
const NO_PCR_PID: u16 = 0x1FFF;

/// The services that a plan can take, in the order of their files, and what is left out.
#[derive(Drop)]
pub(crate) struct Candidates {
    pub services: Vec<Candidate>,
    pub left_out: Vec<LeftOut>,
}

/// Whether a plan may name this PID.
fn is_nameable(pid: u16) -> bool {
    FIRST_PID <= u64::from(pid) && u64::from(pid) <= LAST_PID
}

/// The PIDs of a program's streams, and that of its PCR, each once.
fn pids_of(alloc: Global, pmt: &Pmt) -> Result<Vec<u16>, AllocError> {
    let mut pids = Vec::new(alloc);
    for row in pmt.rows() {
        if !pids.contains(&row.elementary_pid) {
            pids.push(row.elementary_pid)?;
        }
    }
    let pcr_pid = pmt.pcr_pid();
    if pcr_pid != NO_PCR_PID && !pids.contains(&pcr_pid) {
        pids.push(pcr_pid)?;
    }
    Ok(pids)
}

/// How the stream on a PID is coded: of one that has PCRs alone, that isn't known.
fn codec_on(pmt: &Pmt, pid: u16) -> Codec {
    match pmt.rows().iter().find(|row| row.elementary_pid == pid) {
        Some(row) => codec_of(row),
        None => Codec::Unknown,
    }
}

/// The stream on a PID of a program.
fn stream_on(survey: &Survey, pmt: &Pmt, pid: u16) -> CandidateStream {
    let (mean, highest) = match survey.pid(pid) {
        Some(found) => (found.rate.unwrap_or(0), found.highest.unwrap_or(0)),
        None => (0, 0),
    };
    let codec = codec_on(pmt, pid);
    CandidateStream {
        pid,
        codec,
        leak: leak_of(codec, mean, highest),
        highest,
    }
}

/// The streams of a program, or why a plan can't have all of them: the first PID among them that it may not name, or that they are too
/// many.
fn streams_of(
    alloc: Global,
    survey: &Survey,
    pmt: &Pmt,
) -> Result<Result<Vec<CandidateStream>, Lack>, AllocError> {
    let pids = pids_of(alloc, pmt)?;
    if pids.len() > MAX_STREAMS {
        return Ok(Err(Lack::NoRoom));
    }
    let mut streams = Vec::new(alloc);
    for pid in &pids {
        if !is_nameable(*pid) {
            return Ok(Err(Lack::BadPid(*pid)));
        }
        streams.push(stream_on(survey, pmt, *pid))?;
    }
    Ok(Ok(streams))
}

/// The streams of the program at this place, or why a plan can't take it.
fn streams_at(
    alloc: Global,
    survey: &Survey,
    place: usize,
    program: u16,
) -> Result<Result<Vec<CandidateStream>, Lack>, AllocError> {
    let Some(pmt) = survey.pmt(place) else {
        return Ok(Err(Lack::NoPmt));
    };
    let Some(row) = survey.row(program) else {
        return Ok(Err(Lack::NoRow));
    };
    if ServiceDescriptor::first_in(&row.descriptors).is_none() {
        return Ok(Err(Lack::NoRow));
    }
    if survey.is_scrambled(pmt, Some(row)) {
        return Ok(Err(Lack::Scrambled));
    }
    streams_of(alloc, survey, pmt)
}

/// The name of a program in the SDT; none where that doesn't describe it.
fn name_of(alloc: Global, survey: &Survey, program: u16) -> Result<String, AllocError> {
    if let Some(row) = survey.row(program)
        && let Some(described) = ServiceDescriptor::first_in(&row.descriptors)
    {
        let name = DvbText(described.service_name);
        return format!(in alloc; "{name}");
    }
    Ok(String::new(alloc))
}

/// Why no service of a file can be taken, if none can.
fn file_lack(survey: &Survey) -> Option<Lack> {
    if survey.programs.is_empty() {
        return Some(Lack::NoProgram);
    }
    match survey.measured {
        None => Some(Lack::NoRate),
        Some(measured) if measured.rate < MIN_RATE || MAX_RATE < measured.rate => {
            Some(Lack::RateOutOfRange(measured.rate))
        }
        Some(_) => None,
    }
}

impl Candidates {
    /// Those of these files.
    pub fn of(alloc: Global, files: &[Surveyed<'_>]) -> Result<Candidates, AllocError> {
        let mut candidates = Candidates {
            services: Vec::new(alloc),
            left_out: Vec::new(alloc),
        };
        for (file, surveyed) in files.iter().enumerate() {
            match file_lack(&surveyed.survey) {
                Some(lack) => candidates.leave_out(file, None, lack)?,
                None => candidates.add_file(alloc, file, &surveyed.survey)?,
            }
        }
        Ok(candidates)
    }

    /// Something is left out.
    pub fn leave_out(
        &mut self,
        file: usize,
        program: Option<u16>,
        lack: Lack,
    ) -> Result<(), AllocError> {
        self.left_out.push(LeftOut {
            file,
            program,
            lack,
        })?;
        Ok(())
    }

    /// Whether a program of a file is one of the services already: the first row of a PAT counts.
    fn has(&self, file: usize, program: u16) -> bool {
        self.services.iter().any(|service| service.file == file && service.program == program)
    }

    /// Adds the services of a file.
    fn add_file(&mut self, alloc: Global, file: usize, survey: &Survey) -> Result<(), AllocError> {
        for (place, row) in survey.programs.iter().enumerate() {
            let program = row.program_number;
            if self.has(file, program) {
                continue;
            }
            match streams_at(alloc, survey, place, program)? {
                Ok(streams) => self.services.push(Candidate {
                    file,
                    program,
                    name: name_of(alloc, survey, program)?,
                    streams,
                })?,
                Err(lack) => self.leave_out(file, Some(program), lack)?,
            }
        }
        Ok(())
    }

    /// The services behind the first so many are left out.
    pub fn leave_behind(&mut self, count: usize) -> Result<(), AllocError> {
        for service in self.services.iter().skip(count) {
            self.left_out.push(LeftOut {
                file: service.file,
                program: Some(service.program),
                lack: Lack::NoRoom,
            })?;
        }
        Ok(())
    }
}
