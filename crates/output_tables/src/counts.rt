//! How many packets the output's tables take.

ghost use Rattle.std.specs.Prelude.{◌≡◌, ◌+◌, ◌<◌, ◌≤◌, map, length};
ghost use Rattle.request.specs.Request.{IsRequest};
ghost use Rattle.selection.specs.ChosenView.{chosen_value};
ghost use Rattle.tables.specs.Pmt.{pmt_section_length_of};
ghost use Rattle.tables.specs.Nit.{nit_section_length_of};
ghost use Rattle.output_tables.specs.Output.{packets_for, fast_count, slow_count, sdt_count, output_nit};
ghost use Rattle.selection.specs.Chosen.{AreServicesOf};
ghost use Rattle.output_tables.specs.Room.{AreInRoom, HaveRoom};

use crate::too_large::{ROW_HEAD_LENGTH, nit_section_length, pmt_room};
use request::Request;
use section::MAX_SECTION_LENGTH;
use selection::ChosenService;
use tables::{MAX_SDT_ROWS_LENGTH, Pmt};

/// The payload of a packet without an adaptation field, in bytes.
const PAYLOAD: usize = 184;

/// section_length of a section of the SDT without rows.
const SDT_HEAD_LENGTH: usize = 12;

/// How many packets a section of this section_length takes, with its first three bytes and a pointer_field.
fn packets_for(section_length: usize) -> usize
    requires { section_length ≤ MAX_SECTION_LENGTH }
    ensures value { result ≡ packets_for section_length }
    ensures few { result ≤ 6 }
{
    (section_length + 3 + PAYLOAD) / PAYLOAD
}

/// How many packets the PMT takes.
fn pmt_count(pmt: &Pmt) -> usize
    requires { pmt_section_length_of pmt.now ≤ MAX_SECTION_LENGTH }
    ensures value { result ≡ packets_for (pmt_section_length_of pmt.now) }
    ensures few { result ≤ 6 }
{
    match pmt_room(pmt) {
        Some(room) => packets_for(MAX_SECTION_LENGTH - room),
        None => unreachable!(),
    }
}

/// How many packets the sections of the SDT take.
fn sdt_count(chosen: &[ChosenService<'_>]) -> usize
    requires room { AreInRoom (map chosen_value chosen.now) }
    requires some { 0 < length chosen.now }
    requires few { length chosen.now ≤ 16 }
    ensures value { result ≡ sdt_count (map chosen_value chosen.now) }
    ensures few { result ≤ 102 }
{
    let mut packets = 0;
    let mut used = 0;
    for service in chosen {
        let length = ROW_HEAD_LENGTH + service.row.descriptors.bytes().len();
        if used + length > MAX_SDT_ROWS_LENGTH {
            packets += packets_for(SDT_HEAD_LENGTH + used);
            used = 0;
        }
        used += length;
    }
    packets + packets_for(SDT_HEAD_LENGTH + used)
}

/// How many packets the PAT and the PMTs take, none of which is too large. It takes no memory.
pub fn fast_count(request: &Request, chosen: &[ChosenService<'_>]) -> usize
    requires request { IsRequest request.now }
    requires services { AreServicesOf request.now (map chosen_value chosen.now) }
    requires room { HaveRoom request.now (map chosen_value chosen.now) }
    ensures value { result ≡ fast_count request.now (map chosen_value chosen.now) }
    ensures some { 1 ≤ result }
    ensures few { result ≤ 102 }
{
    let mut packets = packets_for(9 + 4 * (1 + chosen.len()));
    for service in chosen {
        packets += pmt_count(service.pmt);
    }
    packets
}

/// How many packets the SDT and the NIT take, which have room. It takes no memory.
pub fn slow_count(request: &Request, chosen: &[ChosenService<'_>]) -> usize
    requires request { IsRequest request.now }
    requires services { AreServicesOf request.now (map chosen_value chosen.now) }
    requires room { HaveRoom request.now (map chosen_value chosen.now) }
    ensures value { result ≡ slow_count request.now (map chosen_value chosen.now) }
    ensures some { 1 ≤ result }
    ensures few { result ≤ 108 }
{
    sdt_count(chosen) + packets_for(nit_section_length(request, chosen))
}
