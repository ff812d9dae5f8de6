// The header call in both forms, run on the same records and units: every flag, four elements, and each way to R11.
#![tactic(auto)]

ghost use Rattle.std.specs.Prelude.{◌≡◌};
ghost use Rattle.base.specs.Answers.{paper};
ghost use Rattle.gate_headers.specs.Rows.{obu_of, packet_of, code_of, of_records, of_numbers};

use base::Refusal;
use obu::Obu;
use packetizer::PacketMetadata;

// The numbers of the records below, the first header with a bit above its byte, and one more OBU that is not finished.
const OBUS: [u32; 24] = [
    266, 0, 0, 1, 4, 50, 0, 1, 1, 6, 50, 0, 2, 0, 1, 50, 0, 0, 2, 1, 50, 0, 0, 0,
];

const PLAN: [u32; 48] = [
    0, 1, 0, 2, 0, 4294967294, 0, 1, 2, 2, 0, 0, 1, 1, 2, 2, 0, 0, 0, 2, 3, 4, 0, 0, 0, 4, 0, 1, 0,
    0, 3, 2, 0, 1, 0, 0, 0, 0, 0, 1, 0, 0, 0, 1, 0, 2, 0, 4294967295,
];

// The payloads of a sequence header and of the frame header behind it: a shown key frame, another frame, and a reduced still picture; and a
// unit that is too short for the frame header.
const KEY: [u8; 2] = [0, 16];

const OTHER: [u8; 2] = [0, 48];

const REDUCED: [u8; 2] = [8, 255];

const SHORT: [u8; 1] = [0];

// The byte, or 256 plus the number of the refusal.
fn code(answer: Result<u8, Refusal>) -> u64
    ensures { result ≡ code_of (paper answer) }
{
    match answer {
        Ok(byte) => byte as u64,
        Err(refusal) => 256 + (base::number(refusal) as u64),
    }
}

fn an_obu(header: u8, start: u32, length: u32, size: u32) -> Obu
    ensures { result ≡ obu_of header start «length» size }
{
    Obu {
        header,
        extension: 0,
        start,
        length,
        size,
    }
}

fn a_packet(first: u32, elements: u32, offset: u32, last: u32, start: u32) -> PacketMetadata
    ensures { result ≡ packet_of first elements offset last start }
{
    PacketMetadata {
        first_obu_index: first,
        num_obu_elements: elements,
        first_obu_offset: offset,
        last_obu_size: last,
        packet_size: 0,
        payload_start: start,
    }
}

#[tactic(auto, unfolding(crate::specs::Rows::of_records))]
fn by_records(unit: &[u8], k: usize) -> u64
    ensures { result ≡ of_records unit.now k }
{
    let obus = [
        an_obu(10, 0, 1, 4),
        an_obu(50, 1, 1, 6),
        an_obu(50, 2, 0, 1),
        an_obu(50, 0, 2, 1),
    ];
    let packets = [
        a_packet(0, 1, 0, 2, 4294967294),
        a_packet(0, 1, 2, 2, 0),
        a_packet(1, 1, 2, 2, 0),
        a_packet(0, 2, 3, 4, 0),
        a_packet(0, 4, 0, 1, 0),
        a_packet(3, 2, 0, 1, 0),
        a_packet(0, 0, 0, 1, 0),
        a_packet(0, 1, 0, 2, 4294967295),
    ];
    code(aggregation::header_of(unit, &obus, &packets, k))
}

#[tactic(auto, unfolding(crate::specs::Rows::of_numbers))]
fn by_numbers(unit: &[u8], k: usize) -> u64
    ensures { result ≡ of_numbers unit.now k }
{
    code(aggregation::get_aggregation_header(unit, &OBUS, &PLAN, k))
}

fn row(unit: &[u8], k: usize, value: u64)
    requires { (of_records unit.now k ≡ value) × (of_numbers unit.now k ≡ value) }
{
    check::expect(by_records(unit, k) == value);
    check::expect(by_numbers(unit, k) == value);
}

#[tactic(auto, unfolding(base::specs::Lists::keep, base::specs::Records::records_from, aggregation::specs::New::before_frame, aggregation::specs::New::from_frame, aggregation::specs::New::n_of, aggregation::specs::Header::byte_of, aggregation::specs::Header::any_outside, aggregation::specs::Header::header_of, crate::specs::Rows::of_records, crate::specs::Rows::of_numbers))]
fn main() {
    row(&KEY, 0, 0x58);
    row(&KEY, 1, 0x90);
    row(&KEY, 2, 0xD0);
    row(&KEY, 3, 0xE0);
    row(&KEY, 4, 0x00);
    row(&KEY, 5, 267);
    row(&KEY, 6, 267);
    row(&KEY, 7, 267);
    row(&KEY, 8, 267);
    row(&OTHER, 0, 0x50);
    row(&REDUCED, 0, 0x58);
    row(&SHORT, 0, 267);
    row(&SHORT, 1, 267);
}
