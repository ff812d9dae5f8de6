// OBUs: a unit is taken apart into the list of its kept OBUs (O1 to O9), and an OBU of exactly some bytes is judged (R18).
#![tactic(auto)]

mod compare; // compare.rt: whether a list is that of a unit
mod unit; // unit.rt: the OBUs of a unit counted, and their records stored

ghost use Rattle.std.specs.Prelude.{◌≡◌, ℕ, ◌+◌, ◌*◌, ◌^◌, ◌≤◌, ◌<◌, min, cond, List, ◌∷◌, length, take, drop, get_or, eqb, IfOk, IfErr};
ghost use Rattle.base.specs.Answers.{paper_at};
ghost use Rattle.base.specs.Lists.{replaced};
ghost use Rattle.base.specs.Refusals.{number_of};
ghost use Rattle.leb128.specs.Field.{is_padded};
ghost use Rattle.obu.specs.Header.{type_of, extension_bit, size_bit, header_length, cleared, marked, drops};
ghost use Rattle.obu.specs.Front.{head_bytes, span_of, found, stopped, front_of};
ghost use Rattle.obu.specs.Records.{obu_numbers, numbers_of, obus_in, no_obu};
ghost use Rattle.obu.specs.Unit.{unit_limit, placed, list_answer, list_after};
ghost use Rattle.obu.specs.Wire.{extension_bytes, whole_of};
ghost use Rattle.obu.specs.Paper.{paper_head, paper_read, paper_whole};

use base::{Refusal, RefusedAt};
pub use compare::{Kept, same_list};
pub use unit::count_obus;

// The most bytes of a unit, and the numbers of a record in a flat list.
const UNIT_LIMIT: usize = 1048576;

pub const OBU_NUMBERS: usize = 5;

// The types of OBUs that are dropped.
const TEMPORAL_DELIMITER: u8 = 2;

const TILE_LIST: u8 = 8;

const PADDING: u8 = 15;

// A kept OBU: header byte, extension byte or 0, where its payload starts and how long it is, and its size without the size field.
#[derive(Clone, Copy)]
pub struct Obu {
    pub header: u8,
    pub extension: u8,
    pub start: u32,
    pub length: u32,
    pub size: u32,
}

impl Obu {
    // The numbers of its record in a flat list.
    fn numbers(self) -> [u32; OBU_NUMBERS]
        ensures { result ≡ numbers_of self }
    {
        [
            u32::from(self.header),
            u32::from(self.extension),
            self.start,
            self.length,
            self.size,
        ]
    }
}

// An OBU at the front of some bytes: how many bytes its size field and its payload have.
#[derive(Clone, Copy)]
pub struct Head {
    pub header: u8,
    pub extension: u8,
    pub field: usize,
    pub payload: usize,
}

impl Head {
    // How many bytes the OBU takes in all.
    fn span(self) -> usize
        requires { span_of (paper_head self) < 2 ^ 64 }
        ensures { result ≡ span_of (paper_head self) }
    {
        header_size(self.header) + self.field + self.payload
    }

    // Whether its type is dropped.
    fn is_dropped(self) -> bool
        ensures { result ≡ drops (type_of self.header) }
    {
        should_ignore_obu_type(obu_type(self.header))
    }

    // Whether its size field is padded.
    fn is_padded(self) -> bool
        requires { self.payload < 2 ^ 32 }
        ensures { result ≡ is_padded self.payload self.field }
    {
        leb128::is_padded(self.payload as u32, self.field)
    }

    // Its record, where its header byte stands at `at`.
    fn record_at(self, at: usize) -> Obu
        requires { at + span_of (paper_head self) ≤ unit_limit }
        ensures { result ≡ (placed at (paper_head self)).obu }
    {
        let after = header_size(self.header);
        Obu {
            header: self.header,
            extension: self.extension,
            start: (at + after + self.field) as u32,
            length: self.payload as u32,
            size: (after + self.payload) as u32,
        }
    }
}

// What a unit's list holds: how many OBUs are kept, and how many size fields of all its OBUs are padded.
#[derive(Clone, Copy)]
pub struct Listed {
    pub obus: usize,
    pub padded: usize,
}

// Bits 3 to 6 of the header byte.
pub fn obu_type(header: u8) -> u8
    ensures { result ≡ type_of header }
{
    (header & 120) >> 3
}

// Bit 2.
pub fn obu_has_extension(header: u8) -> bool
    ensures { result ≡ eqb (extension_bit header) 1 }
{
    header & 4 != 0
}

// Bit 1.
pub fn obu_has_size(header: u8) -> bool
    ensures { result ≡ eqb (size_bit header) 1 }
{
    header & 2 != 0
}

// The header byte with bit 1 cleared.
pub fn without_size_bit(header: u8) -> u8
    ensures { result ≡ cleared header }
{
    header & 253
}

// The header byte with bit 1 set.
pub fn with_size_bit(header: u8) -> u8
    ensures { result ≡ marked header }
{
    header | 2
}

// How many header bytes there are.
pub fn header_size(header: u8) -> usize
    ensures { result ≡ header_length header }
{
    if obu_has_extension(header) { 2 } else { 1 }
}

// Types 2, 8 and 15 are dropped.
pub fn should_ignore_obu_type(obu_type: u8) -> bool
    ensures { result ≡ drops obu_type }
{
    matches!(obu_type, TEMPORAL_DELIMITER | TILE_LIST | PADDING)
}

// Writes an OBU's header byte with bit 1 set and its extension byte, and returns the cursor after them.
// Helper: `out` must have the space.
pub fn put_header(out: &mut [u8], at: usize, header: u8, extension: u8) -> usize
    requires { at + header_length header ≤ length out.old }
    ensures { (result ≡ at + header_length header)
        × (out.new ≡ replaced out.old at (marked header ∷ extension_bytes header extension)) }
{
    out[at] = with_size_bit(header);
    if obu_has_extension(header) {
        out[at + 1] = extension;
        return at + 2;
    }
    at + 1
}

// The extension byte, or 0.
fn extension_byte(bytes: &[u8], header: u8) -> u8
    requires { header_length header ≤ length bytes.now }
    ensures { result ≡ cond (eqb (extension_bit header) 1) (get_or bytes.now 1 0) 0 }
{
    if obu_has_extension(header) {
        bytes[1]
    } else {
        0
    }
}

// The OBU at the front of `total` bytes, the first of which are `bytes`: ten are enough.
fn read_obu(bytes: &[u8], total: usize) -> Result<Head, Refusal>
    requires { (1 ≤ total) × (min head_bytes total ≤ length bytes.now) × (length bytes.now ≤ total) }
    ensures { (all : List ℕ) → take head_bytes all ≡ take head_bytes bytes.now → length all ≡ total
        → paper_read result ≡ front_of all }
{
    let header = bytes[0];
    let after = header_size(header);
    if total < after {
        return Err(Refusal::ExtensionMissing);
    }
    let extension = extension_byte(bytes, header);
    let left = total - after;
    if !obu_has_size(header) {
        return Ok(Head {
            header,
            extension,
            field: 0,
            payload: left,
        });
    }
    if left == 0 {
        return Err(Refusal::SizeMissing);
    }
    let size = leb128::read_leb128(&bytes[after..])?;
    let payload = size.value as usize;
    if payload > left - size.used {
        return Err(Refusal::PayloadPastUnit);
    }
    Ok(Head {
        header,
        extension,
        field: size.used,
        payload,
    })
}

// The OBU whose header byte stands at the cursor `at` of a unit: it lies in the unit.
fn head_at(unit: &[u8], at: usize) -> Result<Head, RefusedAt>
    requires { at < length unit.now }
    ensures found { IfOk result (λ head. found (paper_head head) ≡ front_of (drop at unit.now)) }
    ensures inside { IfOk result (λ head. at + span_of (paper_head head) ≤ length unit.now) }
    ensures refused { IfErr result (λ e. stopped (number_of e.refusal) ≡ front_of (drop at unit.now)) }
    ensures at { IfErr result (λ e. e.at ≡ at) }
{
    read_obu(&unit[at..], unit.len() - at).map_err(|refusal| RefusedAt { refusal, at })
}

// An OBU of exactly `total` bytes, the first of which are `bytes`.
// Helper: `total` must be 1 or more, and `bytes` the first of them: ten at least, or all.
pub fn whole_obu(bytes: &[u8], total: usize) -> Result<Head, Refusal>
    requires { (1 ≤ total) × (min head_bytes total ≤ length bytes.now) × (length bytes.now ≤ total) }
    ensures { (all : List ℕ) → take head_bytes all ≡ take head_bytes bytes.now → length all ≡ total
        → paper_whole result ≡ whole_of all }
{
    match read_obu(bytes, total) {
        Ok(head) if head.span() == total => Ok(head),
        _ => Err(Refusal::ObuBroken),
    }
}

// Record i of a flat list of any numbers: of the header and of the extension byte the low byte counts.
// Helper: the list must have a whole record i.
pub fn obu_at(obus: &[u32], i: usize) -> Obu
    requires { (i + 1) * obu_numbers ≤ length obus.now }
    ensures { result ≡ get_or (obus_in obus.now) i no_obu }
{
    let at = i * OBU_NUMBERS;
    Obu {
        header: (obus[at] % 256) as u8,
        extension: (obus[at + 1] % 256) as u8,
        start: obus[at + 2],
        length: obus[at + 3],
        size: obus[at + 4],
    }
}

// The kept OBUs of a unit, as records in a lent flat list.
pub fn parse_obus(unit: &[u8], obus: &mut [u32]) -> Result<Listed, RefusedAt>
    ensures { (paper_at result ≡ list_answer unit.now obus.old)
        × (obus.new ≡ list_after unit.now obus.old) }
{
    if unit.len() > UNIT_LIMIT {
        return Err(Refusal::UnitOverLimit.into());
    }
    let listed = count_obus(unit, obus.len() / OBU_NUMBERS)?;
    unit::store_obus(unit, obus);
    Ok(listed)
}
