// The elements of a payload (E1 to E8, F6): the bits of its header, one element at a cursor, all of them, element k as a part.
#![tactic(auto)]

mod in_turn; // in_turn.rt: from element to element, by W

ghost use Rattle.std.specs.Prelude.{◌≡◌, ◌≤◌, ◌&&◌, length, drop, eqb};
ghost use Rattle.base.specs.Answers.{given, paper_at};
ghost use Rattle.element.specs.Header.{z_bit, y_bit, w_of, n_bit};
ghost use Rattle.element.specs.Elements.{element_at, has_field, payload_elements, element_of, bytes_of, place_at};
ghost use Rattle.element.specs.Paper.{walked};
ghost use Rattle.element.specs.Laws.{Stands, Within};

use base::{Refusal, RefusedAt};

// The most bytes of a payload.
pub const PAYLOAD_LIMIT: usize = 1048576;

// A part of a payload: where it starts, how many bytes it has, and the cursor after it. By default the empty part at its start.
#[derive(Clone, Copy, Default)]
pub struct Part {
    pub start: usize,
    pub length: usize,
    pub next: usize,
}

// All elements: how many there are, the one asked for, and the last; where there is no such one, the empty part at the payload's start.
// And how many of their length fields are padded. By default nothing is walked.
#[derive(Clone, Copy, Default)]
pub struct Walked {
    pub elements: usize,
    pub kept: Part,
    pub last: Part,
    pub padded: usize,
}

// Z, bit 7 of the header byte.
pub fn header_z(header: u8) -> bool
    ensures { result ≡ eqb (z_bit header) 1 }
{
    header & 128 != 0
}

// Y, bit 6.
pub fn header_y(header: u8) -> bool
    ensures { result ≡ eqb (y_bit header) 1 }
{
    header & 64 != 0
}

// W, bits 4 and 5.
pub fn header_w(header: u8) -> usize
    ensures { result ≡ w_of header }
{
    ((header & 48) >> 4) as usize
}

// N, bit 3.
pub fn header_n(header: u8) -> bool
    ensures { result ≡ eqb (n_bit header) 1 }
{
    header & 8 != 0
}

// N and Z both set.
fn new_with_continuation(header: u8) -> bool
    ensures { result ≡ (eqb (z_bit header) 1 && eqb (n_bit header) 1) }
{
    header_z(header) && header_n(header)
}

// Whether element n has a length field: all but the last of W.
pub fn has_field(w: usize, n: usize) -> bool
    ensures { result ≡ has_field w n }
{
    w == 0 || n != w - 1
}

// The element at a cursor, with a length field or, without one, all that is left.
// Helper: the cursor must not be past the end of the payload.
pub fn read_element(payload: &[u8], at: usize, field: bool) -> Result<Part, RefusedAt>
    requires { at ≤ length payload.now }
    ensures { paper_at result ≡ element_at field at (drop at payload.now) }
{
    let left = payload.len() - at;
    let bad = RefusedAt {
        refusal: Refusal::ElementBad,
        at,
    };
    if !field {
        if left == 0 {
            return Err(bad);
        }
        return Ok(Part {
            start: at,
            length: left,
            next: at + left,
        });
    }
    let Ok(size) = leb128::read_leb128(&payload[at..]) else {
        return Err(RefusedAt {
            refusal: Refusal::ElementLengthBad,
            at,
        });
    };
    let length = size.value as usize;
    if length == 0 || left - size.used < length {
        return Err(bad);
    }
    let start = at + size.used;
    Ok(Part {
        start,
        length,
        next: start + length,
    })
}

// The same where it is known that there is one: nothing is tested again.
// Helper: reading the element must give one.
pub fn part_at(payload: &[u8], at: usize, field: bool) -> Part
    requires { Stands field at payload.now }
    ensures { given result ≡ element_at field at (drop at payload.now) }
{
    if field {
        // it is read, so this never fails
        let Ok(size) = leb128::read_leb128(&payload[at..]) else {
            return Part::default();
        };
        let start = at + size.used;
        let length = size.value as usize;
        return Part {
            start,
            length,
            next: start + length,
        };
    }
    Part {
        start: at,
        length: payload.len() - at,
        next: payload.len(),
    }
}

// All elements of a payload that is neither empty nor over its limit.
// Helper: it must be neither.
pub fn walk_within(payload: &[u8], k: usize) -> Result<Walked, RefusedAt>
    requires { Within payload.now }
    ensures { paper_at result ≡ walked k (payload_elements payload.now) }
{
    let header = payload[0];
    if new_with_continuation(header) {
        return Err(Refusal::NewWithContinuation.into());
    }
    in_turn::walk_by_w(payload, header_w(header), k)
}

// All elements of a payload, in order: how many, element k, the last, and how many length fields are padded.
pub fn walk_elements(payload: &[u8], k: usize) -> Result<Walked, RefusedAt>
    ensures { paper_at result ≡ walked k (payload_elements payload.now) }
{
    if payload.is_empty() || payload.len() > PAYLOAD_LIMIT {
        return Err(Refusal::PayloadLength.into());
    }
    walk_within(payload, k)
}

// Element k as a part of the payload; the empty part at its start if the payload is refused or has no element k.
pub fn element(payload: &[u8], k: usize) -> &[u8]
    ensures { (result.now ≡ bytes_of payload.now (element_of payload.now k))
        × (result.ref_ptr ≡ place_at payload.entry.ref_ptr (element_of payload.now k).start) }
{
    let Ok(all) = walk_elements(payload, k) else {
        return &payload[0..0];
    };
    let start = all.kept.start;
    &payload[start..start + all.kept.length]
}
