// The train file: version byte, then records of length, number and payload (T1 to T3): head and records read, a record's head written.
#![tactic(auto)]

ghost use Rattle.std.specs.Prelude.{◌≡◌, ◌+◌, ◌≤◌, length, drop};
ghost use Rattle.base.specs.Lists.{front, Put};
ghost use Rattle.base.specs.Answers.{paper};
ghost use Rattle.train.specs.Train.{head_for, counted_width, number_width, record_fields, head_of, fields_of, front_of};
ghost use Rattle.train.specs.Paper.{paper_fields, paper_record};
ghost use Rattle.train.specs.Laws.{Writable};

use base::Refusal;
use base::big_endian::{number_at, put_number};

// The two versions: the version byte, and the width of the length fields of such a train, in bytes.
const SHORT_VERSION: u8 = 1;

const SHORT_WIDTH: usize = 2;

const LONG_VERSION: u8 = 2;

const LONG_WIDTH: usize = 4;

// The longest payload that a record of version 1 has room for (L18).
const SHORT_PAYLOAD: usize = 65533;

// The width of a number; the least length that a record may state; the most bytes that stand before a payload.
pub const NUMBER_WIDTH: usize = 2;

const LEAST_STATED: usize = 3;

pub const FIELDS_MOST: usize = LONG_WIDTH + NUMBER_WIDTH;

// A train's head: its version, and the width of its length fields.
// Both stay numbers: they cross the C interface, where any width may come, and all but 4 count as 2.
#[derive(Clone, Copy)]
pub struct TrainHead {
    pub version: u8,
    pub width: usize,
}

// What stands before a payload: the packet's number, and how many bytes the payload has.
#[derive(Clone, Copy)]
pub struct RecordFields {
    pub number: u16,
    pub length: usize,
}

// A record: its number, and where its payload starts and how long it is.
#[derive(Clone, Copy)]
pub struct RecordHead {
    pub number: u16,
    pub start: usize,
    pub length: usize,
}

// The heads of the two versions.
const SHORT_HEAD: TrainHead = TrainHead {
    version: SHORT_VERSION,
    width: SHORT_WIDTH,
};

const LONG_HEAD: TrainHead = TrainHead {
    version: LONG_VERSION,
    width: LONG_WIDTH,
};

// The head of a file.
#[tactic(auto, unfolding(crate::specs::Train::head_of, crate::specs::Train::head_with))]
pub fn read_head(bytes: &[u8]) -> Result<TrainHead, Refusal>
    ensures { paper result ≡ head_of bytes.now }
{
    match bytes.first() {
        Some(&SHORT_VERSION) => Ok(SHORT_HEAD),
        Some(&LONG_VERSION) => Ok(LONG_HEAD),
        _ => Err(Refusal::TrainVersion),
    }
}

// The head of a train whose payloads have at most so many bytes.
pub fn head_for(most: usize) -> TrainHead
    ensures { result ≡ head_for most }
{
    if SHORT_PAYLOAD < most {
        LONG_HEAD
    } else {
        SHORT_HEAD
    }
}

// The width that a number given from outside counts as.
fn counted_width(width: usize) -> usize
    ensures { result ≡ counted_width width }
{
    if width == LONG_WIDTH {
        LONG_WIDTH
    } else {
        SHORT_WIDTH
    }
}

// What stands before a payload, with a length field of this width, at the front of some bytes, or what there is of it. Any width but 4
// counts as 2.
#[tactic(auto, unfolding(crate::specs::Train::fields_of))]
pub fn read_fields(bytes: &[u8], width: usize) -> Result<Option<RecordFields>, Refusal>
    ensures { paper_fields result ≡ fields_of (counted_width width) bytes.now }
{
    let counted = counted_width(width);
    if bytes.is_empty() {
        return Ok(None);
    }
    if bytes.len() < counted {
        return Err(Refusal::TrainCut);
    }
    let stated = number_at(bytes, 0, counted);
    if stated < LEAST_STATED {
        return Err(Refusal::RecordTooShort);
    }
    if bytes.len() < counted + NUMBER_WIDTH {
        return Err(Refusal::TrainCut);
    }
    let number = number_at(bytes, counted, NUMBER_WIDTH);
    Ok(Some(RecordFields {
        number: number as u16,
        length: stated - NUMBER_WIDTH,
    }))
}

// The record that begins at `at`, in a train with length fields of this width. Any width but 4 counts as 2.
#[tactic(auto, using(crate::proofs::Reading::record_at), unfolding(crate::specs::Train::held_by))]
pub fn read_record(bytes: &[u8], width: usize, at: usize) -> Result<Option<RecordHead>, Refusal>
    ensures { paper_record result ≡ front_of (counted_width width) at (drop at bytes.now) }
{
    if bytes.len() <= at {
        return Ok(None);
    }
    let Some(fields) = read_fields(&bytes[at..], width)? else {
        return Ok(None);
    };
    let start = at + counted_width(width) + NUMBER_WIDTH;
    if bytes.len() - start < fields.length {
        return Err(Refusal::TrainCut);
    }
    Ok(Some(RecordHead {
        number: fields.number,
        start,
        length: fields.length,
    }))
}

// Writes a length field of this width and a number at the cursor `at`, and returns the cursor after them.
fn put_fields(out: &mut [u8], at: usize, width: usize, stated: usize, number: u16) -> usize
    requires { at + width + number_width ≤ length out.old }
    ensures { Put out.old out.new at result (record_fields width stated number) }
{
    let after = put_number(out, at, width, stated);
    put_number(out, after, NUMBER_WIDTH, number as usize)
}

// What stands before a payload: the stated length, of which a field of this width has room for the low bytes, and the number. Any width
// but 4 counts as 2; the other bytes of `head` stay. Any length is written, 0 to 2 too, though no reader takes such a record (R23): a
// payload of n bytes, 1 or more, states n + 2.
pub fn record_head(stated: u32, number: u16, width: usize, head: &mut [u8; FIELDS_MOST])
    ensures { head.new ≡ front (record_fields (counted_width width) stated number) head.old }
{
    let counted = counted_width(width);
    put_fields(head, 0, counted, stated as usize, number);
}

// Writes what stands before a payload of so many bytes, with a length field of this width, at the cursor `at`, and returns the cursor
// after it.
// Helper: `out` must have space for it, and the field must be able to state the length of number and payload.
pub fn put_record_head(out: &mut [u8], at: usize, width: usize, number: u16, size: usize) -> usize
    requires { Writable out.old at width size }
    ensures { Put out.old out.new at result (record_fields width (number_width + size) number) }
{
    put_fields(out, at, width, NUMBER_WIDTH + size, number)
}
