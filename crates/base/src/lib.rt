// What every other crate stands on: the refusals by name, with their numbers and words, numbers stored in a lent flat list or compared
// with it, the smaller of two numbers, and bytes copied.
#![tactic(auto)]

pub mod big_endian;

ghost use Rattle.std.specs.Prelude.{◌≡◌, ◌+◌, ◌≤◌, min, length, take, drop};
ghost use Rattle.std.proofs.lemmas.List.Edits.{sets};
ghost use Rattle.base.specs.Lists.{is_front, Put};
ghost use Rattle.base.specs.Refusals.{number_of};
ghost use Rattle.base.specs.Words.{words_of, words_most};
ghost use Rattle.base.specs.Inside.{line_from};

// The refusals, each with its number.
#[derive(Clone, Copy, Debug, PartialEq, Eq)]
pub enum Refusal {
    MtuOverLimit = 1,
    UnitOverLimit = 2,
    ExtensionMissing = 3,
    SizeMissing = 4,
    SizeUnfinished = 5,
    SizeTooLarge = 6,
    PayloadPastUnit = 7,
    ObuListFull = 8,
    PlanListFull = 9,
    NoRoomForPayloads = 10,
    NoUsablePacket = 11,
    StateImpossible = 12,
    PayloadLength = 13,
    NotAhead = 14,
    NewWithContinuation = 15,
    ElementLengthBad = 16,
    ElementBad = 17,
    ObuBroken = 18,
    FragmentTooLong = 19,
    NoRoomForObus = 20,
    TrainVersion = 21,
    TrainCut = 22,
    RecordTooShort = 23,
    HeaderShort = 24,
    ExtensionShort = 25,
    ExtensionElementPastBlock = 26,
    FieldOutOfRange = 27,
    HeaderSpaceShort = 28,
    NestedSizeUnreadable = 29,
    NestedSizeMisfit = 30,
    ListsDiffer = 31,
    SumTooLarge = 32,
    MtuBelowHeader = 33,
    TimeOutOfRange = 34,
    FrameEndsWrong = 35,
    ContinuesNothing = 36,
    OpenNotContinued = 37,
    SizeBitSent = 38,
    ElementLengthPadded = 39,
    DroppedTypeSent = 40,
}

// A refusal, and the place that it carries.
#[derive(Clone, Copy, Debug, PartialEq, Eq)]
pub struct RefusedAt {
    pub refusal: Refusal,
    pub at: usize,
}

// A refusal that is of no place carries 0.
impl From<Refusal> for RefusedAt {
    ghost from_gives = { λ refusal it. it ≡ record { refusal = refusal; at = 0 } };

    fn from(refusal: Refusal) -> RefusedAt {
        RefusedAt { refusal, at: 0 }
    }
}

// The number of a refusal, by the one definition that contracts cite.
pub fn number(refusal: Refusal) -> u32
    ensures { result ≡ number_of refusal }
{
    refusal as u32
}

// Stores numbers in a flat list from place `at` on.
// Helper: the list must have these places.
pub fn put_numbers(list: &mut [u32], at: usize, numbers: &[u32])
    requires { at + length numbers.now ≤ length list.old }
    ensures { list.new ≡ sets list.old at numbers.now }
{
    // A loop: of a few numbers, `copy_from_slice` takes more than twice the instructions.
    for i in 0..numbers.len() {
        list[at + i] = numbers[i];
    }
}

// Whether a flat list has these numbers from place `at` on.
pub fn same_numbers(list: &[u32], at: usize, numbers: &[u32]) -> bool
    ensures { result ≡ is_front numbers.now (drop at list.now) }
{
    list[at.min(list.len())..].starts_with(numbers)
}

// The smaller of two numbers.
pub fn smaller(a: usize, b: usize) -> usize
    ensures { result ≡ min a b }
{
    a.min(b)
}

// Copies the n bytes of `from` at `start` to the cursor `at` of `to`, and returns the cursor after them.
// Helper: `from` must have the n bytes, and `to` the space for them.
pub fn copy_bytes(from: &[u8], start: usize, n: usize, to: &mut [u8], at: usize) -> usize
    requires { (start + n ≤ length from.now) × (at + n ≤ length to.old) }
    ensures { (result ≡ at + n) × (to.new ≡ sets to.old at (take n (drop start from.now))) }
{
    to[at..at + n].copy_from_slice(&from[start..start + n]);
    at + n
}

// A text at the cursor `at`, and the cursor after it.
// Helper: `out` must have the space.
pub fn put_text(text: &[u8], out: &mut [u8], at: usize) -> usize
    requires { at + length text.now ≤ length out.old }
    ensures { Put out.old out.new at result text.now }
{
    copy_bytes(text, 0, text.len(), out, at)
}

// The words of the refusals, a line each; line 0 is nobody's.
const WORDS: &[u8] = b"\n\
    the mtu is over its limit\n\
    the unit is over its limit\n\
    an OBU's extension byte is missing\n\
    an OBU's size field is missing\n\
    the unit ends inside a size field\n\
    a size field is too long or its value too large\n\
    an OBU runs past the end of the unit\n\
    the OBU list is full\n\
    the plan list is too short\n\
    the output is too short for the payloads\n\
    no such packet, or its record does not fit\n\
    the state does not fit its store\n\
    the payload is empty or over its limit\n\
    the number is not ahead\n\
    N and Z are both set\n\
    an element's length field is bad or missing\n\
    an element is empty, missing or past the end\n\
    a finished OBU is not well formed\n\
    the open fragment is too long\n\
    the output is too short for the OBUs\n\
    no train of a known version\n\
    the train ends inside a record\n\
    a record's length is below 3\n\
    the RTP header is cut short\n\
    the header extension is cut short\n\
    an extension element runs past its block\n\
    a header field is out of range\n\
    the buffer or a list is too short for the header\n\
    a size does not end within its outer one\n\
    an OBU length is 0 or a size runs past its outer one\n\
    the list or the plan is not that of this unit\n\
    a sum is over its limit\n\
    the mtu is too small for an RTP header\n\
    the time is out of range\n\
    the ends of frame units are not those of OBUs\n\
    Z is set and nothing is open in step\n\
    Z is clear and an element is open in step\n\
    a finished OBU has its size bit set\n\
    an element's length field is padded\n\
    a finished OBU is of a dropped type\n";

// Line n of a text at the cursor `at`, and the cursor after it.
fn put_line_of(text: &[u8], n: u32, out: &mut [u8], at: usize) -> usize
    requires { at + length text.now ≤ length out.old }
    ensures { Put out.old out.new at result (line_from n 0 text.now) }
{
    let mut line: u64 = 0;
    let mut to = at;
    for &b in text {
        if b == b'\n' {
            line += 1;
        } else if line == n as u64 {
            out[to] = b;
            to += 1;
        }
    }
    to
}

// The words of a refusal, by its number, at the cursor `at`, and the cursor after them; none for a number that no refusal has.
// Helper: `out` must have space for 1,410 bytes, those of all words together.
pub fn put_words(number: u32, out: &mut [u8], at: usize) -> usize
    requires { at + words_most ≤ length out.old }
    ensures { Put out.old out.new at result (words_of number) }
{
    put_line_of(WORDS, number, out, at)
}
