// N: whether a unit begins a new coded video sequence (H5), by one OBU after the other up to the first frame header.
ghost use Rattle.std.specs.Prelude.{◌≡◌, ◌+◌, ◌≤◌, ◌<◌, false, length};
ghost use Rattle.obu.specs.Records.{obus_in};
ghost use Rattle.aggregation.specs.New.{temporal_id, shown_key, new_sequence};
ghost use Rattle.aggregation.specs.Header.{outside, any_outside};
ghost use Rattle.aggregation.specs.Inside.{settled, is_new, is_outside, opens, seen_sequence, seen_frame, seen_inside, seen_next, seen_after};
ghost use Rattle.aggregation.specs.declared.Seen.TheVariants.{Nothing};

use crate::Seen;
use obu::Obu;

// The types of a sequence header, of a frame header alone, and of one at the front of its frame.
const OBU_TYPE_SEQUENCE_HEADER: u8 = 1;

const OBU_TYPE_FRAME_HEADER: u8 = 3;

const OBU_TYPE_FRAME: u8 = 6;

impl Seen {
    // N is set.
    pub fn is_new(self) -> bool
        ensures { result ≡ is_new self }
    {
        matches!(self, Seen::New)
    }

    pub fn is_outside(self) -> bool
        ensures { result ≡ is_outside self }
    {
        matches!(self, Seen::Outside)
    }

    // No OBU that comes can change it, but one outside the unit.
    fn is_settled(self) -> bool
        ensures { result ≡ settled self }
    {
        matches!(self, Seen::Clear | Seen::New | Seen::Outside)
    }
}

// The payload does not lie in the unit.
fn is_outside(unit: &[u8], o: Obu) -> bool
    ensures { result ≡ outside unit.now o }
{
    o.start as usize + o.length as usize > unit.len()
}

// The top three bits of the extension byte, 0 where there is none.
fn temporal_id(o: Obu) -> u8
    ensures { result ≡ temporal_id o }
{
    if obu::obu_has_extension(o.header) {
        o.extension >> 5
    } else {
        0
    }
}

// A frame header's first byte: show_existing_frame 0, frame_type 0, show_frame 1.
fn shown_key(b: u8) -> bool
    ensures { result ≡ shown_key b }
{
    b >> 4 == 1
}

// A sequence header: bit 4 of its first byte, from the top, is reduced_still_picture_header.
fn see_sequence(unit: &[u8], s: Obu) -> Seen
    requires { s.start + s.length ≤ length unit.now }
    ensures { result ≡ seen_sequence unit.now s }
{
    if s.length == 0 {
        return Seen::Nothing;
    }
    if unit[s.start as usize] & 8 != 0 {
        Seen::Reduced
    } else {
        Seen::Plain
    }
}

// Whether a frame header with a payload begins a new sequence, by what was seen of the last sequence header before it.
fn is_opening(unit: &[u8], seen: Seen, f: Obu) -> bool
    requires { f.start < length unit.now }
    ensures { result ≡ opens unit.now seen f }
{
    match seen {
        Seen::Plain => shown_key(unit[f.start as usize]),
        Seen::Reduced => true,
        _ => false,
    }
}

// The first frame header.
fn see_frame(unit: &[u8], seen: Seen, f: Obu) -> Seen
    requires { f.start + f.length ≤ length unit.now }
    ensures { result ≡ seen_frame unit.now seen f }
{
    if f.length > 0 && temporal_id(f) == 0 && is_opening(unit, seen, f) {
        Seen::New
    } else {
        Seen::Clear
    }
}

// One OBU more, which lies in the unit.
fn see_inside(unit: &[u8], seen: Seen, o: Obu) -> Seen
    requires { o.start + o.length ≤ length unit.now }
    ensures { result ≡ seen_inside unit.now seen o }
{
    if seen.is_settled() {
        return seen;
    }
    match obu::obu_type(o.header) {
        OBU_TYPE_SEQUENCE_HEADER => see_sequence(unit, o),
        OBU_TYPE_FRAME_HEADER | OBU_TYPE_FRAME => see_frame(unit, seen, o),
        _ => seen,
    }
}

// One OBU more.
pub fn see(unit: &[u8], seen: Seen, o: Obu) -> Seen
    ensures { result ≡ seen_next unit.now seen o }
{
    if is_outside(unit, o) {
        return Seen::Outside;
    }
    see_inside(unit, seen, o)
}

// What all OBUs of a flat list say.
pub fn seen_in(unit: &[u8], obus: &[u32]) -> Seen
    ensures { result ≡ seen_after unit.now Nothing (obus_in obus.now) }
{
    let n = obus.len() / obu::OBU_NUMBERS;
    let mut seen = Seen::Nothing;
    for i in 0..n {
        seen = see(unit, seen, obu::obu_at(obus, i));
    }
    seen
}

// Whether a unit with the OBUs of a flat list begins a new sequence; what stands behind the first frame header is not looked at.
// Helper: no OBU of the list may lie outside the unit.
pub fn begins(unit: &[u8], obus: &[u32]) -> bool
    requires { any_outside unit.now (obus_in obus.now) ≡ false }
    ensures { result ≡ new_sequence unit.now (obus_in obus.now) }
{
    let n = obus.len() / obu::OBU_NUMBERS;
    let mut seen = Seen::Nothing;
    for i in 0..n {
        seen = see_inside(unit, seen, obu::obu_at(obus, i));
        if seen.is_settled() {
            return seen.is_new();
        }
    }
    false
}
