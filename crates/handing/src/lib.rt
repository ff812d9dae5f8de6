// OBUs that lie across store and payload (V8 to V12, F6, R18): judged, counted and handed out.
#![tactic(auto)]

mod obu_bytes; // obu_bytes.rt: the bytes of an OBU

ghost use Rattle.std.specs.Prelude.{◌≡◌, ◌+◌, ◌≤◌, Bool, true, false, cond, length, drop};
ghost use Rattle.base.specs.Lists.{replaced};
ghost use Rattle.base.specs.Answers.{paper};
ghost use Rattle.obu.specs.Front.{start_of, span_of};
ghost use Rattle.obu.specs.Wire.{framed, wire};
ghost use Rattle.obu.specs.Paper.{paper_head};
ghost use Rattle.handing.specs.Handing.{wires};
ghost use Rattle.handing.specs.Inside.{counted_one, counted_all, RoomAt, put_at, put_first, Finishing};
ghost use Rattle.handing.specs.Paper.{all_of};

use base::Refusal;
use obu::Head;
use obu_bytes::Across;

// The most bytes of an open fragment.
pub const FRAGMENT_LIMIT: usize = 1048576;

// What goes out for finished OBUs: how many bytes; and how many padded size fields they had, those of dropped types too.
// By default nothing.
#[derive(Clone, Copy, Default)]
pub struct Handed {
    pub bytes: usize,
    pub padded: usize,
}

// What becomes of an OBU that goes out: header bytes, shortest size field, payload.
trait Output {
    ghost written: { Bool };

    // Takes it, to stand from `at` on.
    fn put(o: Across, head: Head, out: &mut [u8], at: usize)
        requires spans { span_of (paper_head head) ≡ length (all_of o) }
        requires fits { written ≡ true → at + length (framed head.header head.extension (drop (start_of (paper_head head)) (all_of o))) ≤ length out.old }
        ensures { out.new ≡ cond written (replaced out.old at (framed head.header head.extension (drop (start_of (paper_head head)) (all_of o.entry)))) out.old };
}

// It is counted, and no more.
struct Counted;

impl Output for Counted {
    ghost written = { false };

    fn put(_o: Across, _head: Head, _out: &mut [u8], _at: usize) {}
}

// It is written.
struct Written;

impl Output for Written {
    ghost written = { true };

    fn put(o: Across, head: Head, out: &mut [u8], at: usize) {
        let field = obu::put_header(out, at, head.header, head.extension);
        let body = leb128::put_leb128(out, field, head.payload as u32);
        o.copy(obu::header_size(head.header) + head.field, out, body);
    }
}

// One finished OBU: judged, counted, and put at the cursor `at`.
fn finish_obu<O: Output>(o: Across, out: &mut [u8], at: usize) -> Result<Handed, Refusal>
    requires { O.written ≡ true → RoomAt (length out.old) at (wire (all_of o)) }
    ensures { (paper result ≡ counted_one (all_of o.entry)) × (out.new ≡ cond O.written (put_at out.old at (wire (all_of o.entry))) out.old) }
{
    let head = o.judge()?;
    let field = leb128::leb128_size(head.payload as u32);
    let padded = usize::from(field < head.field);
    if obu::should_ignore_obu_type(obu::obu_type(head.header)) {
        return Ok(Handed { bytes: 0, padded });
    }
    O::put(o, head, out, at);
    let bytes = obu::header_size(head.header) + field + head.payload;
    Ok(Handed { bytes, padded })
}

// Elements `from` up to `to` of a payload, each finishing an OBU: the first begins at `cursor`, and has `joined` bytes of the store in front.
#[derive(Clone, Copy)]
pub struct FinishedObus<'a> {
    pub payload: &'a [u8],
    pub cursor: usize,
    pub from: usize,
    pub to: usize,
    pub store: &'a [u8],
    pub joined: usize,
    ghost finishing: { Finishing payload.now cursor from to store.now joined },
}

impl FinishedObus<'_> {
    ghost use Rattle.handing.specs.Finished.{obus_of};

    // Each is counted, and put into the output: one loop for both outputs, so that what is written is what was counted.
    fn hand_out<O: Output>(self, out: &mut [u8]) -> Result<Handed, Refusal>
        requires { O.written ≡ true → RoomAt (length out.old) 0 (wires (obus_of self)) }
        ensures { (paper result ≡ counted_all (obus_of self.entry)) × (out.new ≡ cond O.written (put_first out.old (wires (obus_of self.entry))) out.old) }
    {
        let w = element::header_w(self.payload[0]);
        let mut at = self.cursor;
        let mut kept = self.joined;
        let mut sum = Handed::default();
        for i in self.from..self.to {
            let part = element::part_at(self.payload, at, element::has_field(w, i));
            let o = Across {
                stored: &self.store[..kept],
                element: &self.payload[part.start..part.next],
            };
            let one = finish_obu::<O>(o, out, sum.bytes)?;
            sum.bytes += one.bytes;
            sum.padded += one.padded;
            kept = 0;
            at = part.next;
        }
        Ok(sum)
    }

    // How many bytes go out for them, and their padded size fields. Most packets of a long OBU finish none.
    pub fn count(self) -> Result<Handed, Refusal>
        ensures { paper result ≡ counted_all (obus_of self.entry) }
    {
        if self.to <= self.from {
            return Ok(Handed::default());
        }
        self.hand_out::<Counted>(&mut [])
    }

    // Writes them first into the output.
    // Helper: `count` must have given no refusal, and the output must have the space.
    pub fn write(self, out: &mut [u8])
        requires { RoomAt (length out.old) 0 (wires (obus_of self)) }
        ensures { out.new ≡ put_first out.old (wires (obus_of self.entry)) }
    {
        if self.to <= self.from {
            return;
        }
        // it was counted, so there is no refusal
        let _ = self.hand_out::<Written>(out);
    }
}
