// Size fields (leb128): seven bits a byte, least first, the top bit set on every byte but the last (F1 to F6).
#![tactic(auto)]

ghost use Rattle.std.specs.Prelude.{◌≡◌, ◌+◌, ◌≤◌, ◌<◌, length};
ghost use Rattle.base.specs.Lists.{replaced};
ghost use Rattle.leb128.specs.Field.{field_in, encode, longest_field, is_padded, size_answer};
ghost use Rattle.base.specs.Answers.{paper};
ghost use Rattle.leb128.specs.Paper.{paper_tail, of_two};

use base::Refusal;

// The most bytes that a size field may have, and the largest value.
const LONGEST_FIELD: usize = 8;

const LARGEST_VALUE: u64 = 4294967295;

// A size field that was read: its value, the bytes that it takes, and whether they are its shortest form.
#[derive(Clone, Copy, Debug, PartialEq, Eq)]
pub struct SizeField {
    pub value: u32,
    pub used: usize,
    pub shortest: bool,
}

// The same before the test of the value.
#[derive(Clone, Copy)]
struct Tail {
    value: u64,
    used: usize,
}

// The rest of a size field of which `left` bytes may still come.
fn read_tail(bytes: &[u8], left: usize) -> Result<Tail, Refusal>
    requires { left ≤ longest_field }
    ensures { paper_tail result ≡ field_in left bytes.now }
{
    if left == 0 {
        return Err(Refusal::SizeTooLarge);
    }
    let [first, rest @ ..] = bytes else {
        return Err(Refusal::SizeUnfinished);
    };
    let low = (*first & 127) as u64;
    if *first < 128 {
        return Ok(Tail {
            value: low,
            used: 1,
        });
    }
    let tail = read_tail(rest, left - 1)?;
    Ok(Tail {
        value: low + 128 * tail.value,
        used: tail.used + 1,
    })
}

// The size field of these two bytes, the first with its top bit set and the second without.
fn of_two(first: u8, second: u8) -> SizeField
    requires { second < 128 }
    ensures { result ≡ of_two first second }
{
    let low = (first & 127) as u32;
    let high = second as u32;
    SizeField {
        value: low + 128 * high,
        used: 2,
        shortest: high > 0,
    }
}

// Reads the size field at the front of `bytes`: one of one byte or two, as most are, at once.
pub fn read_leb128(bytes: &[u8]) -> Result<SizeField, Refusal>
    ensures { paper result ≡ size_answer bytes.now }
{
    match *bytes {
        [first, ..] if first < 128 => {
            return Ok(SizeField {
                value: first as u32,
                used: 1,
                shortest: true,
            });
        }
        [first, second, ..] if second < 128 => return Ok(of_two(first, second)),
        _ => {}
    }
    let tail = read_tail(bytes, LONGEST_FIELD)?;
    // A test and a cast: with `try_from` every call takes an instruction more.
    if tail.value > LARGEST_VALUE {
        return Err(Refusal::SizeTooLarge);
    }
    let value = tail.value as u32;
    Ok(SizeField {
        value,
        used: tail.used,
        shortest: !is_padded(value, tail.used),
    })
}

// The bytes that the shortest form of `value` takes.
pub fn leb128_size(value: u32) -> usize
    ensures { result ≡ length (encode value) }
{
    let mut size: usize = 1;
    let mut rest = value;
    while rest >= 128 {
        size += 1;
        rest >>= 7;
    }
    size
}

// Whether a value in so many bytes is padded: its shortest form has fewer. One byte, as most fields have, never is, nor is no field.
pub fn is_padded(value: u32, used: usize) -> bool
    ensures { result ≡ is_padded value used }
{
    used >= 2 && leb128_size(value) < used
}

// Writes the shortest form of `value` at the cursor `at`, and returns the cursor after it.
// Helper: `out` must have the space.
pub fn put_leb128(out: &mut [u8], at: usize, value: u32) -> usize
    requires { at + length (encode value) ≤ length out.old }
    ensures { (result ≡ at + length (encode value)) × (out.new ≡ replaced out.old at (encode value)) }
{
    // `while`: how many bytes there are is known once the value is used up.
    let mut i = at;
    let mut rest = value;
    while rest >= 128 {
        out[i] = ((rest & 127) | 128) as u8;
        i += 1;
        rest >>= 7;
    }
    out[i] = rest as u8;
    i + 1
}
