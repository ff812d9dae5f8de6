// Numbers as bytes, the highest first, over how many bytes they have.
ghost use Rattle.std.specs.Prelude.{◌+◌, ◌≤◌, length};
ghost use Rattle.base.specs.Lists.{Put};
ghost use Rattle.base.specs.BigEndian.{big_endian, Readable, Reads};

// The number that the `width` bytes at `at` form.
// Helper: these bytes must be there, and be 8 at most.
pub fn number_at(bytes: &[u8], at: usize, width: usize) -> usize
    requires { Readable bytes.now at width }
    ensures { Reads bytes.now at width result }
{
    let mut value: usize = 0;
    for &byte in &bytes[at..at + width] {
        value = value * 256 + byte as usize;
    }
    value
}

// Writes the low `width` bytes of a number at the cursor `at`, and returns the cursor after them.
// Helper: `out` must have the space.
pub fn put_number(out: &mut [u8], at: usize, width: usize, value: usize) -> usize
    requires { at + width ≤ length out.old }
    ensures { Put out.old out.new at result (big_endian width value) }
{
    let mut high = value;
    for i in (0..width).rev() {
        out[at + i] = (high % 256) as u8;
        high /= 256;
    }
    at + width
}
