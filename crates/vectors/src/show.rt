// What answers are made of: records in decimal, and bytes in hexadecimal capitals.
ghost use Rattle.std.specs.Prelude.{◌≤◌, ◌<◌, length};

use base::{Refusal, RefusedAt};
use std::io;

// How many bytes are printed at once, and how many digits they have.
const CHUNK: usize = 2048;

const DIGITS: usize = 2 * CHUNK;

// A refusal by its number.
pub fn refusal(rt: &impl Print, refused: Refusal) -> io::Result<()> {
    print!(rt; "refused {}", base::number(refused))
}

// A refusal, and its offset.
pub fn refusal_at(rt: &impl Print, refused: RefusedAt) -> io::Result<()> {
    refusal(rt, refused.refusal)?;
    print!(rt; " {}", refused.at)
}

// What stands before number k of a list of records: a blank before the first, a semicolon between records, a comma inside them.
fn mark(k: usize, width: usize) -> &'static str
    requires { 1 ≤ width }
{
    if k == 0 {
        " "
    } else if k % width == 0 {
        ";"
    } else {
        ","
    }
}

// The records of a list, each of so many numbers.
// Helper: a record must have a number.
pub fn records(rt: &impl Print, list: &[u32], width: usize) -> io::Result<()>
    requires { 1 ≤ width }
{
    for (k, n) in list.iter().enumerate() {
        print!(rt; "{}{n}", mark(k, width))?;
    }
    Ok(())
}

// What stands before a header or a payload: a blank before the first, a comma before any other.
pub fn between(rt: &impl Print, k: usize) -> io::Result<()> {
    print!(rt; "{}", if k == 0 { " " } else { "," })
}

// A hexadecimal digit, in capitals.
// `planlist` has its own, for which it proves more than a gate needs.
fn letter(d: u8) -> u8
    requires { d < 16 }
{
    if d < 10 { b'0' + d } else { b'A' - 10 + d }
}

// The digits of some bytes, as far as there is space: how many there are.
fn put_digits(bytes: &[u8], text: &mut [u8]) -> usize
    ensures { result ≤ length text.new }
{
    let n = bytes.len().min(text.len() / 2);
    for i in 0..n {
        text[i * 2] = letter(bytes[i] / 16);
        text[i * 2 + 1] = letter(bytes[i] % 16);
    }
    n * 2
}

// Some bytes. Their digits are put together and printed at once, since to print each byte alone took much longer.
pub fn hex(rt: &impl Print, bytes: &[u8]) -> io::Result<()> {
    for part in bytes.chunks(CHUNK) {
        let mut digits = [0u8; DIGITS];
        let n = put_digits(part, &mut digits);
        rt.write_all(&digits[..n])?;
    }
    Ok(())
}
