// What is printed (G9 to G11): two numbers behind their words, and the line of a packet.
// A cursor stands beside the bytes, and nothing is displayed: each byte is promised.
ghost use Rattle.std.specs.Prelude.{◌≡◌, ◌+◌, ◌*◌, ◌≤◌, ◌<◌, length};
ghost use mathlib.Core.List.{flat_map};
ghost use Rattle.base.specs.Lists.{Put};
ghost use Rattle.obu.specs.Records.{obus_in};
ghost use Rattle.packetizer.specs.Records.{plan_numbers, packets_in};
ghost use Rattle.aggregation.specs.Header.{Headed};
ghost use Rattle.turns.specs.Text.{most_digits};
ghost use Rattle.listing.specs.Row.{row_of, capital, column, two_digits, row_text};
ghost use Rattle.listing.specs.Listing.{two_numbers};
ghost use Rattle.listing.specs.Steps.{Printed};

use crate::Row;
use turns::LINE_BYTES;

// The line of packet k. Its numbers are copied one by one, since a `Row` has them as the listing does, and not as a plan list does.
// Helper: the plan must have a whole record k, and the header call give a header for it.
pub fn row_at(unit: &[u8], obus: &[u32], plan: &[u32], k: usize) -> Row
    requires plan_numbers_in_bounds { (k + 1) * plan_numbers ≤ length plan.now }
    requires headed { Headed unit.now (obus_in obus.now) (packets_in plan.now) k }
    ensures { result ≡ row_of unit.now (obus_in obus.now) (packets_in plan.now) k }
{
    let p = packetizer::packet_at(plan, k);
    let new = aggregation::new_at(unit, obus, k);
    let header = aggregation::header_byte(obus, plan, k, new);
    Row {
        packet: k,
        first_obu: p.first_obu_index,
        elements: p.num_obu_elements,
        first_offset: p.first_obu_offset,
        last_size: p.last_obu_size,
        packet_size: p.packet_size,
        header,
        start: p.payload_start,
    }
}

// A hexadecimal digit, in capitals.
// `vectors` has its own: it stands beside the library, and this digit is promised by a definition of `planlist`.
fn hex_digit(d: u8) -> u8
    requires { d < 16 }
    ensures { result ≡ capital d }
{
    if d < 10 { b'0' + d } else { b'A' + (d - 10) }
}

// A byte as two digits at the cursor `at`, and the cursor after it.
fn put_byte(b: u8, out: &mut [u8], at: usize) -> usize
    requires { at + 2 ≤ length out.old }
    ensures { Put out.old out.new at result (two_digits b) }
{
    let digits = [hex_digit(b / 16), hex_digit(b % 16)];
    base::put_text(&digits, out, at)
}

// A number and the blank after it, at the cursor `at`, and the cursor after them.
fn put_column(n: u64, out: &mut [u8], at: usize) -> usize
    requires { at + most_digits + 1 ≤ length out.old }
    ensures { Put out.old out.new at result (column n) × (result ≤ at + most_digits + 1) }
{
    let blank = turns::put_decimal(n, out, at);
    base::put_text(b" ", out, blank)
}

// Numbers, each with the blank after it, at the front of the bytes lent, and the cursor after them.
fn put_columns(numbers: &[u64], out: &mut [u8]) -> usize
    requires { length numbers.now * (most_digits + 1) ≤ length out.old }
    ensures { Put out.old out.new 0 result (flat_map column numbers.now)
        × (result ≤ length numbers.now * (most_digits + 1)) }
{
    let mut at = 0;
    for n in numbers {
        at = put_column(*n, out, at);
    }
    at
}

// The line of a packet at the front of the bytes lent, and how many it has.
pub fn put_row(row: Row, out: &mut [u8; LINE_BYTES]) -> usize
    ensures { Printed (row_text row) result out.old out.new }
{
    // `as` for all: there is no `From` from `usize`
    let numbers = [
        row.packet as u64,
        row.first_obu as u64,
        row.elements as u64,
        row.first_offset as u64,
        row.last_size as u64,
        row.packet_size as u64,
    ];
    let header = put_columns(&numbers, out);
    let behind = put_byte(row.header, out, header);
    let end = turns::put_labelled(b" ", row.start as u64, out, behind);
    base::put_text(b"\n", out, end)
}

// Two numbers, each behind its few words, at the front of the bytes lent, and how many bytes they take.
// Helper: the words must have together at most 100 bytes.
pub fn put_two(first: &[u8], m: u64, second: &[u8], n: u64, out: &mut [u8; LINE_BYTES]) -> usize
    requires { length first.now + length second.now ≤ 100 }
    ensures { Printed (two_numbers first.now m second.now n) result out.old out.new }
{
    let behind = turns::put_labelled(first, m, out, 0);
    let end = turns::put_labelled(second, n, out, behind);
    base::put_text(b"\n", out, end)
}
