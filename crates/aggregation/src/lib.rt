// The aggregation header of packet k (H1 to H8, R11): one rule, from flat lists of numbers and from slices of records.
#![tactic(auto)]

mod sequence;

ghost use Rattle.std.specs.Prelude.{◌≡◌, ℕ, ◌*◌, false, cond, ◌&&◌, List, get_or, eqb};
ghost use Rattle.base.specs.Answers.{given, refused, paper};
ghost use Rattle.obu.specs.Records.{no_obu, obus_in};
ghost use Rattle.obu.specs.declared.Obu.{Obu as ObuRecord};
ghost use Rattle.packetizer.specs.Records.{no_packet, packets_in};
ghost use Rattle.aggregation.specs.New.{new_sequence};
ghost use Rattle.aggregation.specs.Header.{last_obu, z_of, y_of, w_of, byte_of, lacking, any_outside, header_of, Headed};
ghost use Rattle.aggregation.specs.Inside.{seen_after};
ghost use Rattle.aggregation.specs.declared.Seen.TheVariants.{Nothing};

use base::Refusal;
use obu::Obu;
use packetizer::{MAX_NUM_OBUS_TO_OMIT_SIZE, PacketMetadata};

// What the OBUs up to one say of N.
#[derive(Clone, Copy)]
enum Seen {
    // no frame header yet, and no sequence header with a payload: the last has none, or there is none
    Nothing,
    // no frame header yet, and a sequence header with a payload: reduced_still_picture_header is 0 in the last, or 1
    Plain,
    Reduced,
    // the first frame header: N is clear, or set
    Clear,
    New,
    // an OBU outside the unit
    Outside,
}

// Z: the first element goes on with an OBU that began before.
fn z_bit(p: PacketMetadata) -> u8
    ensures { result ≡ z_of p }
{
    if p.first_obu_offset > 0 { 1 << 7 } else { 0 }
}

// Y: the last element ends before its OBU, of this size, does.
fn y_bit(p: PacketMetadata, size: u32) -> u8
    ensures { result ≡ y_of p size }
{
    let start = if p.num_obu_elements == 1 {
        p.first_obu_offset as u64
    } else {
        0
    };
    if start + (p.last_obu_size as u64) < (size as u64) {
        1 << 6
    } else {
        0
    }
}

// W, in its place: how many elements, 0 for four or more.
fn w_bits(p: PacketMetadata) -> u8
    ensures { result ≡ 16 * w_of p }
{
    if p.num_obu_elements <= MAX_NUM_OBUS_TO_OMIT_SIZE {
        (p.num_obu_elements as u8) << 4
    } else {
        0
    }
}

// N, in its place.
fn n_bit(new: bool) -> u8
    ensures { result ≡ cond new 8 0 }
{
    if new { 1 << 3 } else { 0 }
}

// The header of a packet, whose record is p: `size` is that of its last element's OBU, and `new` says whether N is set.
fn header_bits(p: PacketMetadata, size: u32, new: bool) -> u8
    ensures { (unit : List ℕ) (obus : List ObuRecord) (k : ℕ) → size ≡ (get_or obus (last_obu p) no_obu).size
        → new ≡ (eqb k 0 && new_sequence unit obus) → result ≡ byte_of unit obus p k }
{
    z_bit(p) | y_bit(p, size) | w_bits(p) | n_bit(new)
}

// The same as an answer for packet k, by what all OBUs say of N.
fn rule(p: PacketMetadata, size: u32, seen: Seen, k: usize) -> Result<u8, Refusal>
    ensures { (unit : List ℕ) (obus : List ObuRecord) → size ≡ (get_or obus (last_obu p) no_obu).size
        → seen ≡ seen_after unit Nothing obus → paper result ≡ cond (any_outside unit obus) (refused 11 0) (given (byte_of unit obus p k)) }
{
    if seen.is_outside() {
        return Err(Refusal::NoUsablePacket);
    }
    let new = k == 0 && seen.is_new();
    Ok(header_bits(p, size, new))
}

// Which of n OBUs the last element belongs to; refused if the record has no element, OBUs beyond them, or an end beyond L17.
fn last_of(p: PacketMetadata, n: usize) -> Result<usize, Refusal>
    ensures { paper result ≡ cond (lacking n p) (refused 11 0) (given (last_obu p)) }
{
    let end = (p.first_obu_index as u64) + (p.num_obu_elements as u64);
    let after = (p.payload_start as u64) + (p.packet_size as u64) + 1;
    if p.num_obu_elements == 0 || end > (n as u64) || after > packetizer::START_LIMIT {
        return Err(Refusal::NoUsablePacket);
    }
    Ok((end - 1) as usize)
}

// From flat lists of any numbers.
pub fn get_aggregation_header(
    unit: &[u8],
    obus: &[u32],
    plan: &[u32],
    k: usize,
) -> Result<u8, Refusal>
    ensures { paper result ≡ header_of unit.now (obus_in obus.now) (packets_in plan.now) k }
{
    if plan.len() / packetizer::PLAN_NUMBERS <= k {
        return Err(Refusal::NoUsablePacket);
    }
    let p = packetizer::packet_at(plan, k);
    let i = last_of(p, obus.len() / obu::OBU_NUMBERS)?;
    let size = obu::obu_at(obus, i).size;
    rule(p, size, sequence::seen_in(unit, obus), k)
}

// Whether N is set on packet k.
// Helper: no OBU of the list may lie outside the unit.
pub fn new_at(unit: &[u8], obus: &[u32], k: usize) -> bool
    requires { any_outside unit.now (obus_in obus.now) ≡ false }
    ensures { result ≡ (eqb k 0 && new_sequence unit.now (obus_in obus.now)) }
{
    k == 0 && sequence::begins(unit, obus)
}

// The header of packet k as a byte, where it is known to have one, and `new` is N: nothing is tested or looked for.
// Helper: the header call must give a header for packet k of some unit, and no refusal.
pub fn header_byte(obus: &[u32], plan: &[u32], k: usize, new: bool) -> u8
    requires { (unit : List ℕ) × Headed unit (obus_in obus.now) (packets_in plan.now) k }
    ensures { (unit : List ℕ) → new ≡ (eqb k 0 && new_sequence unit (obus_in obus.now))
        → result ≡ byte_of unit (obus_in obus.now) (get_or (packets_in plan.now) k no_packet) k }
{
    let p = packetizer::packet_at(plan, k);
    let end = (p.first_obu_index as usize) + (p.num_obu_elements as usize);
    let last = obu::obu_at(obus, end - 1);
    header_bits(p, last.size, new)
}

// From slices of records, by the same rule.
pub fn header_of(
    unit: &[u8],
    obus: &[Obu],
    packets: &[PacketMetadata],
    k: usize,
) -> Result<u8, Refusal>
    ensures { paper result ≡ header_of unit.now obus.now packets.now k }
{
    let Some(p) = packets.get(k) else {
        return Err(Refusal::NoUsablePacket);
    };
    let i = last_of(*p, obus.len())?;
    let mut seen = Seen::Nothing;
    for o in obus {
        seen = sequence::see(unit, seen, *o);
    }
    rule(*p, obus[i].size, seen, k)
}
