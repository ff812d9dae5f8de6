// The payload bytes of a unit's packets (Y1 to Y5), from its list and plan: one packet, or several one after the other.
#![tactic(auto)]

ghost use Rattle.std.specs.Prelude.{◌≡◌, ◌+◌, ◌-◌, ◌≤◌, ◌<◌, cond, [], ◌∷◌, ◌++◌, length, get_or, take, drop};
ghost use Rattle.std.proofs.lemmas.List.Edits.{sets};
ghost use Rattle.base.specs.Lists.{joined};
ghost use Rattle.leb128.specs.Field.{encode};
ghost use Rattle.obu.specs.Header.{header_length, cleared};
ghost use Rattle.obu.specs.Wire.{extension_bytes, sent};
ghost use Rattle.obu.specs.Laws.{Lies};
ghost use Rattle.packetizer.specs.Records.{packets_in};
ghost use Rattle.packetizer.specs.Laws.{planned_bytes};
ghost use Rattle.payloader.specs.Payload.{payload_at, payloads_of};
ghost use Rattle.payloader.specs.Call.{to_write, leaves, write_packet, write_packets};
ghost use Rattle.base.specs.Answers.{paper_at};
ghost use Rattle.payloader.specs.Inside.{Lent, Writable, Run, Fits};

use base::{Refusal, RefusedAt};
use obu::Obu;

// What was written.
#[derive(Clone, Copy)]
pub struct Written {
    pub bytes: usize,
}

// Header byte i, as it is sent.
fn head_byte(o: Obu, i: usize) -> u8
    requires { i < header_length o.header }
    ensures { result ≡ get_or (cleared o.header ∷ extension_bytes o.header o.extension) i 0 }
{
    if i == 0 {
        obu::without_size_bit(o.header)
    } else {
        o.extension
    }
}

// n of the header bytes, from one on.
fn put_head(o: Obu, from: usize, n: usize, out: &mut [u8], at: usize)
    requires { (n ≤ header_length o.header - from) × (at + n ≤ length out.old) }
    ensures { out.new ≡ sets out.old at (take n (drop from (cleared o.header ∷ extension_bytes o.header o.extension))) }
{
    for i in 0..n {
        out[at + i] = head_byte(o, from + i);
    }
}

// n bytes of what is sent of an OBU, from one on: header bytes, and then bytes of the unit.
fn put_part(unit: &[u8], o: Obu, from: usize, n: usize, out: &mut [u8], at: usize) -> usize
    requires { (o.start + o.length ≤ length unit.now) × (from + n ≤ header_length o.header + o.length) × (at + n ≤ length out.old) }
    ensures { (result ≡ at + n) × (out.new ≡ sets out.old at (take n (drop from (sent unit.now o)))) }
{
    let head = obu::header_size(o.header);
    let inside = n.min(head.saturating_sub(from));
    put_head(o, from, inside, out, at);
    let start = o.start as usize + from.saturating_sub(head);
    base::copy_bytes(unit, start, n - inside, out, at + inside)
}

// An element: n bytes of what is sent of an OBU, from one on, with its length in front where told to.
fn put_element(
    unit: &[u8],
    o: Obu,
    from: usize,
    n: usize,
    field: bool,
    out: &mut [u8],
    at: usize,
) -> usize
    requires lies { Lies unit.now o }
    requires n_bound { from + n ≤ o.size }
    requires n_in_bounds { at + (length (cond field (encode n) []) + n) ≤ length out.old }
    ensures { (result ≡ at + (length (cond field (encode n) []) + n))
        × (out.new ≡ sets out.old at (cond field (encode n) [] ++ take n (drop from (sent unit.now o)))) }
{
    let next = if field {
        leb128::put_leb128(out, at, n as u32)
    } else {
        at
    };
    put_part(unit, o, from, n, out, next)
}

// Writes packet k of a unit's plan, on which N is set if `new` says so, at the cursor `at`, and returns the cursor after it.
// Helper: the lists must hold the records of this unit and of its plan and nothing else, `new` must be the packet's N, and `out` must
// have the space.
pub fn put_packet(
    mtu: usize,
    unit: &[u8],
    obus: &[u32],
    plan: &[u32],
    k: usize,
    new: bool,
    out: &mut [u8],
    at: usize,
) -> usize
    requires lent { Lent mtu unit.now obus.now plan.now }
    requires writable { Writable mtu unit.now k new out.old at }
    ensures { (result ≡ at + length (payload_at mtu unit.now k))
        × (out.new ≡ sets out.old at (payload_at mtu unit.now k)) }
{
    let p = packetizer::packet_at(plan, k);
    out[at] = aggregation::header_byte(obus, plan, k, new);
    let mut cursor = at + 1;
    let mut from = p.first_obu_offset as usize;
    let first = p.first_obu_index as usize;
    let last = first + p.num_obu_elements as usize - 1;
    for i in first..last {
        let o = obu::obu_at(obus, i);
        cursor = put_element(unit, o, from, o.size as usize - from, true, out, cursor);
        from = 0;
    }
    let o = obu::obu_at(obus, last);
    let n = p.last_obu_size as usize;
    let field = p.num_obu_elements > packetizer::MAX_NUM_OBUS_TO_OMIT_SIZE;
    put_element(unit, o, from, n, field, out, cursor)
}

// How many bytes so many payloads of a plan take together, from one on: from where the first starts to where the last ends.
fn run_bytes(plan: &[u32], first: usize, count: usize) -> usize
    requires { Run (packets_in plan.now) first count }
    ensures { result ≡ planned_bytes (take count (drop first (packets_in plan.now))) }
{
    if count == 0 {
        return 0;
    }
    let start = packetizer::packet_at(plan, first).payload_start as usize;
    let last = packetizer::packet_at(plan, first + (count - 1));
    last.payload_start as usize + last.packet_size as usize + 1 - start
}

// Writes so many packets of a unit's plan, from one on, one after the other. N is looked for once. Mtu, unit, list and plan come one by one,
// as every call has them: a struct of them would be made for this call alone.
fn put_packets(
    mtu: usize,
    unit: &[u8],
    obus: &[u32],
    plan: &[u32],
    first: usize,
    count: usize,
    out: &mut [u8],
)
    requires lent { Lent mtu unit.now obus.now plan.now }
    requires fits { Fits mtu unit.now first count out.old }
    ensures { out.new ≡ sets out.old 0 (joined (take count (drop first (payloads_of mtu unit.now)))) }
{
    let mut new = aggregation::new_at(unit, obus, first);
    let mut at = 0;
    for n in 0..count {
        at = put_packet(mtu, unit, obus, plan, first + n, new, out, at);
        new = false;
    }
}

// Writes so many packets of a unit, from one on, one after the other, by its list and plan.
pub fn write_packets(
    mtu: usize,
    unit: &[u8],
    obus: &[u32],
    plan: &[u32],
    first: usize,
    count: usize,
    out: &mut [u8],
) -> Result<Written, RefusedAt>
    ensures { leaves (paper_at result) out.new
        ≡ write_packets first count (to_write mtu unit.now obus.now plan.now out.old) }
{
    let planned = packetizer::same_plan(mtu, unit, obus, plan)?;
    if planned.packets.saturating_sub(first) < count {
        return Err(Refusal::NoUsablePacket.into());
    }
    let obus = &obus[..planned.obus * obu::OBU_NUMBERS];
    let plan = &plan[..planned.packets * packetizer::PLAN_NUMBERS];
    let bytes = run_bytes(plan, first, count);
    if out.len() < bytes {
        return Err(Refusal::NoRoomForPayloads.into());
    }
    put_packets(mtu, unit, obus, plan, first, count, out);
    Ok(Written { bytes })
}

// Writes packet k of a unit by its list and plan.
pub fn write_packet(
    mtu: usize,
    unit: &[u8],
    obus: &[u32],
    plan: &[u32],
    k: usize,
    out: &mut [u8],
) -> Result<Written, RefusedAt>
    ensures { leaves (paper_at result) out.new
        ≡ write_packet k (to_write mtu unit.now obus.now plan.now out.old) }
{
    write_packets(mtu, unit, obus, plan, k, 1, out)
}
