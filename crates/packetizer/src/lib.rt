// The plan: which bytes of which kept OBUs go into which packet (P1 to P15).
#![tactic(auto)]

mod packet; // packet.rt: one packet while it is filled
mod cursor; // cursor.rt: packet after packet, compared with a lent plan

ghost use Rattle.std.specs.Prelude.{◌≡◌, ◌+◌, ◌*◌, ◌≤◌, ◌<◌, Bool, true, false, ◌∷◌, [], length, get_or};
ghost use Rattle.obu.specs.Unit.{unit_limit};
ghost use Rattle.obu.specs.Records.{obus_in};
ghost use Rattle.packetizer.specs.Plan.{charge_of, spread, insert, place, plan_of};
ghost use Rattle.packetizer.specs.Call.{sizes, to_plan, leaves, plan_unit, same_plan};
ghost use Rattle.base.specs.Answers.{paper_at};
ghost use Rattle.packetizer.specs.Paper.{recorded};
ghost use Rattle.packetizer.specs.Inside.{Plannable, Placeable, Closable, Closed};
ghost use Rattle.packetizer.specs.Records.{plan_numbers, record_numbers, packets_in, no_packet};

use base::{Refusal, RefusedAt};

// The largest mtu, the smallest that gives packets, the numbers of a record in a flat list, and the byte that every payload begins with.
const MTU_LIMIT: usize = 1048576;

const LEAST_MTU: usize = 3;

pub const PLAN_NUMBERS: usize = 6;

// With so many elements in a packet, or fewer, the last has no length field.
pub const MAX_NUM_OBUS_TO_OMIT_SIZE: u32 = 3;

const AGGREGATION_HEADER_SIZE: usize = 1;

// The most that where a payload ends can be (L17).
pub const START_LIMIT: u64 = 4294967295;

// A packet of a plan, under the names of the Rust; and where its payload starts in the output.
#[derive(Clone, Copy)]
pub struct PacketMetadata {
    pub first_obu_index: u32,
    pub num_obu_elements: u32,
    pub first_obu_offset: u32,
    pub last_obu_size: u32,
    pub packet_size: u32,
    pub payload_start: u32,
}

impl PacketMetadata {
    // The numbers of its record.
    fn numbers(self) -> [u32; PLAN_NUMBERS]
        ensures { result ≡ record_numbers self }
    {
        [
            self.first_obu_index,
            self.num_obu_elements,
            self.first_obu_offset,
            self.last_obu_size,
            self.packet_size,
            self.payload_start,
        ]
    }
}

// What a call plans.
#[derive(Clone, Copy)]
pub struct Planned {
    pub obus: usize,
    pub packets: usize,
}

// The current packet, and how many are closed before it.
#[derive(Clone, Copy)]
struct Filling {
    packet: PacketMetadata,
    records: usize,
}

// What becomes of the record of a closed packet.
trait Recording {
    ghost stored: { Bool };

    // Takes record `n`.
    fn put(plan: &mut [u32], n: usize, p: PacketMetadata)
        requires { stored ≡ true → (n + 1) * plan_numbers ≤ length plan.old }
        ensures { plan.new ≡ recorded stored plan.old n (p ∷ []) };
}

// It is counted, and no more.
struct Counted;

impl Recording for Counted {
    ghost stored = { false };

    fn put(_plan: &mut [u32], _n: usize, _p: PacketMetadata) {}
}

// It is stored in the plan.
struct Stored;

impl Recording for Stored {
    ghost stored = { true };

    fn put(plan: &mut [u32], n: usize, p: PacketMetadata) {
        base::put_numbers(plan, n * PLAN_NUMBERS, &p.numbers());
    }
}

// Record k of a flat plan of any numbers.
// Helper: the plan must have a whole record k.
pub fn packet_at(plan: &[u32], k: usize) -> PacketMetadata
    requires { (k + 1) * plan_numbers ≤ length plan.now }
    ensures { result ≡ get_or (packets_in plan.now) k no_packet }
{
    let at = k * PLAN_NUMBERS;
    PacketMetadata {
        first_obu_index: plan[at],
        num_obu_elements: plan[at + 1],
        first_obu_offset: plan[at + 2],
        last_obu_size: plan[at + 3],
        packet_size: plan[at + 4],
        payload_start: plan[at + 5],
    }
}

// Spreads the OBU i from `from` on over new packets, the first of them at `start`: the last one is the current packet.
fn spread_obu<R: Recording>(
    plan: &mut [u32],
    room: u32,
    i: u32,
    size: u32,
    from: u32,
    start: u32,
    records: usize,
) -> Filling
    requires some { 1 ≤ room }
    requires inside { from < size }
    requires small { size ≤ unit_limit }
    requires closable { Closable R.stored plan.old records (spread size room i size from start) }
    ensures { Closed R.stored plan.old records (spread size room i size from start) result.packet result.records plan.new }
{
    let mut n = records;
    let mut offset = from;
    let mut next = start;
    while room < size - offset {
        let p = packet::alone_in_packet(i, offset, room, next);
        R::put(plan, n, p);
        n += 1;
        offset += room;
        next = packet::start_after(p);
    }
    Filling {
        packet: packet::alone_in_packet(i, offset, size - offset, next),
        records: n,
    }
}

// Puts the OBU i into the current packet, whole or in fragments.
fn insert_obu<R: Recording>(plan: &mut [u32], room: u32, i: u32, size: u32, f: Filling) -> Filling
    requires placeable { Placeable room size f.packet }
    requires charged { f.packet.packet_size + charge_of f.packet ≤ room }
    requires closable { Closable R.stored plan.old f.records (insert room i size f.packet) }
    ensures { Closed R.stored plan.old f.records (insert room i size f.packet) result.packet result.records plan.new }
{
    let p = f.packet;
    let q = packet::charge(p);
    let need = packet::required_bytes(q, size);
    if need < room - q.packet_size {
        return Filling {
            packet: packet::with_element(q, size, need),
            ..f
        };
    }
    let n = packet::first_fragment_size(room, q, size);
    let cut = packet::cut_at(p, q, n);
    R::put(plan, f.records, cut);
    let start = packet::start_after(cut);
    spread_obu::<R>(plan, room, i, size, n, start, f.records + 1)
}

// Places the OBU i: in a new packet if the current one is full.
fn place_obu<R: Recording>(plan: &mut [u32], room: u32, i: u32, size: u32, f: Filling) -> Filling
    requires placeable { Placeable room size f.packet }
    requires closable { Closable R.stored plan.old f.records (place room i size f.packet) }
    ensures { Closed R.stored plan.old f.records (place room i size f.packet) result.packet result.records plan.new }
{
    if packet::is_full(room, f.packet) {
        R::put(plan, f.records, f.packet);
        let start = packet::start_after(f.packet);
        return insert_obu::<R>(
            plan,
            room,
            i,
            size,
            Filling {
                packet: packet::new_packet(i, start),
                records: f.records + 1,
            },
        );
    }
    insert_obu::<R>(plan, room, i, size, f)
}

// Plans the OBUs of a list, and says how many packets there are.
fn packetize<R: Recording>(obus: &[u32], mtu: usize, plan: &mut [u32]) -> usize
    requires { Plannable mtu (sizes (obus_in obus.now)) R.stored plan.old }
    ensures { (result ≡ length (plan_of mtu (sizes (obus_in obus.now))))
        × (plan.new ≡ recorded R.stored plan.old 0 (plan_of mtu (sizes (obus_in obus.now)))) }
{
    let count = obus.len() / obu::OBU_NUMBERS;
    if count == 0 || mtu < LEAST_MTU {
        return 0;
    }
    let room = (mtu - AGGREGATION_HEADER_SIZE) as u32;
    let mut f = Filling {
        packet: packet::new_packet(0, 0),
        records: 0,
    };
    for i in 0..count {
        let o = obu::obu_at(obus, i);
        f = place_obu::<R>(plan, room, i as u32, o.size, f);
    }
    R::put(plan, f.records, f.packet);
    f.records + 1
}

// The list of a unit's kept OBUs and their plan.
pub fn plan_unit(
    mtu: usize,
    unit: &[u8],
    obus: &mut [u32],
    plan: &mut [u32],
) -> Result<Planned, RefusedAt>
    ensures { leaves (paper_at result) obus.new plan.new
        ≡ plan_unit (to_plan mtu unit.now obus.old plan.old) }
{
    if mtu > MTU_LIMIT {
        return Err(Refusal::MtuOverLimit.into());
    }
    let listed = obu::parse_obus(unit, obus)?;
    let filled = &obus[..listed.obus * obu::OBU_NUMBERS];
    let packets = packetize::<Counted>(filled, mtu, &mut []);
    if plan.len() / PLAN_NUMBERS < packets {
        return Err(Refusal::PlanListFull.into());
    }
    packetize::<Stored>(filled, mtu, plan);
    Ok(Planned {
        obus: listed.obus,
        packets,
    })
}

// Whether lent lists begin with the records of a unit's kept OBUs and of their plan: how many there are, or 31.
pub fn same_plan(mtu: usize, unit: &[u8], obus: &[u32], plan: &[u32]) -> Result<Planned, RefusedAt>
    ensures { paper_at result ≡ same_plan mtu unit.now obus.now plan.now }
{
    if MTU_LIMIT < mtu {
        return Err(Refusal::MtuOverLimit.into());
    }
    let kept = obu::same_list(unit, obus)?;
    cursor::same_packets(&obus[..kept.obus * obu::OBU_NUMBERS], mtu, plan)
}
