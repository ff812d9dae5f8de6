// The plan of a list of OBUs, packet after packet, compared with the records of a lent plan.
ghost use Rattle.std.specs.Prelude.{◌≡◌, ◌*◌, ◌≤◌, ◌<◌, length, drop};
ghost use Rattle.base.specs.Lists.{is_front};
ghost use Rattle.obu.specs.Unit.{unit_limit};
ghost use Rattle.obu.specs.Records.{obus_in};
ghost use Rattle.packetizer.specs.Plan.{plan_from, plan_of};
ghost use Rattle.packetizer.specs.Call.{sizes, same_packets};
ghost use Rattle.base.specs.Answers.{paper_at};
ghost use Rattle.packetizer.specs.Records.{plan_numbers, record_numbers};
ghost use Rattle.packetizer.specs.Cursor.{to_come, Walkable, Starts, Fillable, Begins, Comparable};

use crate::{AGGREGATION_HEADER_SIZE, LEAST_MTU, PLAN_NUMBERS, PacketMetadata, Planned, packet};
use base::{Refusal, RefusedAt};

// A packet, and the byte of the OBU that the next one starts with.
#[derive(Clone, Copy)]
struct Next {
    packet: PacketMetadata,
    obu: usize,
    from: u32,
}

// Fills the packet `begun` from OBU `first` on, until it is closed.
fn fill_packet(obus: &[u32], room: u32, first: usize, begun: PacketMetadata) -> Next
    requires walkable { Walkable room (sizes (obus_in obus.now)) }
    requires fillable { Fillable room (sizes (obus_in obus.now)) first begun }
    ensures { Begins room (sizes (obus_in obus.now)) (plan_from room first (drop first (sizes (obus_in obus.now))) begun)
        result.packet result.obu result.from }
{
    let count = obus.len() / obu::OBU_NUMBERS;
    let mut p = begun;
    for i in first..count {
        if packet::is_full(room, p) {
            return Next {
                packet: p,
                obu: i,
                from: 0,
            };
        }
        let size = obu::obu_at(obus, i).size;
        let q = packet::charge(p);
        let need = packet::required_bytes(q, size);
        if need >= room - q.packet_size {
            let n = packet::first_fragment_size(room, q, size);
            return Next {
                packet: packet::cut_at(p, q, n),
                obu: i,
                from: n,
            };
        }
        p = packet::with_element(q, size, need);
    }
    Next {
        packet: p,
        obu: count,
        from: 0,
    }
}

// The packet that starts with byte `from` of OBU `obu`, and whose payload starts at `start`. What a call gives is taken apart: so the loop that
// goes from packet to packet keeps its place in registers.
fn next_packet(obus: &[u32], room: u32, obu: usize, from: u32, start: u32) -> Next
    requires walkable { Walkable room (sizes (obus_in obus.now)) }
    requires inside { obu < length (sizes (obus_in obus.now)) }
    requires starts { Starts (sizes (obus_in obus.now)) obu from }
    ensures { Begins room (sizes (obus_in obus.now)) (to_come room (sizes (obus_in obus.now)) obu from start)
        result.packet result.obu result.from }
{
    let i = obu as u32;
    if from == 0 {
        let f = fill_packet(obus, room, obu, packet::new_packet(i, start));
        let p = f.packet;
        return Next {
            packet: p,
            obu: f.obu,
            from: f.from,
        };
    }
    let left = obu::obu_at(obus, obu).size - from;
    if room < left {
        let next = from + room;
        return Next {
            packet: packet::alone_in_packet(i, from, room, start),
            obu,
            from: next,
        };
    }
    let f = fill_packet(
        obus,
        room,
        obu + 1,
        packet::alone_in_packet(i, from, left, start),
    );
    let p = f.packet;
    Next {
        packet: p,
        obu: f.obu,
        from: f.from,
    }
}

// Whether a plan has the numbers of this packet at record n.
fn same_record(plan: &[u32], n: usize, p: PacketMetadata) -> bool
    requires { n ≤ unit_limit }
    ensures { result ≡ is_front (record_numbers p) (drop (n * plan_numbers) plan.now) }
{
    base::same_numbers(plan, n * PLAN_NUMBERS, &p.numbers())
}

// Whether a plan begins with the records of these OBUs: how many there are, or 31.
// Helper: the mtu must be within its limit, each OBU have a byte, and all of them together fit a unit.
pub fn same_packets(obus: &[u32], mtu: usize, plan: &[u32]) -> Result<Planned, RefusedAt>
    requires { Comparable mtu (sizes (obus_in obus.now)) }
    ensures { paper_at result ≡ same_packets (plan_of mtu (sizes (obus_in obus.now))) plan.now
        (length (obus_in obus.now)) }
{
    let count = obus.len() / obu::OBU_NUMBERS;
    if mtu < LEAST_MTU {
        return Ok(Planned {
            obus: count,
            packets: 0,
        });
    }
    let room = (mtu - AGGREGATION_HEADER_SIZE) as u32;
    let mut obu = 0;
    let mut from = 0;
    let mut start = 0;
    let mut n = 0;
    while obu < count {
        let next = next_packet(obus, room, obu, from, start);
        if !same_record(plan, n, next.packet) {
            return Err(Refusal::ListsDiffer.into());
        }
        obu = next.obu;
        from = next.from;
        start = packet::start_after(next.packet);
        n += 1;
    }
    Ok(Planned {
        obus: count,
        packets: n,
    })
}
