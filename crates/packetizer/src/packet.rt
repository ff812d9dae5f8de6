// One packet while it is filled: what an element costs and needs, the largest fragment, the packet with an element more.
ghost use Rattle.std.specs.Prelude.{◌≡◌, ◌+◌, ◌-◌, ◌≤◌, ◌<◌};
ghost use Rattle.leb128.specs.Laws.{cap};
ghost use Rattle.obu.specs.Unit.{unit_limit};
ghost use Rattle.packetizer.specs.Fragment.{Largest};
ghost use Rattle.packetizer.specs.Plan.{new_packet, charge_of, is_full, charged, need_of, with_element, fragment_of, alone, start_after, start_limit, cut_at};

use crate::{MAX_NUM_OBUS_TO_OMIT_SIZE, PacketMetadata};

// A packet with nothing in it yet.
pub fn new_packet(i: u32, start: u32) -> PacketMetadata
    ensures { result ≡ new_packet i start }
{
    PacketMetadata {
        first_obu_index: i,
        num_obu_elements: 0,
        first_obu_offset: 0,
        last_obu_size: 0,
        packet_size: 0,
        payload_start: start,
    }
}

// A packet whose one element is n bytes of OBU i.
pub fn alone_in_packet(i: u32, offset: u32, n: u32, start: u32) -> PacketMetadata
    ensures { result ≡ alone i offset n start }
{
    PacketMetadata {
        first_obu_index: i,
        num_obu_elements: 1,
        first_obu_offset: offset,
        last_obu_size: n,
        packet_size: n,
        payload_start: start,
    }
}

// Where the payload after this packet's starts.
// Helper: that must be at most 4,294,967,295.
pub fn start_after(p: PacketMetadata) -> u32
    requires { start_after p ≤ start_limit }
    ensures { result ≡ start_after p }
{
    p.payload_start + p.packet_size + 1
}

// What a further element costs the one before it: its length field.
pub fn additional_bytes_for_previous_obu_element(p: PacketMetadata) -> u32
    ensures { result ≡ charge_of p }
{
    match p.num_obu_elements {
        1..=MAX_NUM_OBUS_TO_OMIT_SIZE => leb128::leb128_size(p.last_obu_size) as u32,
        _ => 0,
    }
}

// Whether a further element starts a new packet.
// Helper: the packet size must be within the room.
pub fn is_full(room: u32, p: PacketMetadata) -> bool
    requires { p.packet_size ≤ room }
    ensures { result ≡ is_full room p }
{
    let charge = additional_bytes_for_previous_obu_element(p);
    let least = if p.num_obu_elements >= MAX_NUM_OBUS_TO_OMIT_SIZE {
        2
    } else {
        1
    };
    room - p.packet_size < charge + least
}

// The packet with the charge for a further element.
// Helper: the packet size must be at most 1,048,576.
pub fn charge(p: PacketMetadata) -> PacketMetadata
    requires { p.packet_size ≤ unit_limit }
    ensures { result ≡ charged p }
{
    PacketMetadata {
        packet_size: p.packet_size + additional_bytes_for_previous_obu_element(p),
        ..p
    }
}

// What an element of n bytes needs: its length field too, from the fourth on.
// Helper: n must be at most 1,048,576.
pub fn required_bytes(p: PacketMetadata, n: u32) -> u32
    requires { n ≤ unit_limit }
    ensures { result ≡ need_of p n }
{
    if p.num_obu_elements >= MAX_NUM_OBUS_TO_OMIT_SIZE {
        return n + leb128::leb128_size(n) as u32;
    }
    n
}

// The packet with an element of n bytes put in, which needs so much.
// Helper: n and how many elements there are must be at most 1,048,576, the packet size at most 5 more, and `need` what the element needs.
pub fn with_element(p: PacketMetadata, n: u32, need: u32) -> PacketMetadata
    requires { (n ≤ unit_limit) × (p.packet_size ≤ unit_limit + 5) × (p.num_obu_elements ≤ unit_limit) × (need ≡ need_of p n) }
    ensures { result ≡ with_element p n }
{
    PacketMetadata {
        num_obu_elements: p.num_obu_elements + 1,
        last_obu_size: n,
        packet_size: p.packet_size + need,
        ..p
    }
}

// How many bytes the length field of the largest fragment has.
// It has a byte more from each of these rooms on: 128 + 1, 16,384 + 2, 2,097,152 + 3, 268,435,456 + 4.
fn largest_field(left: u32) -> u32
    ensures some { 1 ≤ result }
    ensures most { result ≤ 5 }
    ensures passed { 1 < result → cap (result - 1) + (result - 1) ≤ left }
    ensures below { left < cap result + result }
{
    match left {
        ..=128 => 1,
        ..=16385 => 2,
        ..=2097154 => 3,
        ..=268435459 => 4,
        _ => 5,
    }
}

// The largest fragment that fits with its length field.
pub fn max_fragment_size(left: u32) -> u32
    ensures { Largest left result }
{
    left.saturating_sub(largest_field(left))
}

// The first fragment of an OBU of `size` bytes.
// Helper: the packet size must be within the room, and the OBU have a byte.
pub fn first_fragment_size(room: u32, p: PacketMetadata, size: u32) -> u32
    requires { (p.packet_size ≤ room) × (1 ≤ size) }
    ensures { result ≡ fragment_of room p size }
{
    let left = room - p.packet_size;
    if p.num_obu_elements >= MAX_NUM_OBUS_TO_OMIT_SIZE {
        return (size - 1).min(max_fragment_size(left));
    }
    (size - 1).min(left)
}

// The packet with the first fragment in it; with none, as it was before the charge.
// Helper: n and how many elements `q` has must be at most 1,048,576, its packet size at most 5 more.
pub fn cut_at(p: PacketMetadata, q: PacketMetadata, n: u32) -> PacketMetadata
    requires { (n ≤ unit_limit) × (q.packet_size ≤ unit_limit + 5) × (q.num_obu_elements ≤ unit_limit) }
    ensures { result ≡ cut_at p q n }
{
    if n == 0 {
        return p;
    }
    with_element(q, n, required_bytes(q, n))
}
