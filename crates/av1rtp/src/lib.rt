// What C and Rust callers call (include/av1rtp.h); av1rtp_c makes the archive of it. Each export makes one proved call and hands its
// answer on: a number, 0 or that of the refusal, and four words. Only numbers and lent numbers cross, and no export asks anything of them.
#![tactic(auto)]

ghost use Rattle.std.specs.Prelude.{◌≡◌, [], ◌∷◌, drop};
ghost use Rattle.base.specs.Refusals.{number_of};
ghost use Rattle.leb128.specs.Field.{size_answer};
ghost use Rattle.obu.specs.Unit.{list_answer, list_after};
ghost use Rattle.obu.specs.Records.{obus_in};
ghost use Rattle.packetizer.specs.Call.{to_plan, plan_unit};
ghost use Rattle.packetizer.specs.Records.{packets_in};
ghost use Rattle.aggregation.specs.Header.{header_of};
ghost use Rattle.payloader.specs.Call.{to_write, write_packet, write_packets};
ghost use Rattle.element.specs.Elements.{payload_elements, element_of};
ghost use Rattle.receiver.specs.Call.{inputs, received};
ghost use Rattle.base.specs.Lists.{front};
ghost use Rattle.train.specs.Train.{head_of, counted_width, front_of, record_fields};
ghost use Rattle.av1rtp.specs.Words.{number_in, words_in};
ghost use Rattle.av1rtp.specs.Calls.{one, listed_words, PlanCrosses, WriteCrosses, field_words, element_count, state_in, state_words, Crosses, head_words, record_answer, record_words};

use base::RefusedAt;
use receiver::State;

// What was asked for: success, and up to three numbers.
// Each export matches on its answer: mapped by a closure into three words for one function, it leaves its promise to be proved by hand.
fn give(answer: &mut [usize; 4], a: usize, b: usize, c: usize) -> u32
    ensures { (result ≡ 0) × (answer.new ≡ 0 ∷ a ∷ b ∷ c ∷ []) }
{
    *answer = [0, a, b, c];
    0
}

// A refusal: its number, and the offset that it carries.
fn refuse(answer: &mut [usize; 4], refused: RefusedAt) -> u32
    ensures { (result ≡ number_of refused.refusal) × (answer.new ≡ refused.at ∷ 0 ∷ 0 ∷ 0 ∷ []) }
{
    *answer = [refused.at, 0, 0, 0];
    base::number(refused.refusal)
}

// The OBU list of a unit. Words: offset, OBUs, padded size fields.
#[unsafe(no_mangle)]
pub extern "C" fn av1rtp_list(unit: &[u8], obus: &mut [u32], answer: &mut [usize; 4]) -> u32
    ensures { (result ≡ number_in (list_answer unit.now obus.old))
        × (answer.new ≡ words_in listed_words (list_answer unit.now obus.old))
        × (obus.new ≡ list_after unit.now obus.old) }
{
    match obu::parse_obus(unit, obus) {
        Ok(listed) => give(answer, listed.obus, listed.padded, 0),
        Err(refused) => refuse(answer, refused),
    }
}

// The OBU list and the plan of a unit. Words: offset, OBUs, packets.
#[unsafe(no_mangle)]
pub extern "C" fn av1rtp_plan(
    mtu: usize,
    unit: &[u8],
    obus: &mut [u32],
    plan: &mut [u32],
    answer: &mut [usize; 4],
) -> u32
    ensures { PlanCrosses (plan_unit (to_plan mtu unit.now obus.old plan.old))
        result answer.new obus.new plan.new }
{
    match packetizer::plan_unit(mtu, unit, obus, plan) {
        Ok(planned) => give(answer, planned.obus, planned.packets, 0),
        Err(refused) => refuse(answer, refused),
    }
}

// Packet k of a unit, by its list and plan. Words: offset, bytes.
#[unsafe(no_mangle)]
pub extern "C" fn av1rtp_write_packet(
    mtu: usize,
    unit: &[u8],
    obus: &[u32],
    plan: &[u32],
    k: usize,
    out: &mut [u8],
    answer: &mut [usize; 4],
) -> u32
    ensures { WriteCrosses (write_packet k (to_write mtu unit.now obus.now plan.now out.old))
        result answer.new out.new }
{
    match payloader::write_packet(mtu, unit, obus, plan, k, out) {
        Ok(written) => give(answer, written.bytes, 0, 0),
        Err(refused) => refuse(answer, refused),
    }
}

// So many packets of a unit from one on, one after the other, by its list and plan. Words: offset, bytes.
#[unsafe(no_mangle)]
pub extern "C" fn av1rtp_write_packets(
    mtu: usize,
    unit: &[u8],
    obus: &[u32],
    plan: &[u32],
    first: usize,
    count: usize,
    out: &mut [u8],
    answer: &mut [usize; 4],
) -> u32
    ensures { WriteCrosses (write_packets first count (to_write mtu unit.now obus.now plan.now out.old))
        result answer.new out.new }
{
    match payloader::write_packets(mtu, unit, obus, plan, first, count, out) {
        Ok(written) => give(answer, written.bytes, 0, 0),
        Err(refused) => refuse(answer, refused),
    }
}

// The aggregation header of packet k. Words: 0, the header byte.
#[unsafe(no_mangle)]
pub extern "C" fn av1rtp_header(
    unit: &[u8],
    obus: &[u32],
    plan: &[u32],
    k: usize,
    answer: &mut [usize; 4],
) -> u32
    ensures { (result ≡ number_in (header_of unit.now (obus_in obus.now) (packets_in plan.now) k))
        × (answer.new ≡ words_in one (header_of unit.now (obus_in obus.now) (packets_in plan.now) k)) }
{
    match aggregation::get_aggregation_header(unit, obus, plan, k) {
        Ok(header) => give(answer, usize::from(header), 0, 0),
        Err(refusal) => refuse(answer, refusal.into()),
    }
}

// Element k of a payload. Words: 0, elements, where element k starts in the payload, its length.
#[unsafe(no_mangle)]
pub extern "C" fn av1rtp_element(payload: &[u8], k: usize, answer: &mut [usize; 4]) -> u32
    ensures { (result ≡ number_in (payload_elements payload.now))
        × (answer.new ≡ 0 ∷ element_count (payload_elements payload.now)
        ∷ (element_of payload.now k).start ∷ (element_of payload.now k).length ∷ []) }
{
    match element::walk_elements(payload, k) {
        Ok(all) => {
            let part = all.kept;
            give(answer, all.elements, part.start, part.length)
        }
        Err(refused) => refuse(answer, refused.refusal.into()),
    }
}

// The state that three words stand for.
fn state_in(words: [usize; 3]) -> State
    ensures { result ≡ state_in words }
{
    let [begun, last, open] = words;
    State {
        begun: begun > 0,
        last: (last & 65535) as u16,
        open,
    }
}

// A state in three words.
fn state_words(state: State) -> [usize; 3]
    ensures { result ≡ state_words state }
{
    [
        usize::from(state.begun),
        usize::from(state.last),
        state.open,
    ]
}

// One packet received. Words: 0, the bytes handed out, its padded fields.
#[unsafe(no_mangle)]
pub extern "C" fn av1rtp_receive(
    state: &mut [usize; 3],
    number: u16,
    payload: &[u8],
    store: &mut [u8],
    out: &mut [u8],
    answer: &mut [usize; 4],
) -> u32
    ensures { Crosses (received (inputs (state_in state.old) number payload.now store.old out.old)) state.old
        result answer.new state.new store.new out.new }
{
    match receiver::receive(state_in(*state), number, payload, store, out) {
        Ok(received) => {
            *state = state_words(received.state);
            let padded = received.padded;
            give(answer, received.bytes, padded.lengths + padded.sizes, 0)
        }
        Err(refusal) => refuse(answer, refusal.into()),
    }
}

// The head of a train. Words: 0, its version, the width of its length fields.
#[unsafe(no_mangle)]
pub extern "C" fn av1rtp_train_head(bytes: &[u8], answer: &mut [usize; 4]) -> u32
    ensures { (result ≡ number_in (head_of bytes.now)) × (answer.new ≡ words_in head_words (head_of bytes.now)) }
{
    match train::read_head(bytes) {
        Ok(head) => give(answer, usize::from(head.version), head.width, 0),
        Err(refusal) => refuse(answer, refusal.into()),
    }
}

// The record of a train with length fields of this width that begins at `at`. Words: 0, its number, where its payload starts, the
// payload's length; all 0 at the end, and past it.
#[unsafe(no_mangle)]
pub extern "C" fn av1rtp_train_record(
    bytes: &[u8],
    width: usize,
    at: usize,
    answer: &mut [usize; 4],
) -> u32
    ensures { (result ≡ number_in (record_answer (front_of (counted_width width) at (drop at bytes.now))))
        × (answer.new ≡ words_in record_words (record_answer (front_of (counted_width width) at (drop at bytes.now)))) }
{
    match train::read_record(bytes, width, at) {
        Ok(Some(head)) => give(answer, usize::from(head.number), head.start, head.length),
        Ok(None) => give(answer, 0, 0, 0),
        Err(refusal) => refuse(answer, refusal.into()),
    }
}

// What stands before a payload, with a length field of this width: the stated length, which counts the number's two bytes, and the
// number. The bytes after them stay. Any length is written, 0 to 2 too, though no reader takes such a record (R23).
#[unsafe(no_mangle)]
pub extern "C" fn av1rtp_train_record_head(
    stated: u32,
    number: u16,
    width: usize,
    head: &mut [u8; 6],
)
    ensures { head.new ≡ front (record_fields (counted_width width) stated number) head.old }
{
    train::record_head(stated, number, width, head);
}

// The size field at the front of some bytes. Words: 0, its value, the bytes that it takes, 1 if they are its shortest form.
#[unsafe(no_mangle)]
pub extern "C" fn av1rtp_size_field(bytes: &[u8], answer: &mut [usize; 4]) -> u32
    ensures { (result ≡ number_in (size_answer bytes.now))
        × (answer.new ≡ words_in field_words (size_answer bytes.now)) }
{
    match leb128::read_leb128(bytes) {
        Ok(field) => give(
            answer,
            field.value as usize,
            field.used,
            usize::from(field.shortest),
        ),
        Err(refusal) => refuse(answer, refusal.into()),
    }
}
