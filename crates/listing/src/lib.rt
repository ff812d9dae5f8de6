// `planlist` as steps on lent bytes: all that it decides (G8 to G14, L12, L13). The program does as each turn orders.
#![tactic(auto)]

mod head;
mod text;

ghost use Rattle.std.specs.Prelude.{◌≡◌, ℕ, ◌≤◌, true, List, [], length};
ghost use Rattle.base.specs.Lists.{front};
ghost use Rattle.turns.specs.Text.{line_bytes};
ghost use Rattle.turns.specs.Orders.{arrival, Turned};
ghost use Rattle.listing.specs.Input.{unit_store, head_of};
ghost use Rattle.listing.specs.Listing.{bad_text};
ghost use Rattle.listing.specs.Steps.{starts_with, awaits, prints, head_told, unit_told, unit_after, further_told, row_told, read_of, failed, told, unit_next, Filled, Ready, Lent, Writes};

use turns::{Came, Failure, LINE_BYTES, Subject, Word};

// The bytes of a head, of the unit store, and the numbers of a list of 512 records (L12, L13).
const HEAD_BYTES: usize = 7;

pub use turns::UNIT_STORE;

pub const OBU_LIST_NUMBERS: usize = turns::LIST_RECORDS * obu::OBU_NUMBERS;

pub const PLAN_LIST_NUMBERS: usize = turns::LIST_RECORDS * packetizer::PLAN_NUMBERS;

// What a head states.
#[derive(Clone, Copy)]
struct Stated {
    pub mtu: usize,
    pub length: usize,
}

// The numbers of a line, in its order.
#[derive(Clone, Copy)]
struct Row {
    pub packet: usize,
    pub first_obu: u32,
    pub elements: u32,
    pub first_offset: u32,
    pub last_size: u32,
    pub packet_size: u32,
    pub header: u8,
    pub start: u32,
}

// What a run waits for: the head, the unit, a further byte, its turn to print the line of packet k, or nothing.
#[derive(Clone, Copy)]
pub enum Wait {
    Head,
    Unit,
    Further,
    Row(usize),
    Nothing,
}

// Where a run stands: what it waits for, what the head states, and how many OBUs and packets the plan has.
#[derive(Clone, Copy)]
pub struct Place {
    pub wait: Wait,
    pub mtu: usize,
    pub length: usize,
    pub obus: usize,
    pub packets: usize,
}

// What the program does now, and where it then stands.
pub type Turn = turns::Turn<Place>;

// The same numbers, with this to wait for.
// Each program has its own `Place`: a generic one would need a trait, for one struct update.
fn awaiting(place: Place, wait: Wait) -> Place
    ensures { result ≡ awaits place wait }
{
    Place { wait, ..place }
}

// What a run begins with: the head is read.
pub fn start() -> Turn
    ensures { Turned starts_with result.place result.order [] [] unit_store line_bytes × ((unit obus plan : List ℕ) → Ready result.place unit obus plan) }
{
    Turn {
        place: Place {
            wait: Wait::Head,
            mtu: 0,
            length: 0,
            obus: 0,
            packets: 0,
        },
        order: turns::ask(0, HEAD_BYTES),
    }
}

// So many bytes are written, and the run is over.
fn print(place: Place, bytes: usize) -> Turn
    ensures { (result.place ≡ (prints place []).place) × (result.order ≡ record { more = true; write = bytes; say = 0; read = 0 }) }
{
    Turn {
        place: awaiting(place, Wait::Nothing),
        order: turns::ask(bytes, 0),
    }
}

// `bad input` is written, and the run is over.
fn bad_input(place: Place, out: &mut [u8; LINE_BYTES]) -> Turn
    ensures { Writes (prints place bad_text) result out.old out.new }
{
    let end = base::put_text(b"bad input\n", out, 0);
    print(place, end)
}

// After the head, or what there was of it.
fn head_step(place: Place, got: &[u8], out: &mut [u8; LINE_BYTES]) -> Turn
    ensures { Writes (head_told place (head_of got.now)) result out.old out.new }
{
    let Some(stated) = head::read_head(got) else {
        return bad_input(place, out);
    };
    // copied one by one: the definitions on runs have the numbers of a head flat in a `Place`
    Turn {
        place: Place {
            wait: Wait::Unit,
            mtu: stated.mtu,
            length: stated.length,
            ..place
        },
        order: turns::ask(0, stated.length),
    }
}

// After the unit, or what there was of it: it is kept in the unit store.
fn unit_step(
    place: Place,
    got: &[u8],
    unit: &mut [u8; UNIT_STORE],
    out: &mut [u8; LINE_BYTES],
) -> Turn
    requires { length got.now ≤ unit_store }
    ensures { Writes (unit_told place got.now) result out.old out.new
        × (unit.new ≡ unit_after place got.now unit.old) }
{
    if got.len() < place.length {
        return bad_input(place, out);
    }
    base::copy_bytes(got, 0, place.length, unit, 0);
    Turn {
        place: awaiting(place, Wait::Further),
        order: turns::ask(0, 1),
    }
}

// After the byte behind the unit, of which there must be none: the plan's counts, or why there is no plan.
fn further_step(
    place: Place,
    got: &[u8],
    unit: &[u8; UNIT_STORE],
    obus: &mut [u32; OBU_LIST_NUMBERS],
    plan: &mut [u32; PLAN_LIST_NUMBERS],
    out: &mut [u8; LINE_BYTES],
) -> Turn
    requires { place.length ≤ unit_store }
    ensures { Writes (further_told place got.now unit.now) result out.old out.new
        × Ready result.place unit.now obus.new plan.new }
{
    if !got.is_empty() {
        return bad_input(place, out);
    }
    match packetizer::plan_unit(place.mtu, &unit[..place.length], obus, plan) {
        Err(refused) => {
            let number = base::number(refused.refusal);
            // `as` for both: there is no `From` from `usize`
            let end = text::put_two(b"refused ", number as u64, b" ", refused.at as u64, out);
            print(place, end)
        }
        Ok(planned) => {
            let count = planned.obus;
            let packets = planned.packets;
            let end = text::put_two(b"obus ", count as u64, b"\npackets ", packets as u64, out);
            Turn {
                place: Place {
                    wait: Wait::Row(0),
                    obus: count,
                    packets,
                    ..place
                },
                order: turns::ask(end, 0),
            }
        }
    }
}

// The line of packet k, if there is one, from lists that hold the plan of the unit.
fn row_step(
    place: Place,
    k: usize,
    unit: &[u8; UNIT_STORE],
    obus: &[u32],
    plan: &[u32],
    out: &mut [u8; LINE_BYTES],
) -> Turn
    requires { Filled place unit.now obus.now plan.now }
    ensures { Writes (row_told place k unit.now) result out.old out.new }
{
    if place.packets <= k {
        return Turn {
            place: awaiting(place, Wait::Nothing),
            order: turns::over(),
        };
    }
    let listed = place.obus * obu::OBU_NUMBERS;
    let planned = place.packets * packetizer::PLAN_NUMBERS;
    let row = text::row_at(&unit[..place.length], &obus[..listed], &plan[..planned], k);
    let end = text::put_row(row, out);
    Turn {
        place: awaiting(place, Wait::Row(k + 1)),
        order: turns::ask(end, 0),
    }
}

// What a run reads where it stands, for the line of a failed read.
fn read_subject(wait: Wait) -> Subject
    ensures { result ≡ read_of wait }
{
    match wait {
        Wait::Head => Subject::Input,
        _ => Subject::Unit(0),
    }
}

// After a read or a write that failed: it is said, and the run is over where it stood.
// `pack` and `unpack` have such a one too, since each promises what its own next step needs.
fn failed_step(stood: Place, subject: Subject, word: Word, line: &mut [u8; LINE_BYTES]) -> Turn
    ensures { Turned (failed stood subject word) result.place result.order line.old line.new unit_store line_bytes }
{
    turns::saying(awaiting(stood, Wait::Nothing), subject, word, line)
}

// The next turn, by what came of the one before: all that `planlist` decides.
// The stores are lent apart and not as a struct: each step takes others of them, and they are the program's.
// Helper: no more bytes may have come than the input holds, the unit must be within its store, and while lines are printed the lists must
// be those of the unit, as the step before left them. The stores have exactly their lengths (L12, L13) by their types.
pub fn step(
    place: Place,
    came: Came,
    input: &[u8; UNIT_STORE],
    unit: &mut [u8; UNIT_STORE],
    obus: &mut [u32; OBU_LIST_NUMBERS],
    plan: &mut [u32; PLAN_LIST_NUMBERS],
    out: &mut [u8; LINE_BYTES],
    line: &mut [u8; LINE_BYTES],
) -> Turn
    requires { Lent place came input.now unit.old obus.old plan.old out.old line.old }
    ensures { Turned (told place (arrival came input.now) unit.old) result.place result.order line.old line.new unit_store line_bytes
        × (out.new ≡ front (told place (arrival came input.now) unit.old).written out.old)
        × (unit.new ≡ unit_next place (arrival came input.now) unit.old)
        × Ready result.place unit.new obus.new plan.new }
{
    let wait = place.wait;
    match came {
        Err(Failure::Read) => failed_step(place, read_subject(wait), Word::ReadFailed, line),
        Err(Failure::Write) => failed_step(place, Subject::Unit(0), Word::WriteFailed, line),
        // one step for each thing that is waited for
        Ok(n) => match wait {
            Wait::Head => head_step(place, &input[..n], out),
            Wait::Unit => unit_step(place, &input[..n], unit, out),
            Wait::Further => further_step(place, &input[..n], unit, obus, plan, out),
            Wait::Row(k) => row_step(place, k, unit, obus, plan, out),
            Wait::Nothing => Turn {
                place,
                order: turns::over(),
            },
        },
    }
}
