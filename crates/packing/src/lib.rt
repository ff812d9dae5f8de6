// `pack` as steps on lent bytes: all that it decides (G1 to G4, G6, G7, G12, G14). The program does as each turn orders.
#![tactic(auto)]

mod input;
mod subjects;
mod unit;

ghost use Rattle.std.specs.Prelude.{◌≡◌, ℕ, ◌<◌, ◌≤◌, List, [], length};
ghost use Rattle.base.specs.Lists.{front};
ghost use Rattle.payloader.specs.Payload.{payloads_of};
ghost use Rattle.turns.specs.Orders.{arrival, says};
ghost use Rattle.packing.specs.Pack.{unit_store, version_in, head_after, length_in};
ghost use Rattle.packing.specs.Steps.{plan_list_numbers, awaits, next, starts_with, version_told, head_told, length_told, unit_told, step_in, packet_told, told, ReadyAt, LentPackets, Gives, Lent};

use input::{Cut, InputVersion};
use turns::{Came, Failure, LINE_BYTES, Subject, Word};
pub use unit::Progress;
use unit::UnitFault;

// The bytes of a unit, and of the longest payload that there is room for (L12, L14).
pub use turns::{OUTPUT_BYTES, UNIT_STORE};

// The numbers of each list, and the bytes of a record with as long a payload as the output holds.
pub const OBU_LIST_NUMBERS: usize = turns::LIST_RECORDS * obu::OBU_NUMBERS;

pub const PLAN_LIST_NUMBERS: usize = turns::LIST_RECORDS * packetizer::PLAN_NUMBERS;

pub const RECORD_BYTES: usize = train::FIELDS_MOST + OUTPUT_BYTES;

// What a run waits for: the version byte, the rest of a head of this version, a unit's length, a unit of so many bytes, that the packets of
// a unit are written, or nothing.
#[derive(Clone, Copy)]
pub enum Wait {
    Version,
    Head(InputVersion),
    Length,
    Unit(usize),
    Packets(Progress),
    Nothing,
}

// Where a run stands: what it waits for, how many units came before, the mtu, and the next packet's number.
#[derive(Clone, Copy)]
pub struct Place {
    pub wait: Wait,
    pub count: u64,
    pub mtu: usize,
    pub number: u16,
}

// What the program does now, and where it then stands.
pub type Turn = turns::Turn<Place>;

// The same unit, with this to wait for.
// Each program has its own `Place`: a generic one would need a trait, for one struct update.
fn awaiting(place: Place, wait: Wait) -> Place
    ensures { result ≡ awaits place wait }
{
    Place { wait, ..place }
}

// The next unit.
fn following(place: Place) -> Place
    ensures { result ≡ next place }
{
    Place {
        wait: Wait::Length,
        count: turns::next_count(place.count),
        ..place
    }
}

// What a run begins with: the version byte is read.
pub fn start() -> Turn
    ensures { Gives starts_with result [] [] }
{
    Turn {
        place: Place {
            wait: Wait::Version,
            count: 0,
            mtu: 0,
            number: 0,
        },
        order: turns::ask(0, input::VERSION_WIDTH),
    }
}

// A line is said, and the run is over.
// `unpack` and `planlist` have such a one too, since each promises what its own next step needs.
fn say(place: Place, subject: Subject, word: Word, line: &mut [u8; LINE_BYTES]) -> Turn
    ensures { Gives (says (awaits place Wait.Nothing) subject word 0) result line.old line.new }
{
    turns::saying(awaiting(place, Wait::Nothing), subject, word, line)
}

// After the version byte, if there was one: the rest of the head is read.
fn version_step(place: Place, got: &[u8], line: &mut [u8; LINE_BYTES]) -> Turn
    ensures { Gives (version_told place (version_in got.now)) result line.old line.new }
{
    match input::read_version(got) {
        None => say(place, Subject::Input, Word::NoHead, line),
        Some(version) => Turn {
            place: awaiting(place, Wait::Head(version)),
            order: turns::ask(0, input::mtu_width(version) + train::NUMBER_WIDTH),
        },
    }
}

// After the rest of the head, or what there was of it: the version byte of the train is written.
fn head_step(
    place: Place,
    version: InputVersion,
    got: &[u8],
    written: &mut [u8],
    line: &mut [u8; LINE_BYTES],
) -> Turn
    requires { 0 < length written.old }
    ensures { Gives (head_told place (head_after version got.now)) result line.old line.new
        × (written.new ≡ front (head_told place (head_after version got.now)).written written.old) }
{
    let Some(head) = input::read_head(got, version) else {
        return say(place, Subject::Input, Word::NoHead, line);
    };
    let train_head = train::head_for(head.mtu);
    written[0] = train_head.version;
    Turn {
        place: Place {
            wait: Wait::Length,
            mtu: head.mtu,
            number: head.first,
            ..place
        },
        order: turns::ask(1, input::UNIT_WIDTH),
    }
}

// After a unit's length, or what there was of it.
fn length_step(place: Place, got: &[u8], line: &mut [u8; LINE_BYTES]) -> Turn
    ensures { Gives (length_told place (length_in got.now)) result line.old line.new }
{
    match input::read_unit_length(got) {
        Ok(None) => Turn {
            place: awaiting(place, Wait::Nothing),
            order: turns::over(),
        },
        Ok(Some(stated)) => Turn {
            place: awaiting(place, Wait::Unit(stated)),
            order: turns::ask(0, stated),
        },
        Err(Cut) => say(place, Subject::Unit(place.count), Word::Cut, line),
    }
}

// After a unit of so many bytes, or what there was of it.
fn unit_step(
    place: Place,
    stated: usize,
    got: &[u8],
    obus: &mut [u32; OBU_LIST_NUMBERS],
    plan: &mut [u32],
    line: &mut [u8; LINE_BYTES],
) -> Turn
    requires { (stated ≤ unit_store) × (length plan.old ≡ plan_list_numbers) }
    ensures { Gives (unit_told place stated (step_in place.mtu stated got.now)) result line.old line.new
        × ReadyAt result.place got.now obus.new plan.new }
{
    match unit::pack_unit(place.mtu, stated, got, obus, plan) {
        Err(UnitFault::Cut) => say(place, Subject::Unit(place.count), Word::Cut, line),
        Err(UnitFault::Refused(refusal)) => {
            let word = Word::Refused(base::number(refusal));
            say(place, Subject::Unit(place.count), word, line)
        }
        Ok(planned) => {
            // copied one by one: a run also holds how long the unit is and which packet is next, and the definitions have the four flat
            let first = Progress {
                unit: stated,
                obus: planned.obus,
                packets: planned.packets,
                packet: 0,
            };
            Turn {
                place: awaiting(place, Wait::Packets(first)),
                order: turns::ask(0, 0),
            }
        }
    }
}

// The next packet of a unit, which there is: its record is written.
fn record_turn(
    place: Place,
    progress: Progress,
    unit: &[u8],
    obus: &[u32],
    plan: &[u32],
    written: &mut [u8],
) -> Turn
    requires lent_packets { LentPackets place.mtu progress unit.now obus.now plan.now written.old }
    requires packet_lt_packets { progress.packet < progress.packets }
    ensures { ((line : List ℕ) → Gives (packet_told place progress (payloads_of place.mtu unit.now)) result line line)
        × (written.new ≡ front (packet_told place progress (payloads_of place.mtu unit.now)).written written.old)
        × ReadyAt result.place unit.now obus.now plan.now }
{
    let listed = progress.obus * obu::OBU_NUMBERS;
    let recorded = progress.packets * packetizer::PLAN_NUMBERS;
    let k = progress.packet;
    let train_head = train::head_for(place.mtu);
    let end = unit::put_record(
        place.mtu,
        unit,
        &obus[..listed],
        &plan[..recorded],
        k,
        train_head.width,
        place.number,
        written,
    );
    let after = Progress {
        packet: k + 1,
        ..progress
    };
    Turn {
        place: Place {
            wait: Wait::Packets(after),
            number: place.number.wrapping_add(1),
            ..place
        },
        order: turns::ask(end, 0),
    }
}

// The next packet of a unit, or the next unit where there is none.
fn packet_step(
    place: Place,
    progress: Progress,
    unit: &[u8],
    obus: &[u32],
    plan: &[u32],
    written: &mut [u8],
) -> Turn
    requires { LentPackets place.mtu progress unit.now obus.now plan.now written.old }
    ensures { ((line : List ℕ) → Gives (packet_told place progress (payloads_of place.mtu unit.now)) result line line)
        × (written.new ≡ front (packet_told place progress (payloads_of place.mtu unit.now)).written written.old)
        × ReadyAt result.place unit.now obus.now plan.now }
{
    if progress.packet < progress.packets {
        return record_turn(place, progress, unit, obus, plan, written);
    }
    Turn {
        place: following(place),
        order: turns::ask(0, input::UNIT_WIDTH),
    }
}

// The next turn, by what came of the one before: all that `pack` decides.
// The stores are lent apart and not as a struct: each step takes others of them, and they are the program's.
// Plan and record are slices: that they have these lengths is a fact that a caller proves, and not only a type.
// Helper: every store must have exactly its length (L12 to L14), no more bytes may have come than the input holds, a unit that is waited
// for must fit, and while its packets are written it must stand first in the input, its list and plan as the step before left them.
pub fn step(
    place: Place,
    came: Came,
    input: &[u8; UNIT_STORE],
    obus: &mut [u32; OBU_LIST_NUMBERS],
    plan: &mut [u32],
    written: &mut [u8],
    line: &mut [u8; LINE_BYTES],
) -> Turn
    requires { Lent place came input.now obus.old plan.old written.old line.old }
    ensures { Gives (told place (arrival came input.now) input.now) result line.old line.new
        × (written.new ≡ front (told place (arrival came input.now) input.now).written written.old)
        × ReadyAt result.place input.now obus.new plan.new }
{
    let wait = place.wait;
    match came {
        Err(Failure::Read) => {
            let about = subjects::read_subject(wait, place.count);
            say(place, about, Word::ReadFailed, line)
        }
        Err(Failure::Write) => {
            let about = subjects::written_subject(wait, place.count);
            say(place, about, Word::WriteFailed, line)
        }
        // one step for each thing that is waited for
        Ok(n) => match wait {
            Wait::Version => version_step(place, &input[..n], line),
            Wait::Head(version) => head_step(place, version, &input[..n], written, line),
            Wait::Length => length_step(place, &input[..n], line),
            Wait::Unit(stated) => unit_step(place, stated, &input[..n], obus, plan, line),
            Wait::Packets(progress) => {
                let unit = &input[..progress.unit];
                packet_step(place, progress, unit, obus, plan, written)
            }
            Wait::Nothing => Turn {
                place,
                order: turns::over(),
            },
        },
    }
}
