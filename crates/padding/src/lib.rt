// `padded` as steps on lent bytes (G17): those of `pack`, but that the line of a unit is written in place of its packets. The program does
// as each turn orders, from the turn that `pack` begins with.
#![tactic(auto)]

ghost use Rattle.std.specs.Prelude.{◌≡◌, ℕ, ◌/◌, ◌≤◌, List, length};
ghost use Rattle.base.specs.Lists.{front};
ghost use Rattle.base.specs.Answers.{given};
ghost use Rattle.obu.specs.Unit.{listed_of, listed};
ghost use Rattle.obu.specs.Records.{obu_numbers};
ghost use Rattle.turns.specs.Orders.{arrival};
ghost use Rattle.packing.specs.Steps.{record_room, awaits, ReadyAt, Gives, Lent};
ghost use Rattle.padding.specs.Padded.{padded_in, line_of};
ghost use Rattle.padding.specs.Steps.{passed, told, out_after, Instead};

use packing::{OBU_LIST_NUMBERS, Place, Progress, Turn, UNIT_STORE, Wait};
use turns::{Came, LINE_BYTES, Order};

// The line of unit k at the front of the bytes lent, and how many it has.
fn put_line(k: u64, padded: usize, written: &mut [u8]) -> usize
    requires { length written.old ≡ record_room }
    ensures { (result ≡ length (line_of k padded)) × (result ≤ record_room) × (written.new ≡ front (line_of k padded) written.old) }
{
    let blank = turns::put_decimal(k, written, 0);
    // `as`: there is no `From` from `usize`
    let end = turns::put_labelled(b" ", padded as u64, written, blank);
    base::put_text(b"\n", written, end)
}

// How many size fields of a unit are padded. It was listed before, and is counted again with the space of that list.
fn padded_in(unit: &[u8], obus: &[u32]) -> usize
    requires { given (listed_of unit.now) ≡ listed (length obus.now / obu_numbers) unit.now }
    ensures { result ≡ padded_in unit.now }
{
    let Ok(listed) = obu::count_obus(unit, obus.len() / obu::OBU_NUMBERS) else {
        unreachable!();
    };
    listed.padded
}

// All packets of a unit count as written.
fn passing(progress: Progress) -> Progress
    ensures { result ≡ passed progress }
{
    Progress {
        packet: progress.packets,
        ..progress
    }
}

// A turn of `pack`, but that this is waited for, and so many bytes are written.
fn turned(turn: Turn, wait: Wait, write: usize) -> Turn
    ensures { (result.place ≡ awaits turn.place wait)
        × (result.order ≡ record { more = turn.order.more; write = write; say = turn.order.say; read = turn.order.read }) }
{
    Turn {
        place: Place { wait, ..turn.place },
        order: Order {
            write,
            ..turn.order
        },
    }
}

// In place of a turn of `pack`: where the packets of a unit are next its line is written, else nothing.
fn instead(turn: Turn, input: &[u8], obus: &[u32], written: &mut [u8]) -> Turn
    requires { ((plan : List ℕ) × ReadyAt turn.place input.now obus.now plan) × (length written.old ≡ record_room) }
    ensures { Instead turn result input.now written.old written.new }
{
    let place = turn.place;
    let wait = place.wait;
    if let Wait::Packets(progress) = wait {
        let padded = padded_in(&input[..progress.unit], obus);
        let end = put_line(place.count, padded, written);
        return turned(turn, Wait::Packets(passing(progress)), end);
    }
    turned(turn, wait, 0)
}

// The next turn, by what came of the one before: all that `padded` decides.
// Helper: what is lent must be as the step of `pack` asks.
pub fn step(
    place: Place,
    came: Came,
    input: &[u8; UNIT_STORE],
    obus: &mut [u32; OBU_LIST_NUMBERS],
    plan: &mut [u32],
    written: &mut [u8],
    line: &mut [u8; LINE_BYTES],
) -> Turn
    requires { Lent place came input.now obus.old plan.old written.old line.old }
    ensures { Gives (told place (arrival came input.now) input.now) result line.old line.new
        × (written.new ≡ out_after place (arrival came input.now) input.now written.old)
        × ReadyAt result.place input.now obus.new plan.new }
{
    let turn = packing::step(place, came, input, obus, plan, written, line);
    instead(turn, input, obus, written)
}
