// `unpack` as steps on lent bytes: all that it decides (G1, G5 to G7, G14 to G16, L14, L15). The program does as each turn orders.
#![tactic(auto)]

mod losses;
mod passing;
mod records;

ghost use Rattle.std.specs.Prelude.{◌≡◌, [], length};
ghost use Rattle.base.specs.Refusals.{number_of};
ghost use Rattle.train.specs.Train.{counted_width, fields_of, head_of};
ghost use Rattle.receiver.specs.Call.{answering};
ghost use Rattle.turns.specs.Orders.{arrival, says};
ghost use Rattle.unpacking.specs.Unpack.{output_bytes, step_of};
ghost use Rattle.unpacking.specs.Steps.{awaits, first, next, read_of, written_of, starts_with, close_told, version_told, broken_told, fields_told, payload_told, stepped, Possible, Gives, Comes, Lent};

use base::Refusal;
use losses::Losses;
use receiver::State;
use records::RecordFault;
use train::RecordFields;
use turns::{Came, Failure, LINE_BYTES, Subject, Word};

// The bytes of the version, of a payload, of the output, and of the fragment store (L14, L15).
const VERSION_BYTES: usize = 1;

pub const PAYLOAD_BYTES: usize = 65536;

pub use turns::OUTPUT_BYTES;

pub const FRAGMENT_STORE: usize = 32768;

// What a run waits for: the version byte, what stands before a payload, a payload, so many bytes of one that is read away, the close of
// the run, or nothing.
#[derive(Clone, Copy)]
pub enum Wait {
    Version,
    Fields,
    Payload(RecordFields),
    Away(usize),
    Close,
    Nothing,
}

// Where a run stands: what it waits for, how many records came before, the width of the train's length fields once its head was read,
// the receiver's state, and what was lost.
// That the width is possible is a clause and no invariant: what a step is lent, and what a run goes on from, are said by it.
#[derive(Clone, Copy)]
pub struct Place {
    pub wait: Wait,
    pub count: u64,
    pub width: usize,
    pub state: State,
    pub losses: Losses,
}

// What the program does now, and where it then stands.
pub type Turn = turns::Turn<Place>;

// The same record, with this to wait for.
// Each program has its own `Place`: a generic one would need a trait, for one struct update.
fn awaiting(place: Place, wait: Wait) -> Place
    ensures { result ≡ awaits place wait }
{
    Place { wait, ..place }
}

// The first record of a train with length fields of this width.
fn beginning(place: Place, width: usize) -> Place
    ensures { result ≡ first place width }
{
    Place {
        wait: Wait::Fields,
        width,
        ..place
    }
}

// The next record, with this state and these losses.
fn following(place: Place, state: State, losses: Losses) -> Place
    ensures { result ≡ next place state losses }
{
    Place {
        wait: Wait::Fields,
        count: turns::next_count(place.count),
        state,
        losses,
        ..place
    }
}

// What a run begins with: the version byte is read.
pub fn start() -> Turn
    ensures { Gives starts_with result [] [] }
{
    Turn {
        place: Place {
            wait: Wait::Version,
            count: 0,
            width: 0,
            state: receiver::FRESH,
            losses: losses::NONE,
        },
        order: turns::ask(0, VERSION_BYTES),
    }
}

// The run is at its end: what was lost is said, if anything was.
fn close(place: Place, line: &mut [u8; LINE_BYTES]) -> Turn
    requires { Possible place }
    ensures { Gives (close_told place) result line.old line.new }
{
    let lost = losses::with_open(place.losses, place.state.open);
    let last = awaiting(place, Wait::Nothing);
    if losses::is_none(lost) {
        return Turn {
            place: last,
            order: turns::over(),
        };
    }
    let said = losses::put_losses(lost, line);
    Turn {
        place: last,
        order: turns::tell(said, 0),
    }
}

// A line is said, and then this is waited for; nothing is read.
// `pack` and `planlist` have such a one too, since each promises what its own next step needs.
fn say(place: Place, wait: Wait, subject: Subject, word: Word, line: &mut [u8; LINE_BYTES]) -> Turn
    requires { Possible place }
    ensures { Gives (says (awaits place wait) subject word 0) result line.old line.new }
{
    turns::saying(awaiting(place, wait), subject, word, line)
}

// Reading stops at this record.
fn stop_at(place: Place, refusal: Refusal, line: &mut [u8; LINE_BYTES]) -> Turn
    requires { Possible place }
    ensures { Gives (broken_told place (number_of refusal)) result line.old line.new }
{
    let word = Word::Refused(base::number(refusal));
    say(place, Wait::Close, Subject::Record(place.count), word, line)
}

// After the version byte, or nothing.
fn version_step(place: Place, got: &[u8], line: &mut [u8; LINE_BYTES]) -> Turn
    requires { Possible place }
    ensures { Gives (version_told place (head_of got.now)) result line.old line.new }
{
    match train::read_head(got) {
        Ok(head) => Turn {
            place: beginning(place, head.width),
            order: turns::ask(0, head.width + train::NUMBER_WIDTH),
        },
        Err(refusal) => {
            let word = Word::Refused(base::number(refusal));
            say(place, Wait::Close, Subject::Train, word, line)
        }
    }
}

// After what stands before a payload, or what there was of it.
fn fields_step(place: Place, got: &[u8], line: &mut [u8; LINE_BYTES]) -> Turn
    requires { Possible place }
    ensures { Gives (fields_told place (fields_of (counted_width place.width) got.now)) result line.old line.new }
{
    match train::read_fields(got, place.width) {
        Ok(None) => close(place, line),
        Err(refusal) => stop_at(place, refusal, line),
        Ok(Some(fields)) if PAYLOAD_BYTES < fields.length => {
            passing::read_away(place, fields.length)
        }
        Ok(Some(fields)) => Turn {
            place: awaiting(place, Wait::Payload(fields)),
            order: turns::ask(0, fields.length),
        },
    }
}

// After the payload of a record with these fields, or what there was of it.
// The length of `out` is a clause and no type, since `step` is lent a slice.
fn payload_step(
    place: Place,
    fields: RecordFields,
    got: &[u8],
    store: &mut [u8],
    out: &mut [u8],
    line: &mut [u8; LINE_BYTES],
) -> Turn
    requires { (length out.old ≡ output_bytes) × Possible place }
    ensures { Comes (answering (payload_told place) (step_of place.state fields got.now store.old out.old))
        result line.old line.new store.new out.new }
{
    match records::unpack_record(place.state, fields, got, store, out) {
        Err(RecordFault::Broken(refusal)) => stop_at(place, refusal, line),
        Err(RecordFault::PassedOver(refusal)) => passing::pass_over(place, refusal, line),
        Ok(taken) => {
            let lost = losses::with_taken(place.losses, taken.fragment_lost, taken.element_lost);
            Turn {
                place: following(place, taken.state, lost),
                order: turns::ask(taken.bytes, place.width + train::NUMBER_WIDTH),
            }
        }
    }
}

// What a run reads where it stands, for the line of a failed read.
fn read_subject(wait: Wait, k: u64) -> Subject
    ensures { result ≡ read_of wait k }
{
    match wait {
        Wait::Version => Subject::Train,
        _ => Subject::Record(k),
    }
}

// Whose bytes were written before what stands before the payload of record k is read, for the line of a failed write.
fn written_subject(k: u64) -> Subject
    ensures { result ≡ written_of k }
{
    if k == 0 {
        Subject::Train
    } else {
        Subject::Record(k - 1)
    }
}

// The next turn, by what came of the one before: all that `unpack` decides.
// The stores are lent apart and not as a struct: each step takes others of them, and they are the program's.
// Input, store and output are slices: that they have these lengths is a fact that a caller proves, and not only a type.
// Helper: every store must have exactly its length (L14, L15), no more bytes may have come than the input holds, and the width must be
// one that a train has.
pub fn step(
    place: Place,
    came: Came,
    input: &[u8],
    store: &mut [u8],
    out: &mut [u8],
    line: &mut [u8; LINE_BYTES],
) -> Turn
    requires { Lent place came input.now store.old out.old line.old }
    ensures { Comes (stepped place (arrival came input.now) store.old out.old)
        result line.old line.new store.new out.new }
{
    match came {
        Err(Failure::Read) => {
            let about = read_subject(place.wait, place.count);
            say(place, Wait::Nothing, about, Word::ReadFailed, line)
        }
        Err(Failure::Write) => {
            let about = written_subject(place.count);
            say(place, Wait::Nothing, about, Word::WriteFailed, line)
        }
        // one step for each thing that is waited for
        Ok(n) => match place.wait {
            Wait::Version => version_step(place, &input[..n], line),
            Wait::Fields => fields_step(place, &input[..n], line),
            Wait::Payload(fields) => { payload_step(place, fields, &input[..n], store, out, line) }
            Wait::Away(left) => passing::away_step(place, left, &input[..n], line),
            Wait::Close => close(place, line),
            Wait::Nothing => Turn {
                place,
                order: turns::over(),
            },
        },
    }
}
