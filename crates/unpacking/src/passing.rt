// Packets that are passed over; a payload over the store is read away before (G5, G16).
ghost use Rattle.std.specs.Prelude.{◌≡◌, ℕ, List, length};
ghost use Rattle.base.specs.Refusals.{number_of};
ghost use Rattle.unpacking.specs.Steps.{passed_told, at_once, away_told, left_told, Possible, Gives};

use crate::{Place, Turn, Wait};
use base::Refusal;
use turns::{LINE_BYTES, Subject, Word};

// The packet of this record is passed over, and the next record is read.
// Helper: the width must be one that a train has.
pub fn pass_over(place: Place, refusal: Refusal, line: &mut [u8; LINE_BYTES]) -> Turn
    requires { Possible place }
    ensures { Gives (passed_told place (number_of refusal)) result line.old line.new }
{
    let lost = crate::losses::with_passed(place.losses);
    let word = Word::Refused(base::number(refusal));
    let read = place.width + train::NUMBER_WIDTH;
    Turn {
        place: crate::following(place, place.state, lost),
        order: turns::say(Subject::Record(place.count), word, read, line),
    }
}

// How many of so many bytes that are left are read at once.
fn at_once(left: usize) -> usize
    ensures { result ≡ at_once left }
{
    left.min(crate::PAYLOAD_BYTES)
}

// So many bytes are left of a payload over the store: the next of them are read.
// Helper: the width must be one that a train has.
pub fn read_away(place: Place, left: usize) -> Turn
    requires { Possible place }
    ensures { (line : List ℕ) → Gives (away_told place left) result line line }
{
    Turn {
        place: crate::awaiting(place, Wait::Away(left)),
        order: turns::ask(0, at_once(left)),
    }
}

// After the next of them, or what there was of these.
// Helper: the width must be one that a train has.
pub fn away_step(place: Place, left: usize, got: &[u8], line: &mut [u8; LINE_BYTES]) -> Turn
    requires { Possible place }
    ensures { Gives (left_told place left (length got.now)) result line.old line.new }
{
    if got.len() < at_once(left) {
        return crate::stop_at(place, Refusal::TrainCut, line);
    }
    if crate::PAYLOAD_BYTES < left {
        return read_away(place, left - crate::PAYLOAD_BYTES);
    }
    pass_over(place, Refusal::PayloadLength, line)
}
