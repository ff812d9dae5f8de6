// One packet of a train given to the receiver (G5, T3).
ghost use Rattle.std.specs.Prelude.{◌≡◌};
ghost use Rattle.receiver.specs.Call.{leaves, answering};
ghost use Rattle.unpacking.specs.Unpack.{step_of};
ghost use Rattle.unpacking.specs.Paper.{paper_step, answered};

use base::Refusal;
use receiver::{Received, State};
use train::RecordFields;

// What a record whose packet isn't taken leads to: the packet is passed over; or reading stops, as the record is cut.
#[derive(Clone, Copy)]
pub enum RecordFault {
    PassedOver(Refusal),
    Broken(Refusal),
}

// Gives the receiver the packet of a record with this number and a payload of this length, of which these bytes were read.
pub fn unpack_record(
    state: State,
    fields: RecordFields,
    payload: &[u8],
    store: &mut [u8],
    out: &mut [u8],
) -> Result<Received, RecordFault>
    ensures { leaves (paper_step result) store.new out.new
        ≡ answering answered (step_of state fields payload.now store.old out.old) }
{
    let Some(packet) = payload.get(..fields.length) else {
        return Err(RecordFault::Broken(Refusal::TrainCut));
    };
    // a `match`: with `map_err(RecordFault::PassedOver)` the goal `returns` stays open
    match receiver::receive(state, fields.number, packet, store, out) {
        Ok(received) => Ok(received),
        Err(refusal) => Err(RecordFault::PassedOver(refusal)),
    }
}
