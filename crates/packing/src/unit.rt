// One unit planned, and the record of one of its packets at a time (G3, G4).
ghost use Rattle.std.specs.Prelude.{◌≡◌, ◌/◌, ◌≤◌, length, take, IfOk};
ghost use Rattle.base.specs.Lists.{Put};
ghost use Rattle.obu.specs.Records.{obu_numbers};
ghost use Rattle.packetizer.specs.Records.{plan_numbers};
ghost use Rattle.payloader.specs.Payload.{payload_at};
ghost use Rattle.train.specs.Train.{record_bytes};
ghost use Rattle.packing.specs.Pack.{unit_store, answer_in, unit_in};
ghost use Rattle.packing.specs.Paper.{paper_unit};
ghost use Rattle.packing.specs.Steps.{begins, Ready, Recordable};
ghost use Rattle.packing.specs.declared.unit.UnitFault.TheVariants as fault;

use base::{Refusal, RefusedAt};
use packetizer::Planned;

// The packets of a unit that is packed: how many bytes it has, how many OBUs and packets, and which packet is the next to be written.
#[derive(Clone, Copy)]
pub struct Progress {
    pub unit: usize,
    pub obus: usize,
    pub packets: usize,
    pub packet: usize,
}

// Why a unit is not packed.
#[derive(Clone, Copy)]
pub enum UnitFault {
    Refused(Refusal),
    Cut,
}

// The place that a refusal carries is not said.
impl From<RefusedAt> for UnitFault {
    ghost from_gives = { λ refused it. it ≡ fault.Refused refused.refusal };

    fn from(refused: RefusedAt) -> UnitFault {
        UnitFault::Refused(refused.refusal)
    }
}

// Writes the record of packet k, with a length field of this width: what stands before the payload, and the payload right behind it.
// Returns how many bytes it has. Unit and lists are lent apart, as the calls take them: a struct of them would be made for these alone.
// Helper: the lists must hold the records of this unit and of its plan and nothing else, packet k be there, the field able to state the
// payload's length, and `written` must have space for the record.
pub fn put_record(
    mtu: usize,
    unit: &[u8],
    obus: &[u32],
    plan: &[u32],
    k: usize,
    width: usize,
    number: u16,
    written: &mut [u8],
) -> usize
    requires { Recordable mtu unit.now obus.now plan.now k width written.old }
    ensures { Put written.old written.new 0 result (record_bytes width (record { number = number; payload = payload_at mtu unit.now k })) }
{
    // `as`: there is no `From` from `u32` to `usize`
    let size = packetizer::packet_at(plan, k).packet_size as usize + 1;
    let body = train::put_record_head(written, 0, width, number, size);
    let new = aggregation::new_at(unit, obus, k);
    payloader::put_packet(mtu, unit, obus, plan, k, new, written, body)
}

// List and plan of a unit of so many bytes, which stands at the front of the bytes given, or what there is of it.
// Helper: the stated length must be at most that of the unit store.
pub fn pack_unit(
    mtu: usize,
    stated: usize,
    bytes: &[u8],
    obus: &mut [u32],
    plan: &mut [u32],
) -> Result<Planned, UnitFault>
    requires { stated ≤ unit_store }
    ensures answer { paper_unit result ≡ unit_in (answer_in (length obus.old / obu_numbers) (length plan.old / plan_numbers)) mtu stated bytes.now }
    ensures ready { IfOk result (λ p. Ready mtu (begins stated p) (take stated bytes.now) obus.new plan.new) }
{
    if bytes.len() < stated {
        return Err(UnitFault::Cut);
    }
    Ok(packetizer::plan_unit(mtu, &bytes[..stated], obus, plan)?)
}
