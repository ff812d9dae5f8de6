// The OBUs of a unit from its first byte to its end (O1, O5 to O8, F6): counted, and their records stored.
// Each loop over a unit is by a cursor and for itself, as compare_obus too: one loop with a flag was slower.
ghost use Rattle.std.specs.Prelude.{◌≡◌, ◌*◌, ◌≤◌, length};
ghost use Rattle.base.specs.Answers.{paper_at};
ghost use Rattle.base.specs.Lists.{front};
ghost use Rattle.obu.specs.Records.{obu_numbers, flat};
ghost use Rattle.obu.specs.Unit.{unit_limit, ended, scan_of, kept_of, obus_of, listed};

use crate::{Listed, OBU_NUMBERS};
use base::{Refusal, RefusedAt};

// Goes through a unit, with space for so many records: counts the kept OBUs and the padded size fields.
// Helper: the unit must be within its limit.
pub fn count_obus(unit: &[u8], space: usize) -> Result<Listed, RefusedAt>
    requires { length unit.now ≤ unit_limit }
    ensures { paper_at result ≡ listed space unit.now }
{
    let mut at = 0;
    let mut obus = 0;
    let mut padded = 0;
    while at < unit.len() {
        let head = crate::head_at(unit, at)?;
        padded += usize::from(head.is_padded());
        if !head.is_dropped() {
            if obus == space {
                return Err(RefusedAt {
                    refusal: Refusal::ObuListFull,
                    at,
                });
            }
            obus += 1;
        }
        at += head.span();
    }
    Ok(Listed { obus, padded })
}

// Stores the records of a unit's kept OBUs.
// Helper: the unit must be within its limit and read to its end, and the list have space for all records.
pub fn store_obus(unit: &[u8], obus: &mut [u32])
    requires { (length unit.now ≤ unit_limit) × ((scan_of unit.now).stop ≡ ended)
        × (length (kept_of unit.now) * obu_numbers ≤ length obus.old) }
    ensures { obus.new ≡ front (flat (obus_of unit.now)) obus.old }
{
    let mut at = 0;
    let mut n = 0;
    while at < unit.len() {
        // never an error, since the unit was counted before
        let Ok(head) = crate::head_at(unit, at) else {
            return;
        };
        if !head.is_dropped() {
            base::put_numbers(obus, n * OBU_NUMBERS, &head.record_at(at).numbers());
            n += 1;
        }
        at += head.span();
    }
}
