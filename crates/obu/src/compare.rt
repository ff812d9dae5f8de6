// Whether a lent flat list is the one that a unit gives (R31).
ghost use Rattle.std.specs.Prelude.{◌≡◌, ◌≤◌, length};
ghost use Rattle.base.specs.Answers.{paper_at};
ghost use Rattle.obu.specs.Unit.{unit_limit, same_list};

use crate::{OBU_NUMBERS, UNIT_LIMIT};
use base::{Refusal, RefusedAt};

// How many OBUs of a unit are kept.
#[derive(Clone, Copy)]
pub struct Kept {
    pub obus: usize,
}

// Goes through a unit to its end, and compares the record of each kept OBU with that of the list.
fn compare_obus(unit: &[u8], obus: &[u32]) -> Result<Kept, RefusedAt>
    requires { length unit.now ≤ unit_limit }
    ensures { paper_at result ≡ same_list unit.now obus.now }
{
    let mut at = 0;
    let mut n = 0;
    let mut same = true; // the unit is read to its end all the same: its refusals come before that of the list
    while at < unit.len() {
        let head = crate::head_at(unit, at)?;
        if !head.is_dropped() {
            let numbers = head.record_at(at).numbers();
            same = same && base::same_numbers(obus, n * OBU_NUMBERS, &numbers);
            n += 1;
        }
        at += head.span();
    }
    if !same {
        return Err(Refusal::ListsDiffer.into());
    }
    Ok(Kept { obus: n })
}

// Whether a lent flat list begins with the records of a unit's kept OBUs: how many there are, or 31.
pub fn same_list(unit: &[u8], obus: &[u32]) -> Result<Kept, RefusedAt>
    ensures { paper_at result ≡ same_list unit.now obus.now }
{
    if unit.len() > UNIT_LIMIT {
        return Err(Refusal::UnitOverLimit.into());
    }
    compare_obus(unit, obus)
}
