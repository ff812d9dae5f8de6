// From element to element of a payload, by W (E2, E3, E5, F6): how many there are, element k, the last, and how many length fields are
// padded.
ghost use Rattle.std.specs.Prelude.{◌≡◌, ◌-◌, ◌≤◌, ◌<◌, cond, length, drop};
ghost use Rattle.leb128.specs.Field.{is_padded};
ghost use Rattle.element.specs.Elements.{counting};
ghost use Rattle.base.specs.Answers.{paper_at};
ghost use Rattle.element.specs.Paper.{with_part, walked};
ghost use Rattle.element.specs.Laws.{Fielded, Countable, Within};

use crate::{Part, Walked};
use base::{Refusal, RefusedAt};

// This part where told to, else the one kept so far: number by number, so that they stay in registers.
fn kept_of(here: bool, part: Part, kept: Part) -> Part
    ensures { result ≡ cond here part kept }
{
    if here {
        Part {
            start: part.start,
            length: part.length,
            next: part.next,
        }
    } else {
        Part {
            start: kept.start,
            length: kept.length,
            next: kept.next,
        }
    }
}

// Whether an element, which begins at `at`, has a padded length field: one of two bytes or more, the last of which is 0.
fn has_padded_length(payload: &[u8], at: usize, part: Part) -> bool
    requires { Fielded payload.now at part }
    ensures { result ≡ is_padded part.length (part.start - at) }
{
    part.start - at >= 2 && payload[part.start - 1] == 0
}

// One element more, which begins at `at`: counted, kept if it is element k, and the last so far; number by number, as above.
fn with_part(payload: &[u8], all: Walked, k: usize, at: usize, part: Part) -> Walked
    requires { Countable payload.now all at part }
    ensures { result ≡ with_part k all at part }
{
    Walked {
        elements: all.elements + 1,
        kept: kept_of(all.elements == k, part, all.kept),
        last: Part {
            start: part.start,
            length: part.length,
            next: part.next,
        },
        padded: all.padded + usize::from(has_padded_length(payload, at, part)),
    }
}

// Elements with a length field up to the end of the payload, of which there is one: how many, element k, the last, and how many length
// fields are padded.
fn walk_to_end(payload: &[u8], k: usize) -> Result<Walked, RefusedAt>
    requires { Within payload.now × (1 < length payload.now) }
    ensures { paper_at result ≡ walked k (counting 0 (drop 1 payload.now)) }
{
    let mut at: usize = 1;
    let mut all = Walked::default();
    while at < payload.len() {
        let part = crate::read_element(payload, at, true)?;
        all = with_part(payload, all, k, at, part);
        at = part.next;
    }
    Ok(all)
}

// So many elements, each but the last with a length field: the same of them. `all` counts them, so that no index stands beside it.
fn walk_counted(payload: &[u8], w: usize, k: usize) -> Result<Walked, RefusedAt>
    requires { Within payload.now × (1 ≤ w) }
    ensures { paper_at result ≡ walked k (counting w (drop 1 payload.now)) }
{
    let mut at: usize = 1;
    let mut all = Walked::default();
    while all.elements < w {
        let part = crate::read_element(payload, at, all.elements + 1 != w)?;
        all = with_part(payload, all, k, at, part);
        at = part.next;
    }
    Ok(all)
}

// The elements after the header, by W: by two loops, since one with a flag took more instructions.
// Helper: the payload must be neither empty nor over its limit.
pub fn walk_by_w(payload: &[u8], w: usize, k: usize) -> Result<Walked, RefusedAt>
    requires { Within payload.now }
    ensures { paper_at result ≡ walked k (counting w (drop 1 payload.now)) }
{
    if w > 0 {
        return walk_counted(payload, w, k);
    }
    if payload.len() == 1 {
        return Err(RefusedAt {
            refusal: Refusal::ElementBad,
            at: 1,
        });
    }
    walk_to_end(payload, k)
}
