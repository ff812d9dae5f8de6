// What `unpack` lost, and the line that says so (G15).
ghost use Rattle.std.specs.Prelude.{◌≡◌, length};
ghost use Rattle.base.specs.Lists.{front};
ghost use Rattle.unpacking.specs.Unpack.{counted_if, with_taken, with_passed, with_open, is_none, losses_line};

use turns::LINE_BYTES;

// Packets passed over, open fragments and leading elements thrown away.
#[derive(Clone, Copy)]
pub struct Losses {
    pub packets: u64,
    pub fragments: u64,
    pub elements: u64,
}

pub const NONE: Losses = Losses {
    packets: 0,
    fragments: 0,
    elements: 0,
};

// One more, if it is so.
// An `if`, as the definition has it: to add the bool as a number is no plainer.
fn counted_if(so: bool, k: u64) -> u64
    ensures { result ≡ counted_if so k }
{
    if so { turns::next_count(k) } else { k }
}

// After a packet that was passed over.
pub fn with_passed(before: Losses) -> Losses
    ensures { result ≡ with_passed before }
{
    Losses {
        packets: turns::next_count(before.packets),
        ..before
    }
}

// After a packet that was taken, and threw this away.
// Two flags, as a `Received` has them.
pub fn with_taken(before: Losses, fragment: bool, element: bool) -> Losses
    ensures { result ≡ with_taken before (record { fragment = fragment; element = element }) }
{
    Losses {
        fragments: counted_if(fragment, before.fragments),
        elements: counted_if(element, before.elements),
        ..before
    }
}

// At the end, where so many bytes are still open.
pub fn with_open(before: Losses, bytes: usize) -> Losses
    ensures { result ≡ with_open before bytes }
{
    with_taken(before, 0 < bytes, false)
}

// Nothing was lost.
pub fn is_none(losses: Losses) -> bool
    ensures { result ≡ is_none losses }
{
    losses.packets == 0 && losses.fragments == 0 && losses.elements == 0
}

// The line at the front of the bytes lent, and how many it has.
pub fn put_losses(losses: Losses, line: &mut [u8; LINE_BYTES]) -> usize
    ensures { (result ≡ length (losses_line losses)) × (line.new ≡ front (losses_line losses) line.old) }
{
    let passed = turns::put_labelled(b"lost: ", losses.packets, line, 0);
    let open = turns::put_labelled(b" packets passed over, ", losses.fragments, line, passed);
    let end = turns::put_labelled(b" open fragments, ", losses.elements, line, open);
    base::put_text(b" leading elements\n", line, end)
}
