// The head of the input (G8, L12).
ghost use Rattle.std.specs.Prelude.{◌≡◌};
ghost use Rattle.listing.specs.Input.{head_of};
ghost use Rattle.listing.specs.Paper.{paper_head};

use crate::Stated;
use base::big_endian::number_at;

// The version byte; the widths of the mtu and of the length.
const VERSION: u8 = 1;

const MTU_WIDTH: usize = 2;

const LENGTH_WIDTH: usize = 4;

// What the head states, if it is whole, of this version, and of a unit that the store holds.
pub fn read_head(head: &[u8]) -> Option<Stated>
    ensures { paper_head result ≡ head_of head.now }
{
    if head.len() < crate::HEAD_BYTES || head[0] != VERSION {
        return None;
    }
    let mtu = number_at(head, 1, MTU_WIDTH);
    let length = number_at(head, 1 + MTU_WIDTH, LENGTH_WIDTH);
    if length > crate::UNIT_STORE {
        return None;
    }
    Some(Stated { mtu, length })
}
