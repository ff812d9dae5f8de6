// The receiver (V1 to V18): one packet taken, its finished OBUs handed out, the fragment that it leaves open kept in the store.
#![tactic(auto)]

ghost use Rattle.std.specs.Prelude.{◌≡◌, ◌≤◌, nat_eq};
ghost use Rattle.receiver.specs.Joining.{distance, is_ahead, is_in_step, label};
ghost use Rattle.receiver.specs.Call.{too_long, inputs, leaves, received};
ghost use Rattle.receiver.specs.Inside.{kept_bytes, left_open, IsCut, Opened};
ghost use Rattle.element.specs.Header.{z_bit, y_bit};
ghost use Rattle.base.specs.Answers.{paper};

use base::Refusal;
use element::Walked;
use handing::FinishedObus;

// The furthest that a packet can be ahead.
const FURTHEST_AHEAD: u16 = 32767;

// Whether something was taken, the last number taken, and how many bytes of the store are the open fragment.
// Three plain fields, as the C interface has them: `receive` answers for each state that three words can make.
#[derive(Clone, Copy)]
pub struct State {
    pub begun: bool,
    pub last: u16,
    pub open: usize,
}

// A fresh state: nothing was taken, and nothing is open.
pub const FRESH: State = State {
    begun: false,
    last: 0,
    open: 0,
};

// The padded fields of a packet: the length fields of its elements, thrown away or not, and the size fields of the OBUs that it finishes.
#[derive(Clone, Copy)]
pub struct Padded {
    pub lengths: usize,
    pub sizes: usize,
}

// What a packet that is taken gives: the new state, how many bytes go out, its padded fields, and whether an open fragment, and whether an
// element, was thrown away.
#[derive(Clone, Copy)]
pub struct Received {
    pub state: State,
    pub bytes: usize,
    pub padded: Padded,
    pub fragment_lost: bool,
    pub element_lost: bool,
}

// The bytes of a fragment: the first `kept` of the store, then `size` of the payload from `start` on.
#[derive(Clone, Copy)]
struct Fragment {
    kept: usize,
    start: usize,
    size: usize,
}

// How the elements of a packet are cut: `joined` bytes of the store go before the first; the first `from` are thrown away, and the one
// after them begins at `cursor`; those up to `to` are finished; and what is left open.
#[derive(Clone, Copy)]
struct Cut {
    joined: usize,
    from: usize,
    cursor: usize,
    to: usize,
    left: Fragment,
}

impl State {
    // The forward distance from the last number, modulo 65,536.
    fn forward(self, number: u16) -> u16
        ensures { result ≡ distance self.last number }
    {
        number.wrapping_sub(self.last)
    }

    // Nothing was taken, or the distance is 1 to 32,767.
    #[tactic(auto, unfolding(crate::specs::Joining::is_ahead))]
    fn is_ahead(self, number: u16) -> bool
        ensures { result ≡ is_ahead self.begun self.last number }
    {
        !self.begun || (1..=FURTHEST_AHEAD).contains(&self.forward(number))
    }

    // Something was taken, and the distance is 1.
    #[tactic(auto, unfolding(crate::specs::Joining::is_in_step))]
    fn is_in_step(self, number: u16) -> bool
        ensures { result ≡ is_in_step self.begun self.last number }
    {
        self.begun && self.forward(number) == 1
    }

    // How many bytes of the open fragment the first element joins.
    #[tactic(auto, unfolding(crate::specs::Joining::follows))]
    fn joining(self, number: u16, z: bool) -> usize
        ensures { result ≡ kept_bytes self (label number) z }
    {
        if z && self.is_in_step(number) {
            self.open
        } else {
            0
        }
    }

    // How the elements of a packet with this number and header are cut.
    fn cut(self, number: u16, header: u8, all: Walked) -> Cut
        requires { 1 ≤ all.elements }
        ensures { IsCut self (label number) (nat_eq (z_bit header) 1) (nat_eq (y_bit header) 1) all result }
    {
        let z = element::header_z(header);
        let y = element::header_y(header);
        let joined = self.joining(number, z);
        // with Z and nothing to join, the first is thrown away
        let from = usize::from(z && joined == 0);
        Cut {
            joined,
            from,
            cursor: if from == 0 { 1 } else { all.kept.next },
            // with Y the last is not finished
            to: all.elements - usize::from(y),
            left: left_open(y, from, all, joined),
        }
    }
}

// What is left open of the elements from `from` on: with Y the last, else nothing.
fn left_open(y: bool, from: usize, all: Walked, joined: usize) -> Fragment
    ensures { result ≡ left_open y from all joined }
{
    if y && from < all.elements {
        let last = all.last;
        Fragment {
            // the joined bytes are in front of it if it is the only one
            kept: if all.elements - from == 1 { joined } else { 0 },
            start: last.start,
            size: last.length,
        }
    } else {
        Fragment {
            kept: 0,
            start: 0,
            size: 0,
        }
    }
}

// So many open bytes are more than the space of the store, or than a fragment may have.
fn too_long(size: usize, space: usize) -> bool
    ensures { result ≡ too_long space size }
{
    size > space || size > handing::FRAGMENT_LIMIT
}

// A packet that is ahead and has been read: everything is checked first and written after.
fn take_packet(
    state: State,
    number: u16,
    payload: &[u8],
    all: Walked,
    store: &mut [u8],
    out: &mut [u8],
) -> Result<Received, Refusal>
    requires { Opened (inputs state number payload.now store.old out.old) all }
    ensures { leaves (paper result) store.new out.new ≡ received (inputs state number payload.now store.old out.old) }
{
    let cut = state.cut(number, payload[0], all);
    let left = cut.left;
    let finished = FinishedObus {
        payload,
        cursor: cut.cursor,
        from: cut.from,
        to: cut.to,
        store,
        joined: cut.joined,
    };
    let handed = finished.count()?;
    let open = left.kept + left.size;
    if too_long(open, store.len()) {
        return Err(Refusal::FragmentTooLong);
    }
    if handed.bytes > out.len() {
        return Err(Refusal::NoRoomForObus);
    }
    finished.write(out);
    base::copy_bytes(payload, left.start, left.size, store, left.kept);
    Ok(Received {
        state: State {
            begun: true,
            last: number,
            open,
        },
        bytes: handed.bytes,
        padded: Padded {
            lengths: all.padded,
            sizes: handed.padded,
        },
        // joined is all that was open, or nothing
        fragment_lost: cut.joined < state.open,
        element_lost: cut.from > 0,
    })
}

// Takes one packet.
#[tactic(auto, unfolding(crate::specs::Call::outcome, crate::specs::Call::taken))]
pub fn receive(
    state: State,
    number: u16,
    payload: &[u8],
    store: &mut [u8],
    out: &mut [u8],
) -> Result<Received, Refusal>
    ensures { leaves (paper result) store.new out.new ≡ received (inputs state number payload.now store.old out.old) }
{
    if too_long(state.open, store.len()) {
        return Err(Refusal::StateImpossible);
    }
    if payload.is_empty() || payload.len() > element::PAYLOAD_LIMIT {
        return Err(Refusal::PayloadLength);
    }
    if !state.is_ahead(number) {
        return Err(Refusal::NotAhead);
    }
    let all = element::walk_within(payload, 0).map_err(|bad| bad.refusal)?;
    take_packet(state, number, payload, all, store, out)
}
