// A case: packets given to the receiver, and its answer, its bytes, its state and what it threw away compared with what is expected.
use base::Refusal;
use receiver::{Padded, Received, State};
use std::io;

// The number of a case's first packet, the last before numbers wrap.
pub const FIRST: u16 = 65535;

// The bytes of a case's store, and of the lent output.
const STORE: usize = 16;

const OUTPUT: usize = 256;

// A case as far as it has come: the receiver's state, and its store.
#[derive(Clone, Copy)]
pub struct Case {
    state: State,
    store: [u8; STORE],
}

// What is thrown away with a packet: an open fragment, an element.
// Two flags, as a `Received` has them.
#[derive(Clone, Copy, PartialEq)]
pub struct Lost {
    pub fragment: bool,
    pub element: bool,
}

pub const NOTHING: Lost = Lost {
    fragment: false,
    element: false,
};

pub const FRAGMENT: Lost = Lost {
    fragment: true,
    element: false,
};

pub const ELEMENT: Lost = Lost {
    fragment: false,
    element: true,
};

pub const BOTH: Lost = Lost {
    fragment: true,
    element: true,
};

// What a packet that is taken gives: the bytes that go out, how many are open after it, and what is thrown away.
#[derive(Clone, Copy)]
pub struct Gives<'a> {
    pub bytes: &'a [u8],
    pub open: usize,
    pub lost: Lost,
}

// What is expected of a packet: that it is taken and gives this, or that it is refused with this number.
// A number and no `Refusal`: a case states what is published, apart from the library's names.
type Expected<'a> = Result<Gives<'a>, u32>;

pub fn end(rt: &impl Print) -> io::Result<()> {
    println!(rt; "")
}

// The first n bytes; all, if there are fewer.
fn first(bytes: &[u8], n: usize) -> &[u8] {
    &bytes[..n.min(bytes.len())]
}

// What came instead: the bytes that went out, how many are open, and what was thrown away.
fn print_taken(rt: &impl Print, got: Received, out: &[u8]) -> io::Result<()> {
    print!(rt; " out ")?;
    for b in first(out, got.bytes) {
        print!(rt; "{b:02x}")?;
    }
    print!(rt; " open {}", got.state.open)?;
    if got.fragment_lost {
        print!(rt; " fragment lost")?;
    }
    if got.element_lost {
        print!(rt; " element lost")?;
    }
    Ok(())
}

// How many of its length fields, and how many size fields of the OBUs that it finishes, are padded.
fn print_padded(rt: &impl Print, padded: Padded) -> io::Result<()> {
    if padded.lengths > 0 {
        print!(rt; " padded lengths {}", padded.lengths)?;
    }
    if padded.sizes > 0 {
        print!(rt; " padded sizes {}", padded.sizes)?;
    }
    Ok(())
}

// `vectors` prints such words too: a crate for this one line would be no plainer.
fn print_refused(rt: &impl Print, refusal: Refusal) -> io::Result<()> {
    print!(rt; " refused {}", base::number(refusal))
}

// The packet with this number was taken, and gave this.
fn is_as_expected(got: Received, out: &[u8], number: u16, gives: Gives) -> bool {
    let lost = Lost {
        fragment: got.fragment_lost,
        element: got.element_lost,
    };
    got.state.begun
        && got.state.last == number
        && got.state.open == gives.open
        && lost == gives.lost
        && check::same(first(out, got.bytes), gives.bytes)
}

impl Case {
    // Begins the line of a case, with a fresh receiver.
    pub fn begin(rt: &impl Print, n: usize) -> io::Result<Case> {
        print!(rt; "case {n}:")?;
        Ok(Case {
            state: receiver::FRESH,
            store: [0; STORE],
        })
    }

    // A packet that is taken and throws nothing away: these bytes go out, and so many are open after it.
    pub fn takes(
        &mut self,
        rt: &impl Print,
        number: u16,
        payload: &[u8],
        bytes: &[u8],
        open: usize,
    ) -> io::Result<()> {
        let gives = Gives {
            bytes,
            open,
            lost: NOTHING,
        };
        self.gives(rt, number, payload, gives)
    }

    // A packet that is taken, and gives this.
    pub fn gives(
        &mut self,
        rt: &impl Print,
        number: u16,
        payload: &[u8],
        gives: Gives,
    ) -> io::Result<()> {
        self.comes(rt, number, payload, Ok(gives))
    }

    // A packet that is refused, with this number.
    pub fn refuses(
        &mut self,
        rt: &impl Print,
        number: u16,
        payload: &[u8],
        refused: u32,
    ) -> io::Result<()> {
        self.comes(rt, number, payload, Err(refused))
    }

    // A packet of which this is expected. Only a packet that is taken changes the state.
    fn comes(
        &mut self,
        rt: &impl Print,
        number: u16,
        payload: &[u8],
        expected: Expected,
    ) -> io::Result<()> {
        let mut out = [0u8; OUTPUT];
        let came = receiver::receive(self.state, number, payload, &mut self.store, &mut out);
        if let Ok(got) = came {
            self.state = got.state;
        }
        match (came, expected) {
            (Ok(got), Ok(gives)) if is_as_expected(got, &out, number, gives) => {
                print!(rt; " ok")?;
                print_padded(rt, got.padded)
            }
            (Ok(got), _) => print_taken(rt, got, &out),
            (Err(refusal), Err(refused)) if base::number(refusal) == refused => print!(rt; " ok"),
            (Err(refusal), _) => print_refused(rt, refusal),
        }
    }
}

// A case of one packet, of which this is expected.
fn alone(rt: &impl Print, n: usize, payload: &[u8], expected: Expected) -> io::Result<()> {
    let mut case = Case::begin(rt, n)?;
    case.comes(rt, FIRST, payload, expected)?;
    end(rt)
}

// A case of one packet that is taken and leaves nothing open.
pub fn whole(rt: &impl Print, n: usize, payload: &[u8], bytes: &[u8]) -> io::Result<()> {
    let lost = NOTHING;
    alone(
        rt,
        n,
        payload,
        Ok(Gives {
            bytes,
            open: 0,
            lost,
        }),
    )
}

// A case of one packet that is refused.
pub fn broken(rt: &impl Print, n: usize, payload: &[u8], refused: u32) -> io::Result<()> {
    alone(rt, n, payload, Err(refused))
}

// A case of one packet, whose first element a fresh receiver throws away.
pub fn headless(rt: &impl Print, n: usize, payload: &[u8], bytes: &[u8]) -> io::Result<()> {
    let lost = ELEMENT;
    alone(
        rt,
        n,
        payload,
        Ok(Gives {
            bytes,
            open: 0,
            lost,
        }),
    )
}

// Two packets, the first of which leaves so many bytes open.
pub fn two(
    rt: &impl Print,
    n: usize,
    first: &[u8],
    first_bytes: &[u8],
    open: usize,
    second: &[u8],
    second_bytes: &[u8],
) -> io::Result<()> {
    let mut case = Case::begin(rt, n)?;
    case.takes(rt, FIRST, first, first_bytes, open)?;
    case.takes(rt, 0, second, second_bytes, 0)?;
    end(rt)
}
