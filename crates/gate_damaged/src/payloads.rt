// The receive call on two payloads, cut, or with each value of each byte.
use base::Refusal;
use receiver::{Received, State};
use std::io;

// The bytes of a payload, of the store and of the output, and how many of the store are open before.
const PAYLOAD: usize = 9;

const STORE: usize = 6;

const OUTPUT: usize = 9;

const OPEN: usize = 4;

// The last number taken, and that of the payload, which is the next.
const LAST: u16 = 65535;

const NUMBER: u16 = 0;

// A payload, and the store before it: its first bytes are the open fragment.
#[derive(Clone, Copy)]
pub struct Sample {
    payload: [u8; PAYLOAD],
    store: [u8; STORE],
}

// Z, Y, W 2: three bytes that end the open OBU, whose padded size field covers exactly these, and a new fragment.
pub const CONTINUED: Sample = Sample {
    payload: [0xE0, 0x03, 0xA1, 0xA2, 0xA3, 0x30, 0xB1, 0xB2, 0xB3],
    store: [0x36, 0x08, 0x83, 0x00, 0xEE, 0xEE],
};

// W 0: an OBU of one byte, whose length is padded, and one with its padded size field inside.
pub const WHOLE: Sample = Sample {
    payload: [0x00, 0x81, 0x00, 0x30, 0x04, 0x32, 0x81, 0x00, 0xC1],
    store: [0x28, 0xD1, 0xD2, 0xD3, 0xEE, 0xEE],
};

// A blank, and bytes in brackets.
fn print_bytes(rt: &impl Print, bytes: &[u8]) -> io::Result<()> {
    print!(rt; " [")?;
    for b in bytes {
        print!(rt; "{b:02x}")?;
    }
    print!(rt; "]")
}

fn print_receipt(
    rt: &impl Print,
    receipt: Result<Received, Refusal>,
    out: &[u8],
) -> io::Result<()> {
    let got = match receipt {
        Ok(got) => got,
        Err(refusal) => return print!(rt; " {}", base::number(refusal)),
    };
    print_bytes(rt, &out[..got.bytes.min(out.len())])?;
    let state = got.state;
    print!(rt; " {} {} {}", state.begun as u8, state.last, state.open)?;
    print!(rt; " {} {}", got.padded.lengths, got.padded.sizes)?;
    print!(rt; " {} {}", got.fragment_lost as u8, got.element_lost as u8)
}

// The answer to a payload, and the store after it, which holds this before.
fn answer(rt: &impl Print, mut store: [u8; STORE], payload: &[u8]) -> io::Result<()> {
    let mut out = [0u8; OUTPUT];
    let state = State {
        begun: true,
        last: LAST,
        open: OPEN,
    };
    let receipt = receiver::receive(state, NUMBER, payload, &mut store, &mut out);
    print_receipt(rt, receipt, &out)?;
    print_bytes(rt, &store)?;
    println!(rt; "")
}

// A line for each prefix of a payload.
fn prefixes(rt: &impl Print, sample: &Sample) -> io::Result<()> {
    println!(rt; "payload")?;
    for n in 0..PAYLOAD {
        print!(rt; "{n}")?;
        answer(rt, sample.store, &sample.payload[..n])?;
    }
    Ok(())
}

// A line for each value of each byte of a payload.
fn changes(rt: &impl Print, sample: &Sample) -> io::Result<()> {
    for at in 0..PAYLOAD {
        for b in 0..=u8::MAX {
            let mut payload = sample.payload;
            payload[at] = b;
            print!(rt; "{at} {b:02x}")?;
            answer(rt, sample.store, &payload)?;
        }
    }
    Ok(())
}

// All lines of a sample.
pub fn print_answers(rt: &impl Print, sample: &Sample) -> io::Result<()> {
    prefixes(rt, sample)?;
    changes(rt, sample)
}
