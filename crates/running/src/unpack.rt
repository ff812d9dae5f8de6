// The loop of `unpack` (G5 to G7, G14, G15).
ghost use Rattle.unpacking.specs.Steps.{Goes};

use crate::{Program, Streams};
use std::io::{Read, Write};
use unpacking::Turn;

// What a step is lent (L14, L15).
const INPUT: usize = unpacking::PAYLOAD_BYTES;

const STORE: usize = unpacking::FRAGMENT_STORE;

const OUT: usize = unpacking::OUTPUT_BYTES;

const LINE: usize = turns::LINE_BYTES;

// The run, and what its steps are lent.
#[derive(Drop)]
struct Unpack {
    turn: Turn,
    input: [u8; INPUT],
    store: [u8; STORE],
    out: [u8; OUT],
    line: [u8; LINE],
}

impl Program for Unpack {
    ghost can_go = { λ s. Goes s.turn };

    fn goes_on(&self) -> bool {
        self.turn.order.more
    }

    fn next<R: Read, W: Write, E: Write>(&mut self, streams: &mut Streams<R, W, E>) {
        let came = crate::obey(
            self.turn.order,
            streams,
            &mut self.input,
            &self.out,
            &self.line,
        );
        self.turn = unpacking::step(
            self.turn.place,
            came,
            &self.input,
            &mut self.store,
            &mut self.out,
            &mut self.line,
        );
    }
}

pub fn run<R: Read, W: Write, E: Write>(streams: &mut Streams<R, W, E>) {
    let mut program = Unpack {
        turn: unpacking::start(),
        input: [0; INPUT],
        store: [0; STORE],
        out: [0; OUT],
        line: [0; LINE],
    };
    crate::run_all(&mut program, streams);
}
