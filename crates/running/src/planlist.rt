// The loop of `planlist` (G8 to G14).
ghost use Rattle.listing.specs.Steps.{Goes};

use crate::{Program, Streams};
use listing::Turn;
use std::io::{Read, Write};

// What a step is lent (L12, L13).
const INPUT: usize = listing::UNIT_STORE;

const UNIT: usize = listing::UNIT_STORE;

const OBUS: usize = listing::OBU_LIST_NUMBERS;

const PLAN: usize = listing::PLAN_LIST_NUMBERS;

const LINE: usize = turns::LINE_BYTES;

// The run, and what its steps are lent.
#[derive(Drop)]
struct PlanList {
    turn: Turn,
    input: [u8; INPUT],
    unit: [u8; UNIT],
    obus: [u32; OBUS],
    plan: [u32; PLAN],
    out: [u8; LINE],
    line: [u8; LINE],
}

impl Program for PlanList {
    ghost can_go = { λ s. Goes s.turn s.unit s.obus s.plan };

    fn goes_on(&self) -> bool {
        self.turn.order.more
    }

    fn next<R: Read, W: Write, E: Write>(&mut self, streams: &mut Streams<R, W, E>) {
        let came = crate::obey(
            self.turn.order,
            streams,
            &mut self.input,
            &self.out,
            &self.line,
        );
        self.turn = listing::step(
            self.turn.place,
            came,
            &self.input,
            &mut self.unit,
            &mut self.obus,
            &mut self.plan,
            &mut self.out,
            &mut self.line,
        );
    }
}

pub fn run<R: Read, W: Write, E: Write>(streams: &mut Streams<R, W, E>) {
    let mut program = PlanList {
        turn: listing::start(),
        input: [0; INPUT],
        unit: [0; UNIT],
        obus: [0; OBUS],
        plan: [0; PLAN],
        out: [0; LINE],
        line: [0; LINE],
    };
    crate::run_all(&mut program, streams);
}
