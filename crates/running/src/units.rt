// The loop of `pack` and of `padded` (G2 to G4, G6, G7, G12, G14, G17): they begin the same and have the same stores, and differ in the step.
ghost use Rattle.packing.specs.Steps.{Goes, Lent};

use crate::{Program, Streams};
use packing::{Place, Turn};
use std::io::{Read, Write};
use std::marker::PhantomData;
use turns::Came;

// What a step is lent (L12 to L14).
pub const INPUT: usize = packing::UNIT_STORE;

pub const OBUS: usize = packing::OBU_LIST_NUMBERS;

pub const PLAN: usize = packing::PLAN_LIST_NUMBERS;

pub const WRITTEN: usize = packing::RECORD_BYTES;

pub const LINE: usize = turns::LINE_BYTES;

// What the two differ in. After a step its order can be carried out, and the stores are ready for the next.
pub trait Step {
    // What is lent must be as the step of `pack` asks.
    fn step(
        place: Place,
        came: Came,
        input: &[u8; INPUT],
        obus: &mut [u32; OBUS],
        plan: &mut [u32; PLAN],
        written: &mut [u8; WRITTEN],
        line: &mut [u8; LINE],
    ) -> Turn
        requires { Lent place came input.now obus.old plan.old written.old line.old }
        ensures { Goes result input.now obus.new plan.new };
}

// The run, and what its steps are lent. `planlist` and `unpack` have other stores and places, so that to share more would be no plainer.
#[derive(Drop)]
struct Units<S> {
    turn: Turn,
    input: [u8; INPUT],
    obus: [u32; OBUS],
    plan: [u32; PLAN],
    written: [u8; WRITTEN],
    line: [u8; LINE],
    step: PhantomData<S>,
}

impl<S: Step> Program for Units<S> {
    ghost can_go = { λ s. Goes s.turn s.input s.obus s.plan };

    fn goes_on(&self) -> bool {
        self.turn.order.more
    }

    fn next<R: Read, W: Write, E: Write>(&mut self, streams: &mut Streams<R, W, E>) {
        let came = crate::obey(
            self.turn.order,
            streams,
            &mut self.input,
            &self.written,
            &self.line,
        );
        self.turn = S::step(
            self.turn.place,
            came,
            &self.input,
            &mut self.obus,
            &mut self.plan,
            &mut self.written,
            &mut self.line,
        );
    }
}

// All turns of a program with this step.
pub fn run<S: Step, R: Read, W: Write, E: Write>(streams: &mut Streams<R, W, E>) {
    let mut program = Units::<S> {
        turn: packing::start(),
        input: [0; INPUT],
        obus: [0; OBUS],
        plan: [0; PLAN],
        written: [0; WRITTEN],
        line: [0; LINE],
        step: PhantomData,
    };
    crate::run_all(&mut program, streams);
}
