// The loop of `pack` (G2 to G4, G6, G7, G12, G14).
use crate::Streams;
use crate::units::{INPUT, LINE, OBUS, PLAN, Step, WRITTEN};
use packing::{Place, Turn};
use std::io::{Read, Write};
use turns::Came;

// Its step.
struct Packing;

impl Step for Packing {
    fn step(
        place: Place,
        came: Came,
        input: &[u8; INPUT],
        obus: &mut [u32; OBUS],
        plan: &mut [u32; PLAN],
        written: &mut [u8; WRITTEN],
        line: &mut [u8; LINE],
    ) -> Turn {
        packing::step(place, came, input, obus, plan, written, line)
    }
}

pub fn run<R: Read, W: Write, E: Write>(streams: &mut Streams<R, W, E>) {
    crate::units::run::<Packing, R, W, E>(streams);
}
