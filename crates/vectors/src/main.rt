// Answers cases, a line each: it replays the fixed list of answers in the gate, and compare/ feeds it many units.
//
// A case is the mtu, the numbers of the lent OBU list and of the lent plan list, the bytes of the lent output, all in decimal,
// and the unit in hexadecimal capitals, or `-` if it is empty, with blanks between; `*` and a decimal number after the unit say
// that its last byte is repeated until it has so many bytes. The unit is planned, and each of its packets is written alone into
// the lent output, which so need hold no more than the longest. The answer is `refused`, the number and the offset, of the plan
// call or of the first packet whose write is refused; or `obus`, their count and records, `packets`, their count and records,
// `headers` and `payloads`, one for each packet. After a count of 0 nothing stands for its records, and after no packets no headers
// and no payloads.
#![tactic(auto)]

mod line;
mod show;

use base::RefusedAt;
use line::{Line, UNIT_STORE};
use packetizer::Planned;
use std::io;
use std::io::{Input, Read};

// The longest lists, and the longest output.
const LIST_STORE: usize = 24576;

const OUTPUT_STORE: usize = 262144;

// How many bytes are read at once.
const TEXT: usize = 65536;

// What a case is lent.
#[derive(Clone, Copy)]
struct Stores {
    unit: [u8; UNIT_STORE],
    obus: [u32; LIST_STORE],
    plan: [u32; LIST_STORE],
    output: [u8; OUTPUT_STORE],
}

// A unit that is planned, at its mtu, with the lent lists.
#[derive(Clone, Copy)]
struct Case<'a> {
    mtu: usize,
    unit: &'a [u8],
    obus: &'a [u32],
    plan: &'a [u32],
}

// The aggregation header of each packet, by the header call.
fn print_headers(rt: &impl Print, unit: &[u8], obus: &[u32], plan: &[u32]) -> io::Result<()> {
    for k in 0..plan.len() / packetizer::PLAN_NUMBERS {
        show::between(rt, k)?;
        match aggregation::get_aggregation_header(unit, obus, plan, k) {
            Ok(header) => show::hex(rt, &[header])?,
            Err(refusal) => show::refusal(rt, refusal)?,
        }
    }
    Ok(())
}

impl Case<'_> {
    // What the writes of the first so many packets come to, each alone: the first refusal, if there is one.
    fn try_packets(&self, packets: usize, output: &mut [u8]) -> Result<(), RefusedAt> {
        for k in 0..packets {
            payloader::write_packet(self.mtu, self.unit, self.obus, self.plan, k, output)?;
        }
        Ok(())
    }

    // The first so many payloads, each as it is written.
    fn print_payloads(&self, rt: &impl Print, packets: usize, output: &mut [u8]) -> io::Result<()> {
        for k in 0..packets {
            show::between(rt, k)?;
            match payloader::write_packet(self.mtu, self.unit, self.obus, self.plan, k, output) {
                Ok(written) => show::hex(rt, &output[..written.bytes.min(output.len())])?,
                Err(refused) => show::refusal_at(rt, refused)?,
            }
        }
        Ok(())
    }

    // A unit all of whose packets can be written: of the two lists the filled parts are shown.
    fn print_planned(
        &self,
        rt: &impl Print,
        planned: Planned,
        output: &mut [u8],
    ) -> io::Result<()> {
        let listed = planned.obus.saturating_mul(obu::OBU_NUMBERS);
        let recorded = planned.packets.saturating_mul(packetizer::PLAN_NUMBERS);
        let listed = &self.obus[..listed.min(self.obus.len())];
        let recorded = &self.plan[..recorded.min(self.plan.len())];
        print!(rt; "obus {}", planned.obus)?;
        show::records(rt, listed, obu::OBU_NUMBERS)?;
        print!(rt; " packets {}", planned.packets)?;
        show::records(rt, recorded, packetizer::PLAN_NUMBERS)?;
        if planned.packets > 0 {
            print!(rt; " headers")?;
            print_headers(rt, self.unit, listed, recorded)?;
            print!(rt; " payloads")?;
            self.print_payloads(rt, planned.packets, output)?;
        }
        Ok(())
    }
}

// The answer for one case.
fn answer(
    rt: &impl Print,
    mtu: usize,
    unit: &[u8],
    obus: &mut [u32],
    plan: &mut [u32],
    output: &mut [u8],
) -> io::Result<()> {
    let planned = match packetizer::plan_unit(mtu, unit, obus, plan) {
        Ok(planned) => planned,
        Err(refused) => return show::refusal_at(rt, refused),
    };
    let case = Case {
        mtu,
        unit,
        obus,
        plan,
    };
    match case.try_packets(planned.packets, output) {
        Ok(()) => case.print_planned(rt, planned, output),
        Err(refused) => show::refusal_at(rt, refused),
    }
}

impl Stores {
    fn end_of_line(&mut self, rt: &impl Print, line: &Line) -> io::Result<()> {
        let length = line.finish_unit(&mut self.unit);
        let obus = &mut self.obus[..];
        let plan = &mut self.plan[..];
        let output = &mut self.output[..];
        answer(
            rt,
            line.mtu,
            &self.unit[..length],
            &mut obus[..line.obus.min(LIST_STORE)],
            &mut plan[..line.plan.min(LIST_STORE)],
            &mut output[..line.output.min(OUTPUT_STORE)],
        )?;
        println!(rt; "")
    }

    // The next bytes of the input, in this line at first.
    fn feed(&mut self, rt: &impl Print, line: &mut Line, text: &[u8]) -> io::Result<()> {
        for b in text {
            if *b == b'\n' {
                self.end_of_line(rt, line)?;
                *line = line::EMPTY;
            } else {
                line.take_byte(*b, &mut self.unit);
            }
        }
        Ok(())
    }
}

// Reads to the end of the input. The turns only say that the loop ends: no run uses them up.
fn replay(rt: &(impl Print + Input), stores: &mut Stores) -> io::Result<()> {
    let mut text = [0u8; TEXT];
    let mut input = rt.reader();
    let mut line = line::EMPTY;
    for _ in 0..u64::MAX {
        let n = input.read(&mut text)?;
        if n == 0 {
            break;
        }
        stores.feed(rt, &mut line, &text[..n])?;
    }
    Ok(())
}

fn main(rt: HostRuntime) -> io::Result<()> {
    let mut stores = Stores {
        unit: [0; UNIT_STORE],
        obus: [0; LIST_STORE],
        plan: [0; LIST_STORE],
        output: [0; OUTPUT_STORE],
    };
    replay(&rt, &mut stores)
}
