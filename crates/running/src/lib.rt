// The loops of the programs: they carry out what a step orders, and decide nothing (G1, G7, G14).
#![tactic(auto)]

pub mod pack;
pub mod padded;
pub mod planlist;
mod units;
pub mod unpack;

ghost use Rattle.std.specs.Prelude.{◌≡◌, ◌≢◌, ◌<◌, take, length, IsTrue, IfOk, IfErr, OnErr};
ghost use Rattle.std.specs.Io.{ReadsAtMost, WritesAtMost};
ghost use Rattle.std.specs.IoError.{error_kind};
ghost use Rattle.std.specs.Io.KnownBytes.{Appends, Consumes, IsAtEnd, Keeps};
ghost use Rattle.turns.specs.Orders.{CameWithin, Within};
ghost use Rattle.running.specs.Streams.{Arrived, FrontWritten, Written};

use std::io;
use std::io::{ErrorKind, Read, Stderr, Stdin, Stdout, Write};
use turns::{Came, Failure, LINE_BYTES, Order};

// What a program reads from, and where it writes its bytes and says its lines.
#[derive(Drop)]
pub struct Streams<R, W, E> {
    pub from: R,
    pub to: W,
    pub errors: E,
}

// Those of a program that is started.
pub fn standard(rt: &HostRuntime) -> Streams<Stdin, Stdout, Stderr> {
    Streams {
        from: rt.stdin(),
        to: rt.stdout(),
        errors: rt.stderr(),
    }
}

// A program as its run stands: what it ordered last, and what its steps are lent.
trait Program {
    // the order can be carried out, and the next step can start
    ghost can_go: { Self → Type 0 };

    // There is more to do.
    fn goes_on(&self) -> bool;

    // One turn: the order carried out, and the next step.
    fn next<R: Read, W: Write, E: Write>(&mut self, streams: &mut Streams<R, W, E>)
        requires { can_go self.old }
        ensures { can_go self.new };
}

// All turns. Nothing says that the input ends, so they are counted, up to a number that no run uses up.
fn run_all<P: Program, R: Read, W: Write, E: Write>(program: &mut P, streams: &mut Streams<R, W, E>)
    requires { P.can_go program.old }
{
    for _ in 0..u64::MAX {
        if !program.goes_on() {
            return;
        }
        program.next(streams);
    }
}

// One read; an interrupted one is tried again.
fn read_once<R: Read>(from: &mut R, input: &mut [u8]) -> io::Result<usize>
    ensures within { ReadsAtMost result input.new }
    ensures ok { IfOk result (λ n. Consumes (R.remaining from.old) (R.remaining from.new) (take n input.new)) }
    ensures end { IfOk result (λ n. n ≡ 0 → 0 < length input.old → IsAtEnd (R.remaining from.new)) }
    ensures err { OnErr result (Keeps (R.remaining from.old) (R.remaining from.new)) }
    ensures again { IfErr result (λ e. error_kind e ≢ ErrorKind.Interrupted) }
{
    for _ in 0..u64::MAX {
        match from.read(input) {
            Err(error) if error.kind() == ErrorKind::Interrupted => {}
            other => return other,
        }
    }
    Err(io::Error::new(ErrorKind::TimedOut, "interrupted each time"))
}

// One write; an interrupted one is tried again. One function over a closure for both was tried: what a closure over reader and input leaves
// in the two after some calls was not proved (`returns-clause-ok` of `read_once`).
fn write_once<W: Write>(to: &mut W, bytes: &[u8]) -> io::Result<usize>
    ensures within { WritesAtMost result bytes.now }
    ensures ok { IfOk result (λ n. Appends (W.contents to.old) (W.contents to.new) (take n bytes.now)) }
    ensures err { OnErr result (Keeps (W.contents to.old) (W.contents to.new)) }
    ensures again { IfErr result (λ e. error_kind e ≢ ErrorKind.Interrupted) }
{
    for _ in 0..u64::MAX {
        match to.write(bytes) {
            Err(error) if error.kind() == ErrorKind::Interrupted => {}
            other => return other,
        }
    }
    Err(io::Error::new(ErrorKind::TimedOut, "interrupted each time"))
}

// Reads until the bytes lent are full, the input ends or a read fails.
fn read_all<R: Read>(from: &mut R, input: &mut [u8]) -> Came
    ensures within { CameWithin result (length input.old) }
    ensures arrived { Arrived result (R.remaining from.old) (R.remaining from.new) input.new (length input.old) }
{
    let mut done: usize = 0;
    while done < input.len() {
        match read_once(from, &mut input[done..]) {
            Ok(0) => return Ok(done),
            Ok(count) => done += count,
            Err(_) => return Err(Failure::Read),
        }
    }
    Ok(done)
}

// Writes all, in one write where the system takes it so; false where a write fails.
fn write_all<W: Write>(to: &mut W, bytes: &[u8]) -> bool
    ensures all { IsTrue result → Appends (W.contents to.old) (W.contents to.new) bytes.now }
    ensures front { FrontWritten (W.contents to.old) (W.contents to.new) bytes.now }
{
    let mut done: usize = 0;
    while done < bytes.len() {
        match write_once(to, &bytes[done..]) {
            Ok(0) | Err(_) => return false,
            Ok(count) => done += count,
        }
    }
    true
}

// Carries out an order: bytes written, a line said, bytes read. Where none are asked for the input stays as it is.
fn obey<R: Read, W: Write, E: Write>(
    order: Order,
    streams: &mut Streams<R, W, E>,
    input: &mut [u8],
    out: &[u8],
    line: &[u8; LINE_BYTES],
) -> Came
    requires { Within order (length input.old) (length out.now) }
    ensures within { CameWithin result (length input.old) }
    ensures still { order.read ≡ 0 → input.new ≡ input.old }
    ensures written { Written result (W.contents streams.old.to) (W.contents streams.new.to) (take order.write out.now) }
    ensures said { FrontWritten (E.contents streams.old.errors) (E.contents streams.new.errors) (take order.say line.now) }
    ensures arrived { Arrived result (R.remaining streams.old.from) (R.remaining streams.new.from) input.new order.read }
{
    let written = write_all(&mut streams.to, &out[..order.write]);
    write_all(&mut streams.errors, &line[..order.say]);
    if !written {
        return Err(Failure::Write);
    }
    if order.read == 0 {
        return Ok(0);
    }
    read_all(&mut streams.from, &mut input[..order.read])
}
