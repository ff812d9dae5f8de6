// Payloads as other senders may make them, given to the receiver: what comes out is compared with bytes worked out by hand.
//
// Each case has a line: for each of its packets `ok`, or what came instead; then, where there are any, how many padded length fields
// and padded size fields it has, which are worked out by hand in the file `stdout`. A comment takes the payload apart: the aggregation
// header, then element by element the length field, where there is one, and the OBU's bytes; `Out` is what the rules make of them,
// and `Lost` what is thrown away, where anything is.
// A call for each case and no table of them: some have several packets, and the bytes of some are made by code.
#![tactic(auto)]

mod case;
mod padded;

use case::{Case, Gives};
use std::io;

// Elements that all have a length field (E2).
fn all_with_length(rt: &impl Print) -> io::Result<()> {
    // 00: W 0. 02: 30 A1, a frame of one byte.
    // Out: 32 01 A1.
    case::whole(rt, 1, b"\x00\x02\x30\xA1", b"\x32\x01\xA1")?;
    // 08: W 0, N. 03: 08 11 22, a sequence header. 02: 30 A1.
    // Out: 0A 02 11 22, 32 01 A1.
    case::whole(
        rt,
        2,
        b"\x08\x03\x08\x11\x22\x02\x30\xA1",
        b"\x0A\x02\x11\x22\x32\x01\xA1",
    )?;
    // 00: W 0, though W 3 could count them. 01: 30, empty. 02: 28 B1, metadata. 03: 20 C1 C2, a tile group.
    // Out: 32 00, 2A 01 B1, 22 02 C1 C2.
    case::whole(
        rt,
        3,
        b"\x00\x01\x30\x02\x28\xB1\x03\x20\xC1\xC2",
        b"\x32\x00\x2A\x01\xB1\x22\x02\xC1\xC2",
    )
}

// Length fields that are longer than they need to be (E4, F2).
fn padded_lengths(rt: &impl Print) -> io::Result<()> {
    // 20: W 2. 82 00 is 2: 30 A1. To the end: 30 A2 A3.
    // Out: 32 01 A1, 32 02 A2 A3.
    case::whole(
        rt,
        4,
        b"\x20\x82\x00\x30\xA1\x30\xA2\xA3",
        b"\x32\x01\xA1\x32\x02\xA2\xA3",
    )?;
    // 00: W 0. 82, six 80, 00, eight bytes, is 2: 30 A1.
    // Out: 32 01 A1.
    case::whole(
        rt,
        5,
        b"\x00\x82\x80\x80\x80\x80\x80\x80\x00\x30\xA1",
        b"\x32\x01\xA1",
    )?;
    // 00: W 0. 82, seven 80, 00, nine bytes: a length field has eight at most.
    case::broken(
        rt,
        6,
        b"\x00\x82\x80\x80\x80\x80\x80\x80\x80\x00\x30\xA1",
        16,
    )?;
    // 00: W 0. 01: 30. 80: a length field that does not end.
    case::broken(rt, 7, b"\x00\x01\x30\x80", 16)?;
    // 00: W 0. 80 00 is 0: no element is empty.
    case::broken(rt, 8, b"\x00\x80\x00\x01\x30", 17)
}

// OBUs that keep their own size field: it is read, checked, and put anew in its shortest form (O11, R18).
fn size_fields(rt: &impl Print) -> io::Result<()> {
    // 10: W 1. To the end: 32 02 A1 A2, size 2 and two bytes.
    // Out: 32 02 A1 A2.
    case::whole(rt, 9, b"\x10\x32\x02\xA1\xA2", b"\x32\x02\xA1\xA2")?;
    // 10: W 1. To the end: 32 82 00 A1 A2, size 2 in two bytes.
    // Out: 32 02 A1 A2.
    case::whole(rt, 10, b"\x10\x32\x82\x00\xA1\xA2", b"\x32\x02\xA1\xA2")?;
    // 10: W 1. To the end: 36 08, header and extension byte, then 82, six 80, 00, size 2 in eight bytes, then A1 A2.
    // Out: 36 08 02 A1 A2.
    case::whole(
        rt,
        11,
        b"\x10\x36\x08\x82\x80\x80\x80\x80\x80\x80\x00\xA1\xA2",
        b"\x36\x08\x02\xA1\xA2",
    )?;
    // 20: W 2. 03: 32 01 A1. To the end: 30 A2, with no size field.
    // Out: 32 01 A1, 32 01 A2.
    case::whole(
        rt,
        12,
        b"\x20\x03\x32\x01\xA1\x30\xA2",
        b"\x32\x01\xA1\x32\x01\xA2",
    )?;
    // 10: W 1. To the end: 32 01 A1 A2, size 1 and two bytes.
    case::broken(rt, 13, b"\x10\x32\x01\xA1\xA2", 18)?;
    // 10: W 1. To the end: 32 03 A1 A2, size 3 and two bytes.
    case::broken(rt, 14, b"\x10\x32\x03\xA1\xA2", 18)?;
    // 10: W 1. To the end: 32 80: a size field that does not end.
    case::broken(rt, 15, b"\x10\x32\x80", 18)?;
    // 20: W 2. 02: 30 A1. To the end: 32, whose size field is missing. The first OBU does not go out either.
    case::broken(rt, 16, b"\x20\x02\x30\xA1\x32", 18)
}

// A length and a size of two bytes in their shortest form.
fn long_obu(rt: &impl Print) -> io::Result<()> {
    // 00: W 0. C8 01 is 200: 30 and 199 bytes A1.
    // Out: 32, C7 01 for 199, and the 199 bytes.
    let mut payload = [0xA1u8; 203];
    payload[0] = 0x00;
    payload[1] = 0xC8;
    payload[2] = 0x01;
    payload[3] = 0x30;
    let mut bytes = [0xA1u8; 202];
    bytes[0] = 0x32;
    bytes[1] = 0xC7;
    bytes[2] = 0x01;
    case::whole(rt, 17, &payload, &bytes)
}

// OBUs that a receiver drops, among others (V11).
fn dropped(rt: &impl Print) -> io::Result<()> {
    // 30: W 3. 01: 10, a temporal delimiter. 02: 08 7F. To the end: 30 A1.
    // Out: 0A 01 7F, 32 01 A1.
    case::whole(
        rt,
        18,
        b"\x30\x01\x10\x02\x08\x7F\x30\xA1",
        b"\x0A\x01\x7F\x32\x01\xA1",
    )?;
    // 00: W 0. 02: 30 A1. 03: 40 B1 B2, a tile list. 04: 78 00 00 80, padding. 01: 28, empty.
    // Out: 32 01 A1, 2A 00.
    case::whole(
        rt,
        19,
        b"\x00\x02\x30\xA1\x03\x40\xB1\xB2\x04\x78\x00\x00\x80\x01\x28",
        b"\x32\x01\xA1\x2A\x00",
    )?;
    // 10: W 1. To the end: 12 00, a temporal delimiter with size 0.
    // Out: nothing.
    case::whole(rt, 20, b"\x10\x12\x00", b"")
}

// Bits that mean nothing today (V16).
fn reserved(rt: &impl Print) -> io::Result<()> {
    // 17: W 1, and the low three bits. To the end: 30 A1.
    // Out: 32 01 A1.
    case::whole(rt, 21, b"\x17\x30\xA1", b"\x32\x01\xA1")?;
    // 10: W 1. To the end: B1 A1: bits 7 and 0 set, type 6.
    // Out: B3 01 A1, bits 7 and 0 as they came.
    case::whole(rt, 22, b"\x10\xB1\xA1", b"\xB3\x01\xA1")?;
    // 98: Z, W 1, N: a continued OBU begins no coded video sequence.
    case::broken(rt, 23, b"\x98\x30\xA1", 15)
}

// OBUs over two packets, one with padded length fields and one that is dropped (V5 to V8, V11).
fn fragments(rt: &impl Print) -> io::Result<()> {
    // 60: Y, W 2. 82 00 is 2: 28 B1. To the end: 30 A1, open.
    // 80: Z, W 0. 83 80 00 is 3: A2 A3 A4, which ends it. 02: 20 C1.
    // Out: 2A 01 B1; then 32 04 A1 A2 A3 A4, 22 01 C1.
    case::two(
        rt,
        24,
        b"\x60\x82\x00\x28\xB1\x30\xA1",
        b"\x2A\x01\xB1",
        2,
        b"\x80\x83\x80\x00\xA2\xA3\xA4\x02\x20\xC1",
        b"\x32\x04\xA1\xA2\xA3\xA4\x22\x01\xC1",
    )?;
    // 50: Y, W 1. To the end: 78 00, padding.
    // A0: Z, W 2. 01: 80, which ends it. To the end: 30 A1.
    // Out: nothing; then 32 01 A1.
    case::two(
        rt,
        25,
        b"\x50\x78\x00",
        b"",
        2,
        b"\xA0\x01\x80\x30\xA1",
        b"\x32\x01\xA1",
    )
}

// OBUs whose header or size field is cut by the end of the packet (R18 on the joined bytes).
fn cut_fronts(rt: &impl Print) -> io::Result<()> {
    // 50: Y, W 1. To the end: 34, a header byte whose extension byte is to come.
    // 90: Z, W 1. To the end: 08 A1 A2, the extension byte first.
    // Out: nothing; then 36 08 02 A1 A2.
    case::two(
        rt,
        26,
        b"\x50\x34",
        b"",
        1,
        b"\x90\x08\xA1\xA2",
        b"\x36\x08\x02\xA1\xA2",
    )?;
    // 50: Y, W 1. To the end: 32 82, a header byte and the first byte of a size field.
    // 90: Z, W 1. To the end: 00 A1 A2: 82 00 is 2, and two bytes follow.
    // Out: nothing; then 32 02 A1 A2.
    case::two(
        rt,
        27,
        b"\x50\x32\x82",
        b"",
        2,
        b"\x90\x00\xA1\xA2",
        b"\x32\x02\xA1\xA2",
    )
}

// An OBU over three packets, the middle one with W 0, while the numbers wrap.
fn three_packets(rt: &impl Print) -> io::Result<()> {
    // 50: Y, W 1. To the end: 30 A1. C0: Z, Y, W 0. 81 00 is 1: A2. 90: Z, W 1. To the end: A3 A4.
    // Out: nothing twice; then 32 04 A1 A2 A3 A4.
    let mut case = Case::begin(rt, 28)?;
    case.takes(rt, case::FIRST, b"\x50\x30\xA1", b"", 2)?;
    case.takes(rt, 0, b"\xC0\x81\x00\xA2", b"", 3)?;
    case.takes(rt, 1, b"\x90\xA3\xA4", b"\x32\x04\xA1\xA2\xA3\xA4", 0)?;
    case::end(rt)
}

// The packet between is lost, and the next begins with bytes of the same OBU (V5, V6).
fn lost_packet(rt: &impl Print) -> io::Result<()> {
    // 50: Y, W 1. To the end: 30 A1, open.
    // 80: Z, W 0, two numbers on. 02: A2 A3, thrown away. 02: 20 C1.
    // Out: nothing; then 22 01 C1. Lost: nothing; then fragment and element.
    let mut case = Case::begin(rt, 29)?;
    case.takes(rt, case::FIRST, b"\x50\x30\xA1", b"", 2)?;
    let gives = Gives {
        bytes: b"\x22\x01\xC1",
        open: 0,
        lost: case::BOTH,
    };
    case.gives(rt, 1, b"\x80\x02\xA2\xA3\x02\x20\xC1", gives)?;
    case::end(rt)
}

// The first packet of an OBU is lost, and so is what comes of it (V6, V7).
fn lost_first(rt: &impl Print) -> io::Result<()> {
    // D0: Z, Y, W 1. To the end: A2, thrown away. 90: Z, W 1. To the end: A3, thrown away.
    // Out: nothing twice. Lost: the element twice.
    let mut case = Case::begin(rt, 30)?;
    let gives = Gives {
        bytes: b"",
        open: 0,
        lost: case::ELEMENT,
    };
    case.gives(rt, case::FIRST, b"\xD0\xA2", gives)?;
    case.gives(rt, 0, b"\x90\xA3", gives)?;
    case::end(rt)
}

// The packet between is lost, and the next begins another OBU (V5).
fn lost_last(rt: &impl Print) -> io::Result<()> {
    // 50: Y, W 1. To the end: 30 A1, open. 50: Y, W 1, two numbers on. To the end: 28 B1, open.
    // 90: Z, W 1. To the end: B2.
    // Out: nothing twice; then 2A 02 B1 B2. Lost: nothing; the fragment; nothing.
    let mut case = Case::begin(rt, 31)?;
    case.takes(rt, case::FIRST, b"\x50\x30\xA1", b"", 2)?;
    let gives = Gives {
        bytes: b"",
        open: 2,
        lost: case::FRAGMENT,
    };
    case.gives(rt, 1, b"\x50\x28\xB1", gives)?;
    case.takes(rt, 2, b"\x90\xB2", b"\x2A\x02\xB1\xB2", 0)?;
    case::end(rt)
}

// A broken packet changes nothing: its number can come again (C8).
fn again(rt: &impl Print) -> io::Result<()> {
    // 50: Y, W 1. To the end: 32 82, open. 90: Z, W 1. To the end: 00 A1: 82 00 is 2, and one byte follows.
    // Then whole, with the same number: 00 A1 A2.
    // Out: nothing; refused; then 32 02 A1 A2.
    let mut case = Case::begin(rt, 32)?;
    case.takes(rt, case::FIRST, b"\x50\x32\x82", b"", 2)?;
    case.refuses(rt, 0, b"\x90\x00\xA1", 18)?;
    case.takes(rt, 0, b"\x90\x00\xA1\xA2", b"\x32\x02\xA1\xA2", 0)?;
    case::end(rt)
}

// A packet in step that continues nothing, while a fragment is open (V5).
fn nothing_joined(rt: &impl Print) -> io::Result<()> {
    // 50: Y, W 1. To the end: 30 A1 A2, open. 10: W 1. To the end: 32 00.
    // Out: nothing; then 32 00. Lost: nothing; then the fragment.
    let mut case = Case::begin(rt, 33)?;
    case.takes(rt, case::FIRST, b"\x50\x30\xA1\xA2", b"", 3)?;
    let gives = Gives {
        bytes: b"\x32\x00",
        open: 0,
        lost: case::FRAGMENT,
    };
    case.gives(rt, 0, b"\x10\x32\x00", gives)?;
    case::end(rt)
}

// The end of an OBU to a fresh receiver (V6, V10).
fn end_alone(rt: &impl Print) -> io::Result<()> {
    // 90: Z, W 1. To the end: 34, thrown away.
    // Out: nothing. Lost: the element.
    case::headless(rt, 34, b"\x90\x34", b"")
}

fn main(rt: HostRuntime) -> io::Result<()> {
    all_with_length(&rt)?;
    padded_lengths(&rt)?;
    size_fields(&rt)?;
    long_obu(&rt)?;
    dropped(&rt)?;
    reserved(&rt)?;
    fragments(&rt)?;
    cut_fronts(&rt)?;
    three_packets(&rt)?;
    lost_packet(&rt)?;
    lost_first(&rt)?;
    lost_last(&rt)?;
    again(&rt)?;
    nothing_joined(&rt)?;
    end_alone(&rt)?;
    padded::all(&rt)
}
