// Fields that are longer than they need to be, counted (F6, V18): length fields of all elements, size fields where an OBU is finished.
use crate::case;
use crate::case::Case;
use std::io;

// Both kinds in one packet, and bytes that only look so.
fn both(rt: &impl Print) -> io::Result<()> {
    // 30: W 3. 81 00 is 1: 30. 81 00 is 1: 30. To the end: 32 80 00, size 0 in two bytes.
    // Out: 32 00 three times. Padded: two lengths, one size.
    case::whole(
        rt,
        35,
        b"\x30\x81\x00\x30\x81\x00\x30\x32\x80\x00",
        b"\x32\x00\x32\x00\x32\x00",
    )?;
    // 20: W 2. 01: 30. To the end, with no length field: 80 00, an OBU of type 0 with no size field.
    // Out: 32 00, 82 01 00. Padded: nothing.
    case::whole(rt, 36, b"\x20\x01\x30\x80\x00", b"\x32\x00\x82\x01\x00")?;
    // 20: W 2. 83 00 is 3: 32 80 00. To the end: 32, whose size field is missing. A refusal has no count.
    case::broken(rt, 37, b"\x20\x83\x00\x32\x80\x00\x32", 18)
}

// OBUs that are dropped count too.
fn dropped(rt: &impl Print) -> io::Result<()> {
    // 00: W 0. 83 00 is 3: 12 80 00, a temporal delimiter with size 0 in two bytes. 84 00 is 4: 7A 81 00 00, padding with size 1
    // in two bytes. 01: 40, a tile list with no size field.
    // Out: nothing. Padded: two lengths, two sizes.
    case::whole(
        rt,
        38,
        b"\x00\x83\x00\x12\x80\x00\x84\x00\x7A\x81\x00\x00\x01\x40",
        b"",
    )
}

// An element that is thrown away: its length counts, and what may be its size field is not looked at.
fn thrown_away(rt: &impl Print) -> io::Result<()> {
    // A0: Z, W 2. 83 00 is 3: 32 80 00, thrown away. To the end: 30.
    // Out: 32 00. Padded: one length.
    case::headless(rt, 39, b"\xA0\x83\x00\x32\x80\x00\x30", b"\x32\x00")?;
    // C0: Z, Y, W 0. 82 80 00 is 2: 32 80, thrown away, and so not left open.
    // Out: nothing. Padded: one length.
    case::headless(rt, 40, b"\xC0\x82\x80\x00\x32\x80", b"")
}

// Elements that are left open: the length counts where it stands, the size field in the packet that finishes the OBU.
fn left_open(rt: &impl Print) -> io::Result<()> {
    // 40: Y, W 0. 83 00 is 3: 32 81 00, open, size 1 in two bytes.
    // 90: Z, W 1. To the end: A1, which ends it.
    // Out: nothing; then 32 01 A1. Padded: one length; then one size.
    case::two(
        rt,
        41,
        b"\x40\x83\x00\x32\x81\x00",
        b"",
        3,
        b"\x90\xA1",
        b"\x32\x01\xA1",
    )?;
    // 60: Y, W 2. 03: 32 80 00. To the end: 12, open.
    // A0: Z, W 2. 82 00 is 2: 80 00, which ends it, a temporal delimiter with size 0 in two bytes. To the end: 32 80 80 00.
    // Out: 32 00; then 32 00. Padded: one size; then one length, two sizes.
    case::two(
        rt,
        42,
        b"\x60\x03\x32\x80\x00\x12",
        b"\x32\x00",
        1,
        b"\xA0\x82\x00\x80\x00\x32\x80\x80\x00",
        b"\x32\x00",
    )
}

// A size field that is cut twice counts once, in the last packet.
fn over_three(rt: &impl Print) -> io::Result<()> {
    // 50: Y, W 1. To the end: 32 82, open. C0: Z, Y, W 0. 81 00 is 1: 80. 80: Z, W 0. 83 00 is 3: 00 A1 A2: 82 80 00 is 2.
    // Out: nothing twice; then 32 02 A1 A2. Padded: nothing; one length; one length, one size.
    let mut case = Case::begin(rt, 43)?;
    case.takes(rt, case::FIRST, b"\x50\x32\x82", b"", 2)?;
    case.takes(rt, 0, b"\xC0\x81\x00\x80", b"", 3)?;
    case.takes(rt, 1, b"\x80\x83\x00\x00\xA1\xA2", b"\x32\x02\xA1\xA2", 0)?;
    case::end(rt)
}

// Fields of two bytes that are the shortest form of what they state.
fn long(rt: &impl Print) -> io::Result<()> {
    // 00: W 0. 83 01 is 131: 32, 80 01 is 128, and 128 bytes A1. Each field has two bytes and needs them.
    // Out: the element as it came. Padded: nothing.
    let mut payload = [0xA1u8; 134];
    payload[0] = 0x00;
    payload[1] = 0x83;
    payload[2] = 0x01;
    payload[3] = 0x32;
    payload[4] = 0x80;
    payload[5] = 0x01;
    let mut bytes = [0xA1u8; 131];
    bytes[0] = 0x32;
    bytes[1] = 0x80;
    bytes[2] = 0x01;
    case::whole(rt, 44, &payload, &bytes)
}

pub fn all(rt: &impl Print) -> io::Result<()> {
    both(rt)?;
    dropped(rt)?;
    thrown_away(rt)?;
    left_open(rt)?;
    over_three(rt)?;
    long(rt)
}
