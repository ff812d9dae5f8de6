// What `pack` reads: the head of its input, and a unit's length (G2, G4, G6).
ghost use Rattle.std.specs.Prelude.{◌≡◌};
ghost use Rattle.packing.specs.Pack.{mtu_width, version_in, head_after, length_in};
ghost use Rattle.packing.specs.Paper.{paper_version, paper_head, paper_length};

use base::big_endian::number_at;

// The two versions of the input: the version byte of each, and how many bytes its mtu has.
const SHORT_VERSION: u8 = 1;

const SHORT_MTU: usize = 2;

const LONG_VERSION: u8 = 2;

const LONG_MTU: usize = 4;

// The bytes of the version and of a unit's length.
pub const VERSION_WIDTH: usize = 1;

pub const UNIT_WIDTH: usize = 4;

// The version of an input: a short mtu or a long one.
#[derive(Clone, Copy)]
pub enum InputVersion {
    Short,
    Long,
}

// The head of the input.
#[derive(Clone, Copy)]
pub struct PackHead {
    pub mtu: usize,
    pub first: u16,
}

// A unit is cut.
#[derive(Clone, Copy)]
pub struct Cut;

// The version of the input, if there is a version byte, and one that is known.
pub fn read_version(bytes: &[u8]) -> Option<InputVersion>
    ensures { paper_version result ≡ version_in bytes.now }
{
    match *bytes.first()? {
        SHORT_VERSION => Some(InputVersion::Short),
        LONG_VERSION => Some(InputVersion::Long),
        _ => None,
    }
}

// How many bytes the mtu of such an input has.
pub fn mtu_width(version: InputVersion) -> usize
    ensures { result ≡ mtu_width version }
{
    match version {
        InputVersion::Short => SHORT_MTU,
        InputVersion::Long => LONG_MTU,
    }
}

// What stands behind the version byte, if it is whole.
pub fn read_head(bytes: &[u8], version: InputVersion) -> Option<PackHead>
    ensures { paper_head result ≡ head_after version bytes.now }
{
    let width = mtu_width(version);
    if bytes.len() < width + train::NUMBER_WIDTH {
        return None;
    }
    let mtu = number_at(bytes, 0, width);
    let first = number_at(bytes, width, train::NUMBER_WIDTH) as u16;
    Some(PackHead { mtu, first })
}

// The length of the next unit, if there is a unit; a cut field or a unit over the store counts as cut.
pub fn read_unit_length(bytes: &[u8]) -> Result<Option<usize>, Cut>
    ensures { paper_length result ≡ length_in bytes.now }
{
    if bytes.is_empty() {
        return Ok(None);
    }
    if bytes.len() < UNIT_WIDTH {
        return Err(Cut);
    }
    let stated = number_at(bytes, 0, UNIT_WIDTH);
    if crate::UNIT_STORE < stated {
        return Err(Cut);
    }
    Ok(Some(stated))
}
