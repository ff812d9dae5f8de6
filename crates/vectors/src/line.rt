// The reading of a line, byte by byte: four decimal numbers, and the unit.
ghost use Rattle.std.specs.Prelude.{◌≤◌, ◌<◌};

// One byte more than the longest unit.
pub const UNIT_STORE: usize = 1048577;

// The words of a line: the four numbers, and the unit.
#[derive(Clone, Copy)]
enum Word {
    Mtu,
    Obus,
    Plan,
    Output,
    Unit,
}

// What was read of a line: which word it is in, the four numbers, the first half of a byte if it has come, the unit's length,
// its last byte, and the number after the star if that has come.
#[derive(Clone, Copy)]
pub struct Line {
    word: Word,
    pub mtu: usize,
    pub obus: usize,
    pub plan: usize,
    pub output: usize,
    high: Option<u8>,
    // the bytes themselves stand in the stores, since a line is emptied without them
    length: usize,
    last: u8,
    repeated: Option<usize>,
}

pub const EMPTY: Line = Line {
    word: Word::Mtu,
    mtu: 0,
    obus: 0,
    plan: 0,
    output: 0,
    high: None,
    length: 0,
    last: 0,
    repeated: None,
};

// A decimal number with one digit more.
// By hand and not with `parse`: a line comes byte by byte, over the ends of what is read at once.
fn longer(n: usize, b: u8) -> usize {
    n % 10000000 * 10 + usize::from(digit(b))
}

// The value of a digit, decimal or hexadecimal; 0 for another byte.
// By hand: `to_digit` takes small letters too, and would need two conversions.
fn digit(b: u8) -> u8
    ensures { result < 16 }
{
    match b {
        b'0'..=b'9' => b - b'0',
        b'A'..=b'F' => b - b'A' + 10,
        _ => 0,
    }
}

impl Line {
    // A blank.
    fn next_word(&mut self) {
        self.word = match self.word {
            Word::Mtu => Word::Obus,
            Word::Obus => Word::Plan,
            Word::Plan => Word::Output,
            Word::Output | Word::Unit => Word::Unit,
        };
    }

    // A byte of the unit's text.
    fn unit_text(&mut self, b: u8, unit: &mut [u8; UNIT_STORE]) {
        if b == b'*' {
            // a further star leaves the number that has come
            self.repeated = Some(self.repeated.unwrap_or(0));
        } else if let Some(n) = self.repeated {
            self.repeated = Some(longer(n, b));
        } else if let Some(high) = self.high {
            self.high = None;
            self.put_byte(high % 16 * 16 + digit(b), unit);
        } else {
            self.high = Some(digit(b));
        }
    }

    // A byte of the unit, if it has space.
    fn put_byte(&mut self, b: u8, unit: &mut [u8; UNIT_STORE]) {
        self.last = b;
        if self.length < UNIT_STORE {
            unit[self.length] = b;
            self.length += 1;
        }
    }

    // One byte of a line, and not its end.
    pub fn take_byte(&mut self, b: u8, unit: &mut [u8; UNIT_STORE]) {
        match b {
            b'-' => {}
            b' ' => self.next_word(),
            _ => match self.word {
                Word::Mtu => self.mtu = longer(self.mtu, b),
                Word::Obus => self.obus = longer(self.obus, b),
                Word::Plan => self.plan = longer(self.plan, b),
                Word::Output => self.output = longer(self.output, b),
                Word::Unit => self.unit_text(b, unit),
            },
        }
    }

    // At the end of a line: repeats the unit's last byte where told to. How many bytes the unit has.
    pub fn finish_unit(&self, unit: &mut [u8; UNIT_STORE]) -> usize
        ensures { result ≤ 1048577 }
    {
        let length = self.length.min(UNIT_STORE);
        let end = self.repeated.unwrap_or(0).clamp(length, UNIT_STORE);
        unit[length..end].fill(self.last);
        end
    }
}
