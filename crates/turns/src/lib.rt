// What the steps of all programs share: the order that a step gives, what came of it, and the lines for standard error (G7, G14).
#![tactic(auto)]

ghost use Rattle.std.specs.Prelude.{◌≡◌, ℕ, ◌+◌, ◌≤◌, true, false, length};
ghost use Rattle.base.specs.Lists.{front, Put};
ghost use Rattle.base.specs.Words.{words_most};
ghost use Rattle.turns.specs.Text.{most_digits, decimal, labelled, subject_text, refusal_text, word_text, line_text};
ghost use Rattle.turns.specs.Orders.{next_count, says, Turned};

// What a program does before its next step, in this order: so many bytes at the front of its output go to standard output, so many
// at the front of its line to standard error, and so many are read to the front of its input. Without `more` it does nothing and ends;
// a flag and no `Option`, since the definitions and theorems on runs speak of it.
#[derive(Clone, Copy)]
pub struct Order {
    pub more: bool,
    pub write: usize,
    pub say: usize,
    pub read: usize,
}

// What the program does now, and where it then stands.
#[derive(Clone, Copy)]
pub struct Turn<P> {
    pub place: P,
    pub order: Order,
}

// What failed: a read, or a write of the output.
#[derive(Clone, Copy)]
pub enum Failure {
    Read,
    Write,
}

// What came of it: how many bytes were read, fewer than asked for at the end of the input alone; or what failed.
pub type Came = Result<usize, Failure>;

// What a line is of, and what it says. A refusal is given by its number, since the definitions and theorems on runs say numbers.
#[derive(Clone, Copy)]
pub enum Subject {
    Input,
    Train,
    Unit(u64),
    Record(u64),
}

#[derive(Clone, Copy)]
pub enum Word {
    Refused(u32),
    NoHead,
    Cut,
    ReadFailed,
    WriteFailed,
}

// The bytes of a program's line: more than any line has.
pub const LINE_BYTES: usize = 2048;

// What the programs have room for: the bytes of a unit, the records of a list, the bytes of the output (L12 to L14).
pub const UNIT_STORE: usize = 32768;

pub const LIST_RECORDS: usize = 512;

pub const OUTPUT_BYTES: usize = 65536;

// The most digits of a number of 64 bits.
const MOST_DIGITS: usize = 20;

// The run is over.
pub fn over() -> Order
    ensures { result ≡ record { more = false; write = 0; say = 0; read = 0 } }
{
    Order {
        more: false,
        write: 0,
        say: 0,
        read: 0,
    }
}

// So many bytes are written, nothing is said, and so many bytes are read.
pub fn ask(write: usize, read: usize) -> Order
    ensures { result ≡ record { more = true; write = write; say = 0; read = read } }
{
    Order {
        more: true,
        write,
        say: 0,
        read,
    }
}

// So many bytes of the line are said, nothing is written, and so many bytes are read.
// Apart from `ask`, since two numbers alike would not say which of them is meant.
pub fn tell(say: usize, read: usize) -> Order
    ensures { result ≡ record { more = true; write = 0; say = say; read = read } }
{
    Order {
        more: true,
        write: 0,
        say,
        read,
    }
}

// The next of what is counted.
pub fn next_count(k: u64) -> u64
    ensures { result ≡ next_count k }
{
    k.wrapping_add(1)
}

// A number in decimal at the cursor `at`, and the cursor after it.
// Helper: `line` must have space for 20 digits.
pub fn put_decimal(n: u64, line: &mut [u8], at: usize) -> usize
    requires { at + most_digits ≤ length line.old }
    ensures { Put line.old line.new at result (decimal n) }
{
    let mut text = [0u8; MOST_DIGITS];
    let digits = io::decimal(n, &mut text);
    base::put_text(&text[..digits], line, at)
}

// Some words and then a number at the cursor `at`, and the cursor after them.
// Helper: `line` must have space for the words and 20 digits.
pub fn put_labelled(words: &[u8], n: u64, line: &mut [u8], at: usize) -> usize
    requires { at + length words.now + most_digits ≤ length line.old }
    ensures { Put line.old line.new at result (labelled words.now n)
        × (result ≤ at + length words.now + most_digits) }
{
    let behind = base::put_text(words, line, at);
    put_decimal(n, line, behind)
}

// What the line is of, at its front. Put and not displayed, here and below: each byte is promised, and where the cursor then stands.
fn put_subject(subject: Subject, line: &mut [u8; LINE_BYTES]) -> usize
    ensures { Put line.old line.new 0 result (subject_text subject) }
{
    match subject {
        Subject::Input => base::put_text(b"input", line, 0),
        Subject::Train => base::put_text(b"train", line, 0),
        Subject::Unit(n) => put_labelled(b"unit ", n, line, 0),
        Subject::Record(n) => put_labelled(b"record ", n, line, 0),
    }
}

// The number of a refusal and its words, at the cursor `at`.
fn put_refusal(number: u32, line: &mut [u8], at: usize) -> usize
    requires { at + most_digits + words_most + 3 ≤ length line.old }
    ensures { Put line.old line.new at result (refusal_text number) }
{
    let behind = put_decimal(u64::from(number), line, at);
    let inside = base::put_text(b" (", line, behind);
    let end = base::put_words(number, line, inside);
    base::put_text(b")", line, end)
}

// What it says, at the cursor `at`.
fn put_word(word: Word, line: &mut [u8], at: usize) -> usize
    requires { at + most_digits + words_most + 3 ≤ length line.old }
    ensures { Put line.old line.new at result (word_text word) }
{
    match word {
        Word::Refused(number) => put_refusal(number, line, at),
        Word::NoHead => base::put_text(b"no head", line, at),
        Word::Cut => base::put_text(b"cut", line, at),
        Word::ReadFailed => base::put_text(b"read failed", line, at),
        Word::WriteFailed => base::put_text(b"write failed", line, at),
    }
}

// A whole line at the front of the bytes lent, and how many it has.
fn put_line(subject: Subject, word: Word, line: &mut [u8; LINE_BYTES]) -> usize
    ensures { (result ≡ length (line_text subject word)) × (line.new ≡ front (line_text subject word) line.old) }
{
    let colon = put_subject(subject, line);
    let at = base::put_text(b": ", line, colon);
    let end = put_word(word, line, at);
    base::put_text(b"\n", line, end)
}

// A line is said, nothing is written, and so many bytes are read.
pub fn say(subject: Subject, word: Word, read: usize, line: &mut [u8; LINE_BYTES]) -> Order
    ensures { (result ≡ record { more = true; write = 0; say = length (line_text subject word); read = read })
        × (line.new ≡ front (line_text subject word) line.old) }
{
    let said = put_line(subject, word, line);
    tell(said, read)
}

// A line is said where a run stands, with nothing written and nothing read.
pub fn saying<P>(place: P, subject: Subject, word: Word, line: &mut [u8; LINE_BYTES]) -> Turn<P>
    ensures { (input out : ℕ) → Turned (says place subject word 0) result.place result.order line.old line.new input out }
{
    Turn {
        place,
        order: say(subject, word, 0, line),
    }
}
