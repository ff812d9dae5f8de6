// The bytes of an OBU that lies across store and payload (V8 to V10, R18): copied, and judged by the first of them.
ghost use Rattle.std.specs.Prelude.{◌+◌, ◌≤◌, ◌<◌, length};

use base::Refusal;
use obu::Head;

// The bytes that decide an OBU's front.
const HEAD_BYTES: usize = 10;

// First bytes of the store, then an element of the payload. A size field can say how many there are.
#[derive(Clone, Copy)]
pub struct Across<'a> {
    pub stored: &'a [u8],
    pub element: &'a [u8],
    ghost some: { 1 ≤ length element.now },
    ghost small: { length stored.now + length element.now < 4294967296 },
}

impl Across<'_> {
    ghost use Rattle.std.specs.Prelude.{◌≡◌, ◌-◌, drop};
    ghost use Rattle.base.specs.Lists.{replaced};
    ghost use Rattle.obu.specs.Wire.{whole_of};
    ghost use Rattle.obu.specs.Paper.{paper_whole};
    ghost use Rattle.handing.specs.Paper.{all_of};

    // Copies them, from byte `skip` of them on.
    // Helper: there must be `skip` of them, and `to` must have the space.
    pub fn copy(self, skip: usize, to: &mut [u8], at: usize)
        requires { (skip ≤ length (all_of self)) × (at + (length (all_of self) - skip) ≤ length to.old) }
        ensures { to.new ≡ replaced to.old at (drop skip (all_of self.entry)) }
    {
        let kept = self.stored.len();
        if skip < kept {
            let next = base::copy_bytes(self.stored, skip, kept - skip, to, at);
            base::copy_bytes(self.element, 0, self.element.len(), to, next);
        } else {
            let passed = skip - kept;
            base::copy_bytes(self.element, passed, self.element.len() - passed, to, at);
        }
    }

    // The OBU of exactly these bytes: those of the payload alone are judged where they stand.
    pub fn judge(self) -> Result<Head, Refusal>
        ensures { paper_whole result ≡ whole_of (all_of self.entry) }
    {
        if self.stored.is_empty() {
            return obu::whole_obu(self.element, self.element.len());
        }
        self.judge_across()
    }

    // The same by the first of them, which are put together in an array.
    fn judge_across(self) -> Result<Head, Refusal>
        ensures { paper_whole result ≡ whole_of (all_of self.entry) }
    {
        let mut head = [0u8; HEAD_BYTES];
        let a = self.stored.len().min(HEAD_BYTES);
        let b = self.element.len().min(HEAD_BYTES - a);
        base::copy_bytes(self.stored, 0, a, &mut head, 0);
        base::copy_bytes(self.element, 0, b, &mut head, a);
        obu::whole_obu(&head[..a + b], self.stored.len() + self.element.len())
    }
}
