// A page of text: a lent output that is filled from its front.
ghost use Rattle.std.specs.Prelude.{◌+◌, ◌*◌, length};
ghost use mathlib.Core.List.{flat_map};
ghost use Rattle.text.specs.Text.{text, digits_most, decimal, spaced, HasRoom, Blank, Added};

use notes::number;

// The most digits that a number has.
pub(crate) const DIGITS: usize = 10;

// The output, and the place behind what stands in it.
#[derive(Drop)]
pub(crate) struct Page<'a> {
    pub(crate) out: &'a mut [u8],
    pub(crate) at: usize,
}

impl<'a> Page<'a> {
    // A page on which nothing stands yet.
    pub(crate) fn new(out: &'a mut [u8]) -> Page<'a>
        ensures { Blank out.entry result }
    {
        Page { out, at: 0 }
    }

    // The bytes of t.
    pub(crate) fn text(&mut self, t: &[u8])
        requires { HasRoom self.old (length t.now) }
        ensures { Added self.old t.now self.new }
    {
        number::raw::put_bytes(self.out, self.at, t);
        self.at += t.len();
    }

    // A line's end.
    pub(crate) fn end_line(&mut self)
        requires { HasRoom self.old 1 }
        ensures { Added self.old (text "\n") self.new }
    {
        self.text(b"\n");
    }

    // A number in decimal: its other digits, and the last behind them. The kit's itoa writes them too; by hand, the programs rest on no
    // library but std. By `as`, since a u32 becomes a u8 by no `From`; a digit fits.
    pub(crate) fn number(&mut self, n: u32)
        requires { HasRoom self.old (length (decimal n)) }
        ensures { Added self.old (decimal n) self.new }
    {
        if n < 10 {
            return self.text(&[b'0' + n as u8]);
        }
        self.number(n / 10);
        self.text(&[b'0' + (n % 10) as u8]);
    }

    // A space, and a number in decimal.
    pub(crate) fn spaced(&mut self, n: u32)
        requires { HasRoom self.old (length (spaced n)) }
        ensures { Added self.old (spaced n) self.new }
    {
        self.text(b" ");
        self.number(n);
    }

    // Numbers, with a space before each.
    pub(crate) fn all_spaced(&mut self, xs: &[u32])
        requires { HasRoom self.old ((digits_most + 1) * length xs.now) }
        ensures { Added self.old (flat_map spaced xs.now) self.new }
    {
        for x in xs {
            self.spaced(*x);
        }
    }
}
