// Text written into a lent buffer, from its beginning on.
ghost use Rattle.std.specs.Prelude.{◌≤◌, length};

use itoa::Buffer;
use sets::{Bits, Few};

/// A lent buffer that is written from its beginning on; what does not fit is left out.
// Stays a struct of our own: std's Cursor<&mut [u8]> does not promise that the same buffer stays lent,
// which the promise of `report` needs.
#[derive(Drop)]
pub(crate) struct Page<'a> {
    pub(crate) out: &'a mut [u8],
    /// How many bytes were written.
    pub(crate) at: usize,
    ghost within: { at ≤ length out.now },
}

impl<'a> Page<'a> {
    ghost use Rattle.std.specs.Prelude.{◌≡◌, ◌*◌, [], ◌∷◌};
    ghost use Rattle.sets.specs.Sets.{members};
    ghost use Rattle.sets.specs.Words.{has};
    ghost use Rattle.report.specs.Text.{blank, number_text, fields};
    ghost use Rattle.report.specs.Page.{page};
    ghost use Rattle.report.specs.Writing.{held, Writes};

    /// A page on which nothing is written.
    pub(crate) fn new(out: &'a mut [u8]) -> Self
        ensures same_buffer { result.out.ghost_name ≡ out.entry.ghost_name }
        ensures empty { held result ≡ page out.old 0 }
    {
        Page { out, at: 0 }
    }

    /// Writes a text.
    pub(crate) fn text(&mut self, text: &[u8])
        ensures { Writes text.now self.old self.new }
    {
        let count = text.len().min(self.out.len() - self.at);
        let end = self.at + count;
        self.out[self.at..end].copy_from_slice(&text[..count]);
        self.at = end;
    }

    /// Writes a blank and a number in decimal.
    pub(crate) fn field(&mut self, number: usize)
        ensures { Writes (blank ∷ number_text number) self.old self.new }
    {
        self.text(b" ");
        self.text(Buffer::new().format(number).as_bytes());
    }

    /// Writes a blank and each number.
    pub(crate) fn fields(&mut self, numbers: &[usize])
        ensures { Writes (fields numbers.now) self.old self.new }
    {
        for &number in numbers {
            self.field(number);
        }
    }

    /// Writes a blank and each member of a set, lowest first.
    pub(crate) fn members<const WORDS: usize>(&mut self, set: Bits<WORDS>)
    where
        Bits<WORDS>: Few<WORDS>,
        ensures { Writes (fields (members (WORDS * 64) (has set.entry.words))) self.old self.new }
    {
        for member in set.members() {
            self.field(member);
        }
    }
}
