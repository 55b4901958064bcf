// The text of a listing and of a refusal, put into a buffer.
ghost use Rattle.std.specs.Prelude.{◌+◌, ◌*◌, ◌≤◌, length};
ghost use Rattle.refusals.specs.Refusals.{number};
ghost use Rattle.display.specs.Decimals.{digits_of};
ghost use Rattle.display.specs.InternalParts.{Put};
ghost use Rattle.listing.specs.Listing.{record_width};
ghost use Rattle.report.specs.Text.{refusal_text, numbers_line};
ghost use Rattle.report.specs.InternalContracts.{Added, HasRoom, lines_of, list_text};

use display::digits_of;
use listing::{Listed, WIDTH};
use refusals::Refused;

// Puts `N at P` and LF, and returns the length of the text.
pub(crate) fn put_refusal(out: &mut [u8], refused: Refused) -> usize
    requires { 64 ≤ length out.old }
    ensures put { Put out.old out.new 0 (refusal_text (number refused.refusal) refused.place) result }
    ensures upper_bound { result ≤ length out.new }
{
    let mut line = Text { out, length: 0 };
    line.number(refused.refusal.number() as u64);
    line.bytes(b" at ");
    line.number(refused.place as u64);
    line.bytes(b"\n");
    line.length
}

// Puts the first line of a listing, and the lines of its records, which `list` begins with. Returns the length of
// the text.
pub(crate) fn put_listing(out: &mut [u8], listed: Listed, list: &[u64]) -> usize
    requires record_width_in_bounds { listed.points * record_width ≤ length list.now }
    requires list_in_bounds { 64 + length list.now * 21 ≤ length out.old }
    ensures put { Put out.old out.new 0 (list_text listed.points listed.headers list.now) result }
    ensures upper_bound { result ≤ length out.new }
{
    let mut text = Text { out, length: 0 };
    text.bytes(b"points ");
    text.number(listed.points as u64);
    text.bytes(b" headers ");
    text.number(listed.headers as u64);
    text.bytes(b"\n");
    text.records(&list[..listed.points * WIDTH]);
    text.length
}

// A text that grows at the start of a buffer.
#[derive(Drop)]
struct Text<'a> {
    out: &'a mut [u8],
    length: usize,
}

impl<'a> Text<'a> {
    // Appends the lines of the records that the numbers are, `WIDTH` for each.
    fn records(&mut self, numbers: &[u64])
        requires { HasRoom self.old (length numbers.now * 21) }
        ensures added { Added self.old self.new (lines_of numbers.now) }
        ensures upper_bound { self.new.length ≤ self.old.length + length numbers.now * 21 }
    {
        for record in numbers.chunks_exact(WIDTH) {
            self.line(record);
        }
    }

    // Appends numbers as a line: a space between two, and LF after the last.
    fn line(&mut self, numbers: &[u64])
        requires room { HasRoom self.old (length numbers.now * 21) }
        requires some { 1 ≤ length numbers.now }
        ensures added { Added self.old self.new (numbers_line numbers.now) }
        ensures upper_bound { self.new.length ≤ self.old.length + length numbers.now * 21 }
    {
        for (i, n) in numbers.iter().enumerate() {
            if i != 0 {
                self.bytes(b" ");
            }
            self.number(*n);
        }
        self.bytes(b"\n");
    }

    // Appends the digits of `n`.
    fn number(&mut self, n: u64)
        requires { HasRoom self.old 20 }
        ensures added { Added self.old self.new (digits_of n) }
        ensures upper_bound { self.new.length ≤ self.old.length + 20 }
    {
        self.bytes(digits_of(n).as_slice());
    }

    // Appends `bytes`.
    fn bytes(&mut self, bytes: &[u8])
        requires { HasRoom self.old (length bytes.now) }
        ensures { Added self.old self.new bytes.now }
    {
        let end = self.length + bytes.len();
        self.out[self.length..end].copy_from_slice(bytes);
        self.length = end;
    }
}
