// A line of a name and numbers.
ghost use Rattle.std.specs.Prelude.{◌≡◌, leb};
ghost use Rattle.notes.specs.Message.{filled};
ghost use Rattle.text.specs.Text.{named_room, named_line};

use crate::print::{DIGITS, Page};
use notes::message::Refusal;

// Whether an output has room. A product of lengths could overflow, so what the name leaves is divided.
fn has_room(name: usize, count: usize, out: usize) -> bool
    ensures { result ≡ leb (named_room name count) out }
{
    name < out && count <= (out - name - 1) / (DIGITS + 1)
}

// Stores the name, each number with a space before it, and a line feed at the start of out: 9 where out has no room for
// numbers of ten digits each.
pub fn line(name: &[u8], xs: &[u32], out: &mut [u8]) -> Result<usize, Refusal>
    ensures { filled result out.new ≡ named_line name.now xs.now out.old }
{
    if !has_room(name.len(), xs.len(), out.len()) {
        return Err(Refusal::TooShort);
    }
    let mut page = Page::new(out);
    page.text(name);
    page.all_spaced(xs);
    page.end_line();
    Ok(page.at)
}
