// Starting anew.
ghost use Rattle.std.specs.Prelude.{◌≡◌, ◌++◌, ◌≤◌, length, drop, replicate};
ghost use Rattle.rules.specs.Image.{image_size, fresh_image};
ghost use Rattle.rules.specs.Calls.{start_effect, start as start_of};

use memory::head;
use memory::image::Image;
use notes::index::ServerId;
use notes::number::raw::Number;
use rules::answer::Refusal;
use rules::state::State;

// Zeros in the place of the first so many bytes.
fn zero_first(b: &mut [u8], len: usize)
    requires { len ≤ length b.old }
    ensures { b.new ≡ replicate len 0 ++ drop len b.old }
{
    b[..len].fill(0);
}

// An image anew. Its counts and the header's spare bytes are zero with the rest. Its length stays a clause, since the kit has no rule
// for a ghost field beside a `&mut`.
fn put_fresh(image: &mut [u8], n: u8, own: ServerId)
    requires { image_size ≤ length image.old }
    ensures { image.new ≡ fresh_image n own ++ drop image_size image.old }
{
    zero_first(image, Image::LEN);
    n.put(image, Image::N);
    own.0.put(image, Image::OWN);
    // By `as`, since a usize becomes a u16 by no `From`; the three constants fit.
    (Image::CHECKPOINT_AT as u16).put(image, Image::CHECKPOINT_OFFSET);
    (Image::LOG_AT as u16).put(image, Image::LOG_OFFSET);
    (Image::LEN as u16).put(image, Image::TOTAL);
}

// A server that is up, with its history zeroed and its image fresh: 9 for a short history or image, then 1 for N or own number.
// A refusal makes no server.
pub fn start(n: u8, own: ServerId, history: &mut [u8], image: &mut [u8]) -> Result<State, Refusal>
    ensures { start_effect result history.new image.new ≡ start_of n own history.old image.old }
{
    if head::too_short(history, image) {
        return Err(Refusal::TooShort);
    }
    if !own.is_one_of(n) {
        return Err(Refusal::OutOfRange);
    }
    zero_first(history, Image::HISTORY_LEN);
    put_fresh(image, n, own);
    Ok(State::blank(true, n, own))
}
