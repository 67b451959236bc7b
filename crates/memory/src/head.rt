// What every call on a server refuses first: 9 for history and image, 6 for state, 2.
ghost use Rattle.std.specs.Prelude.{◌≡◌};
ghost use Rattle.notes.specs.Reply.{first};
ghost use Rattle.rules.specs.Answer.{short, verdict_refusal, judged, head as head_of, is_down};
ghost use Rattle.rules.specs.Calls.{no_server};
ghost use Rattle.memory.specs.Lent.{looked_at};

use crate::image::Image;
use crate::lent::Lent;
use crate::sound;
use rules::answer::Refusal;

// Whether a lent history or image is too short, whatever the state.
pub fn too_short(history: &[u8], image: &[u8]) -> bool
    ensures { result ≡ short (no_server history.now image.now) }
{
    history.len() < Image::HISTORY_LEN || image.len() < Image::LEN
}

// The head of every call: 9 for history and image, then 6.
pub fn sound_head(m: Lent<'_>) -> Result<(), Refusal>
    ensures { verdict_refusal result ≡ first (judged (looked_at m.entry)) }
{
    if too_short(m.history, m.image) {
        return Err(Refusal::TooShort);
    }
    if !sound::is_sound(m) {
        return Err(Refusal::Unsound);
    }
    Ok(())
}

// What that refuses, then 2 where the server is up or down and should not be. A test passed as a closure is no plainer than what it
// finds.
fn head(m: Lent<'_>, wrong: bool) -> Result<(), Refusal>
    ensures { verdict_refusal result ≡ first (head_of (looked_at m.entry) wrong) }
{
    sound_head(m)?;
    if wrong {
        return Err(Refusal::NotUp);
    }
    Ok(())
}

// The head of a call on a server that must be up.
pub fn up_head(m: Lent<'_>) -> Result<(), Refusal>
    ensures { verdict_refusal result ≡ first (head_of (looked_at m.entry) (is_down (looked_at m.entry))) }
{
    head(m, !m.state.up)
}

// The head of recovery, which a server that is up is refused.
pub fn down_head(m: Lent<'_>) -> Result<(), Refusal>
    ensures { verdict_refusal result ≡ first (head_of (looked_at m.entry) m.entry.state.now.up) }
{
    head(m, m.state.up)
}
