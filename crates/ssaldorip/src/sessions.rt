// The calls on a phone's session in its bytes: they need no server.
ghost use Rattle.std.specs.Prelude.{◌≡◌, ◌≤◌, length};
ghost use denote.Ref.{MutBor};
ghost use Rattle.notes.specs.Session.{after_read, after_write};
ghost use Rattle.notes.specs.declared.session.Session.{Session};
ghost use Rattle.notes.specs.declared.vector.Vector.{Vector};
ghost use Rattle.rules.specs.Answer.{verdict_reply};
ghost use Rattle.ssaldorip.specs.Calls.{left, onto};
ghost use Rattle.ssaldorip.specs.Sessions.{session_size, session_in, session_bytes, session_start, session_raise, session_asks};
ghost use Rattle.ssaldorip.specs.Forms.{session_told};

use crate::call::{code, vector_in};
use notes::number::raw::Number;
use notes::session::{Choice, Session};
use notes::vector;
use notes::vector::Vector;
use rules::answer::Refusal;

// The vector of reads stands first; where the vector of own writes and the choice stand, and the whole.
const WRITES: usize = Vector::SIZE;

const CHOICE: usize = WRITES + Vector::SIZE;

const LEN: usize = CHOICE + 1;

// The session in its bytes: 9 for too few of them, then 1 for an unknown choice.
fn session_of(b: &[u8]) -> Result<Session, Refusal>
    ensures { result ≡ session_told b.now }
{
    if b.len() < LEN {
        return Err(Refusal::TooShort);
    }
    Ok(Session {
        choice: Choice::try_from(b[CHOICE])?,
        reads: vector::raw::vector_at(b, 0),
        writes: vector::raw::vector_at(b, WRITES),
    })
}

// A session in its bytes; the bytes past it stay.
fn put_session(b: &mut [u8], s: Session)
    requires { session_size ≤ length b.old }
    ensures { b.new ≡ onto (session_bytes s) b.old }
{
    vector::raw::put_vector(b, 0, s.reads);
    vector::raw::put_vector(b, WRITES, s.writes);
    u8::from(s.choice).put(b, CHOICE);
}

// A new session in its bytes.
#[tactic(auto, unfolding(crate::specs::Sessions::session_start))]
fn started(choice: u8, session: &mut [u8]) -> Result<(), Refusal>
    ensures { left (verdict_reply result).number session.new ≡ session_start choice session.old }
{
    if session.len() < LEN {
        return Err(Refusal::TooShort);
    }
    put_session(session, Session::new(Choice::try_from(choice)?));
    Ok(())
}

// A new session of this choice: 9 where it is too short, then 1 for an unknown choice.
#[unsafe(no_mangle)]
pub extern "C" fn ssaldorip_session_start(choice: u8, session: &mut [u8]) -> u32
    ensures { left result session.new ≡ session_start choice session.old }
{
    code(started(choice, session))
}

// A session in its bytes, which a reply's vector raises in place.
#[tactic(auto, using(crate::proofs::Raised::raise_told))]
fn raised<F: Fn(&mut Session, Vector)>(
    session: &mut [u8],
    reply_vector: &[u8],
    raise: F,
) -> Result<(), Refusal>
    requires { F.IsAlwaysCallable raise }
    ensures { (f : Session → Vector → Session)
        → ((s t : MutBor Session) (v : Vector) (u : Unit) → F.post raise s v u t → t.now ≡ f s.now v)
        → left (verdict_reply result).number session.new ≡ session_raise f session.old reply_vector.now }
{
    let reply = vector_in(reply_vector)?;
    let mut s = session_of(session)?;
    raise(&mut s, reply);
    put_session(session, s);
    Ok(())
}

// The session raised by a read's reply: 9 where one of the two is too short, then 1 where its choice is unknown.
#[unsafe(no_mangle)]
pub extern "C" fn ssaldorip_session_raise(session: &mut [u8], reply_vector: &[u8]) -> u32
    ensures { left result session.new ≡ session_raise after_read session.old reply_vector.now }
{
    code(raised(session, reply_vector, Session::raise))
}

// The same by a write's reply.
#[unsafe(no_mangle)]
pub extern "C" fn ssaldorip_session_raise_written(session: &mut [u8], reply_vector: &[u8]) -> u32
    ensures { left result session.new ≡ session_raise after_write session.old reply_vector.now }
{
    code(raised(session, reply_vector, Session::raise_written))
}

// What a session's next read carries, in an output.
#[tactic(auto, using(crate::proofs::Raised::asks_told))]
fn carried(session: &[u8], asked: &mut [u8]) -> Result<(), Refusal>
    ensures { left (verdict_reply result).number asked.new ≡ session_asks session.now asked.old }
{
    let s = session_of(session)?;
    if asked.len() < Vector::SIZE {
        return Err(Refusal::TooShort);
    }
    vector::raw::put_vector(asked, 0, s.read_carries());
    Ok(())
}

// What the session's next read carries, at the start of `asked`: 9 for the session, then 1, then 9 for `asked`.
#[unsafe(no_mangle)]
pub extern "C" fn ssaldorip_session_asks(session: &[u8], asked: &mut [u8]) -> u32
    ensures { left result asked.new ≡ session_asks session.now asked.old }
{
    code(carried(session, asked))
}
