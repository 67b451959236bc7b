// The phone's session: its choice, what a request carries, and what a reply leaves.
ghost use Rattle.std.specs.Prelude.{◌≡◌};
ghost use Rattle.notes.specs.Session.{choose as chosen_by, choice_number, new_session, read_carries, write_carries, after_read, after_write};

use crate::message::Refusal;
use crate::vector::Vector;

// What a session asks of the reads that it is served: that what it has read stays read, that its own writes are found, or both.
#[derive(Clone, Copy, PartialEq, Eq)]
pub enum Choice {
    Reads,
    Writes,
    Both,
}

// The choice of a number: 1, 2 or 3. Any other is refused with 1.
impl TryFrom<u8> for Choice {
    type Error = Refusal;

    ghost try_from_gives = { λ k choice. choice ≡ chosen_by k };

    #[tactic(auto, unfolding(crate::specs::Session::choose))]
    fn try_from(k: u8) -> Result<Choice, Refusal> {
        match k {
            1 => Ok(Choice::Reads),
            2 => Ok(Choice::Writes),
            3 => Ok(Choice::Both),
            _ => Err(Refusal::OutOfRange),
        }
    }
}

// Its number.
impl From<Choice> for u8 {
    ghost from_gives = { λ choice k. k ≡ choice_number choice };

    fn from(choice: Choice) -> u8 {
        match choice {
            Choice::Reads => 1,
            Choice::Writes => 2,
            Choice::Both => 3,
        }
    }
}

// A choice that no call changes, and two vectors: the paper's R, raised by reads' replies, and one raised by writes'.
#[derive(Clone, Copy, PartialEq, Eq)]
pub struct Session {
    pub choice: Choice,
    pub reads: Vector,
    pub writes: Vector,
}

impl Session {
    // A new session of this choice: both vectors are zero.
    pub fn new(choice: Choice) -> Session
        ensures { result ≡ new_session choice }
    {
        Session {
            choice,
            reads: Vector::zero(),
            writes: Vector::zero(),
        }
    }

    // The vector that a read's request carries: the maximum of those chosen.
    #[tactic(auto, unfolding(crate::specs::Session::chosen_of))]
    pub fn read_carries(self) -> Vector
        ensures { result ≡ read_carries self }
    {
        match self.choice {
            Choice::Reads => self.reads,
            Choice::Writes => self.writes,
            Choice::Both => self.reads.maximum(self.writes),
        }
    }

    // The vector that a write's request carries: zero.
    pub fn write_carries(self) -> Vector
        ensures { result ≡ write_carries self }
    {
        Vector::zero()
    }

    // The session after a read's reply: R raised to the maximum.
    #[tactic(auto, unfolding(crate::specs::Session::after_read))]
    pub fn after_read(self, reply: Vector) -> Session
        ensures { result ≡ after_read self reply }
    {
        Session {
            reads: self.reads.maximum(reply),
            ..self
        }
    }

    // The session after a write's reply: the other vector raised to the maximum. A function for each vector, since callers choose
    // by name which reply they have.
    #[tactic(auto, unfolding(crate::specs::Session::after_write))]
    pub fn after_write(self, reply: Vector) -> Session
        ensures { result ≡ after_write self reply }
    {
        Session {
            writes: self.writes.maximum(reply),
            ..self
        }
    }

    // A read's reply raises the session in place.
    pub fn raise(&mut self, reply: Vector)
        ensures { self.new ≡ after_read self.old reply }
    {
        *self = self.after_read(reply);
    }

    // And so does a write's.
    pub fn raise_written(&mut self, reply: Vector)
        ensures { self.new ≡ after_write self.old reply }
    {
        *self = self.after_write(reply);
    }
}
