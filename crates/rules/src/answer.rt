// What calls answer, and what they refuse.
ghost use Rattle.std.specs.Prelude.{◌≡◌};
ghost use Rattle.rules.specs.Answer.{refusal_number, of_message};

use notes::index::PhoneId;
use notes::message;
use notes::vector::Vector;

#[derive(Clone, Copy, PartialEq, Eq)]
pub enum Refusal {
    OutOfRange,
    // Down; for recovery, up.
    NotUp,
    NotYet,
    HistoryFull,
    LogFull,
    Unsound,
    Gap,
    OwnAhead,
    TooShort,
}

// A refusal's number in document 01.
impl From<Refusal> for u8 {
    ghost from_gives = { λ refusal number. number ≡ refusal_number refusal };

    fn from(refusal: Refusal) -> u8 {
        match refusal {
            Refusal::OutOfRange => 1,
            Refusal::NotUp => 2,
            Refusal::NotYet => 3,
            Refusal::HistoryFull => 4,
            Refusal::LogFull => 5,
            Refusal::Unsound => 6,
            Refusal::Gap => 7,
            Refusal::OwnAhead => 8,
            Refusal::TooShort => 9,
        }
    }
}

// The calls on messages and sessions refuse some of these.
impl From<message::Refusal> for Refusal {
    ghost from_gives = { λ told refusal. refusal ≡ of_message told };

    fn from(told: message::Refusal) -> Refusal {
        match told {
            message::Refusal::OutOfRange => Refusal::OutOfRange,
            message::Refusal::Malformed => Refusal::Unsound,
            message::Refusal::TooShort => Refusal::TooShort,
        }
    }
}

// What a step answers that it does not refuse.
#[derive(Clone, Copy, PartialEq, Eq)]
pub enum Answer {
    // A read's: the value of the cell's winner, or none for "no note", and V.
    Read(Option<u32>, Vector),
    // A write's: V.
    Written(Vector),
    Done,
}

// What a step answers.
pub type Outcome = Result<Answer, Refusal>;

// The phones in CR: how many, and the lowest numbered one.
#[derive(Clone, Copy, PartialEq, Eq)]
pub struct Phones {
    pub count: u8,
    pub lowest: PhoneId,
}
