// Lines on standard output: a name and numbers, or a listing.
use notes::vector::Vector;
use rules::answer::{Answer, Outcome, Phones, Refusal};
use std::io::{Stdout, Write};
use text::{line, listing};

// Room for a line.
const LINE: usize = 200;

// Tells on standard output. A write that fails is let go.
#[derive(Clone, Copy)]
pub(crate) struct Teller {
    pub(crate) to: Stdout,
}

// A refusal's number in document 01.
fn number(refusal: Refusal) -> u32 {
    u32::from(u8::from(refusal))
}

impl Teller {
    // A name, and numbers behind it.
    pub(crate) fn say(self, name: &[u8], xs: &[u32]) {
        let mut out = [0; LINE];
        if let Ok(len) = line::line(name, xs, &mut out) {
            let _ = self.to.write_all(&out[..len]);
        }
    }

    // The listing of a message.
    pub(crate) fn list(self, message: &[u8]) {
        let mut out = [0; listing::ROOM];
        if let Ok(len) = listing::list(message, &mut out) {
            let _ = self.to.write_all(&out[..len]);
        }
    }

    // The positions of a vector that N servers use.
    pub(crate) fn vector(self, name: &[u8], v: Vector, n: u8) {
        let xs = v.counts.map(u32::from);
        self.say(name, &xs[..usize::from(n).min(xs.len())]);
    }

    // A reply's number and values, and V where the reply has it.
    pub(crate) fn reply(self, outcome: Outcome, n: u8) {
        match outcome {
            Ok(Answer::Read(Some(value), _)) => self.say(b"  reply", &[0, 1, value]),
            Ok(Answer::Read(None, _)) => self.say(b"  reply", &[0, 0]),
            Ok(_) => self.say(b"  reply", &[0]),
            Err(refusal) => self.say(b"  reply", &[number(refusal)]),
        }
        if let Ok(Answer::Read(_, v) | Answer::Written(v)) = outcome {
            self.vector(b"  reply V", v, n);
        }
    }

    // A status: its number, how many phones are in CR, and the lowest numbered one.
    pub(crate) fn status(self, status: Result<Option<Phones>, Refusal>) {
        match status {
            Ok(Some(Phones { count, lowest })) => {
                self.say(b"  status", &[0, u32::from(count), u32::from(lowest.0)]);
            }
            Ok(None) => self.say(b"  status", &[0, 0]),
            Err(refusal) => self.say(b"  status", &[number(refusal)]),
        }
    }
}
