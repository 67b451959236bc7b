// Events at a server. Each is told with its name, what it answers, and what it leaves.
ghost use Rattle.std.specs.Prelude.{◌≡◌, ◌∷◌, replicate};

use crate::quiet;
use crate::quiet::Server;
use crate::tell::Teller;
use calls::status;
use memory::image::Image;
use notes::index::PhoneId;
use notes::number::raw::Number;
use notes::vector::Vector;
use rules::answer::Outcome;
use rules::event::{Request, What};
use std::io::Stdout;

// A server, and who tells of it.
#[derive(Drop)]
pub(crate) struct Stage {
    pub(crate) tell: Teller,
    pub(crate) server: Server,
}

// A vector with two counts, of servers 0 and 1.
pub(crate) fn pair(a: u16, b: u16) -> Vector
    ensures { result.counts ≡ a ∷ b ∷ replicate 6 0 }
{
    Vector {
        counts: [a, b, 0, 0, 0, 0, 0, 0],
    }
}

impl Stage {
    pub(crate) fn new(to: Stdout) -> Stage {
        Stage {
            tell: Teller { to },
            server: Server::none(),
        }
    }

    // The reply, V, how many writes are held, the two counts of the image, and the status.
    fn told(&self, outcome: Outcome) {
        let s = &self.server.state;
        self.tell.reply(outcome, s.n);
        self.tell.vector(b"  V", s.vector, s.n);
        let image = &self.server.image;
        let counts = [
            s.held,
            u16::at(image, Image::CHECKPOINT),
            u16::at(image, Image::LOG),
        ];
        self.tell
            .say(b"  held, checkpoint, log", &counts.map(u32::from));
        self.tell.status(status::status(self.server.lent()));
    }

    fn happen(&mut self, what: What, asked: Vector, message: &[u8]) {
        let outcome = self.server.step(what, asked, message);
        self.told(outcome);
    }

    pub(crate) fn begin(&mut self, name: &[u8], n: u8, own: u8) {
        self.tell.say(name, &[u32::from(n), u32::from(own)]);
        let outcome = self.server.start(n, own);
        self.told(outcome);
    }

    pub(crate) fn write(&mut self, name: &[u8], value: u32) {
        self.tell.say(name, &[]);
        let outcome = self.server.write(value);
        self.told(outcome);
    }

    // A read of the cell with a vector, which stands behind the name.
    pub(crate) fn read(&mut self, name: &[u8], phone: u8, asked: Vector) {
        self.tell.vector(name, asked, self.server.state.n);
        let q = Request::Read { cell: quiet::CELL };
        self.happen(What::Request(PhoneId(phone), q), asked, b"");
    }

    // Phone 5's request cut after k stores; k stands behind the name.
    pub(crate) fn cut_after(&mut self, name: &[u8], q: Request, asked: Vector, k: u32) {
        self.tell.say(name, &[k]);
        self.happen(What::RequestCut(PhoneId(5), q, k), asked, b"");
    }

    pub(crate) fn cut(&mut self, name: &[u8]) {
        self.tell.say(name, &[]);
        self.happen(What::Cut, Vector::zero(), b"");
    }

    pub(crate) fn recover(&mut self, name: &[u8]) {
        self.tell.say(name, &[]);
        self.happen(What::Recovery, Vector::zero(), b"");
    }

    // The update of a server, whose number stands behind the name.
    pub(crate) fn update(&mut self, name: &[u8], from: u8, message: &[u8]) {
        self.tell.say(name, &[u32::from(from)]);
        self.happen(What::Update, Vector::zero(), message);
    }
}
