// What a call on a server is lent: its state, its history and its stored image, to look at or to change.
ghost use Rattle.std.specs.Prelude.{◌≡◌};
ghost use Rattle.memory.specs.Lent.{looked_at, server};

use rules::state::State;

// What a call looks at.
#[derive(Clone, Copy)]
pub struct Lent<'a> {
    pub state: &'a State,
    pub history: &'a [u8],
    pub image: &'a [u8],
}

// What a step changes: the two buffers are the program's, and stay where they are.
#[derive(Drop)]
pub struct Server<'h, 'i> {
    pub state: State,
    pub history: &'h mut [u8],
    pub image: &'i mut [u8],
}

impl Server<'_, '_> {
    // The server to look at.
    pub fn lent(&self) -> Lent<'_>
        ensures { looked_at result ≡ server self.now }
    {
        Lent {
            state: &self.state,
            history: self.history,
            image: self.image,
        }
    }
}
