// The numbers of servers and of phones, as two types: a vector is indexed by the one and a read table by the other.
ghost use Rattle.std.specs.Prelude.{◌≡◌};
ghost use Rattle.notes.specs.Index.{server_ok};

// A server's number: the paper's S_j.
#[derive(Clone, Copy, PartialEq, Eq, PartialOrd, Ord)]
pub struct ServerId(pub u8);

// A phone's number: the paper's C_i.
#[derive(Clone, Copy, PartialEq, Eq)]
pub struct PhoneId(pub u8);

impl ServerId {
    // The most servers that a farm has.
    pub const MOST: u8 = 8;

    // Whether n is 1 to 8, and this server's number is below it.
    #[tactic(auto, unfolding(crate::specs::Index::server_ok))]
    pub fn is_one_of(self, n: u8) -> bool
        ensures { result ≡ server_ok n self }
    {
        1 <= n && n <= Self::MOST && self.0 < n
    }
}

impl PhoneId {
    // How many phones there are.
    pub const COUNT: u8 = 64;
}
