// The stored image: a header, 256 places for checkpoint records and 64 for log records.
use notes::message::Header;
use notes::record::Record;

pub mod raw;

// What an image's header says: how many records its checkpoint and its log hold.
#[derive(Clone, Copy, PartialEq, Eq)]
pub struct Image {
    pub checkpoint: usize,
    pub log: usize,
}

impl Image {
    // Where each number of the header stands, and where the records begin.
    pub const N: usize = 0;

    pub const OWN: usize = 1;

    pub const CHECKPOINT: usize = 2;

    pub const CHECKPOINT_OFFSET: usize = 4;

    pub const LOG: usize = 6;

    pub const LOG_OFFSET: usize = 8;

    pub const TOTAL: usize = 10;

    pub const SPARE: usize = 12;

    pub const CHECKPOINT_AT: usize = 16;

    // The bytes of a history, the most records in a log, and the bytes of an image.
    pub const HISTORY_LEN: usize = Record::LEN * Header::WRITES_MOST;

    pub const LOG_MOST: usize = 64;

    pub const LOG_AT: usize = Self::CHECKPOINT_AT + Self::HISTORY_LEN;

    pub const LEN: usize = Self::LOG_AT + Record::LEN * Self::LOG_MOST;
}
