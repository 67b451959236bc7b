// What an image shows, which the caller knows to have all of its bytes: its counts, its header, its records, and whether it suits
// a server.
ghost use Rattle.std.specs.Prelude.{◌≡◌, ◌≤◌, ◌<◌, map, length, is_some, IfSome};
ghost use Rattle.notes.specs.Index.{servers};
ghost use Rattle.notes.specs.Record.{decode};
ghost use Rattle.rules.specs.Writes.{count_of};
ghost use Rattle.rules.specs.Image.{image_size, checkpoint_count, log_count, header_ok, checkpoint, log};
ghost use Rattle.rules.specs.Sound.{suits as suits_of};
ghost use Rattle.memory.specs.Forms.{Sized, Limits, newest as newest_of, log_test};

use crate::image::Image;
use crate::{raw, walk};
use notes::index::ServerId;
use notes::message::Header;
use notes::number::raw::Number;
use notes::record::Record;
use notes::record::raw::{Form, RecordBytes};
use notes::{record, vector};

// An image that is lent to look at, and has all of its bytes.
#[derive(Clone, Copy)]
pub struct Whole<'a> {
    pub bytes: &'a [u8],
    ghost long: { image_size ≤ length bytes.now },
}

// And whose counts fit, so that its records stand in it. `headed` makes one where the whole header is right.
#[derive(Clone, Copy)]
pub struct Headed<'a> {
    pub bytes: &'a [u8],
    ghost sized: { Sized bytes.now },
}

// The header is that of N, own number and the two counts that it says. The length stays a clause: all is read out of the bytes, for
// which a `Whole` would be taken apart again.
fn header_ok(bytes: &[u8], n: u8, own: ServerId) -> bool
    requires { image_size ≤ length bytes.now }
    ensures { result ≡ header_ok n own bytes.now }
{
    let counts = Whole { bytes }.counts();
    own.is_one_of(n)
        && bytes[Image::N] == n
        && bytes[Image::OWN] == own.0
        && counts.checkpoint <= Header::WRITES_MOST
        && usize::from(u16::at(bytes, Image::CHECKPOINT_OFFSET)) == Image::CHECKPOINT_AT
        && counts.log <= Image::LOG_MOST
        && usize::from(u16::at(bytes, Image::LOG_OFFSET)) == Image::LOG_AT
        && usize::from(u16::at(bytes, Image::TOTAL)) == Image::LEN
        && u32::at(bytes, Image::SPARE) == 0
}

impl<'a> Whole<'a> {
    // How many records the checkpoint and the log hold.
    pub fn counts(self) -> Image
        ensures { result ≡ record { checkpoint = checkpoint_count self.entry.bytes.now; log = log_count self.entry.bytes.now } }
    {
        Image {
            checkpoint: usize::from(u16::at(self.bytes, Image::CHECKPOINT)),
            log: usize::from(u16::at(self.bytes, Image::LOG)),
        }
    }

    // The image, where its header is right. N and own number are two parameters, as document 01 has them in states, images and calls.
    pub(crate) fn headed(self, n: u8, own: ServerId) -> Option<Headed<'a>>
        ensures test { is_some result ≡ header_ok n own self.entry.bytes.now }
        ensures same { IfSome result (λ headed. headed.bytes ≡ self.entry.bytes) }
    {
        let bytes = self.bytes;
        if header_ok(bytes, n, own) {
            Some(Headed { bytes })
        } else {
            None
        }
    }

    // The image, where it suits a down state of this N and own number.
    pub fn suited(self, n: u8, own: ServerId) -> Option<Headed<'a>>
        ensures test { is_some result ≡ suits_of n own self.entry.bytes.now }
        ensures same { IfSome result (λ headed. headed.bytes ≡ self.entry.bytes) }
    {
        let image = self.headed(n, own)?;
        let tally = raw::walk(image.checkpoint(), n)?;
        if image.log_ok(n, own, tally.at(own)) {
            Some(image)
        } else {
            None
        }
    }
}

impl<'a> Headed<'a> {
    // The checkpoint's records. This and `log` are two, as document 01 names them: each is one expression, of its own two constants.
    pub fn checkpoint(self) -> &'a [RecordBytes]
        ensures { map decode result.now ≡ checkpoint self.entry.bytes.now }
    {
        record::raw::first_records(
            &self.bytes[Image::CHECKPOINT_AT..],
            usize::from(u16::at(self.bytes, Image::CHECKPOINT)),
        )
    }

    // The log's records.
    pub fn log(self) -> &'a [RecordBytes]
        ensures { map decode result.now ≡ log self.entry.bytes.now }
    {
        record::raw::first_records(
            &self.bytes[Image::LOG_AT..],
            usize::from(u16::at(self.bytes, Image::LOG)),
        )
    }

    // T at own of the log's last record, or zero where the log is empty.
    pub fn newest(self, own: ServerId) -> u16
        requires { own.0 < servers }
        ensures { result ≡ newest_of own (log self.entry.bytes.now) }
    {
        match self.log().last() {
            Some(last) => vector::raw::vector_at(last, Record::STAMP).at(own),
            None => 0,
        }
    }

    // The log goes on from the checkpoint's own writes, of which there are so many, or ends among them.
    fn log_ok(self, n: u8, own: ServerId, kept: u16) -> bool
        requires { Limits n own self.bytes.now × (kept ≡ count_of own (checkpoint self.bytes.now)) }
        ensures { result ≡ log_test n own (checkpoint self.entry.bytes.now) (log self.entry.bytes.now) }
    {
        let checkpoint = self.checkpoint();
        let log = self.log();
        let added = usize::from(self.newest(own).saturating_sub(kept));
        if log.len() < added || Header::WRITES_MOST < checkpoint.len() + added {
            return false;
        }
        let (old, new) = log.split_at(log.len() - added);
        walk::own_run(new, Form::of(n), own, kept) && walk::is_last(old, checkpoint, own)
    }
}
