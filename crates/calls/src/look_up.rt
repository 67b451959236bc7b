// Look-up of a write in an image by origin and number.
ghost use Rattle.std.specs.Prelude.{◌≡◌, ◌+◌, ◌≤◌, ◌<◌, map, length, IfOk, IfSome};
ghost use Rattle.notes.specs.Index.{servers};
ghost use Rattle.notes.specs.Record.{record_size, decode};
ghost use Rattle.rules.specs.Calls.{is_numbered, place_of, stands_at, look_up_refusal, reply_unless, found, look_up};
ghost use Rattle.rules.specs.Answer.{verdict_refusal};
ghost use Rattle.calls.specs.Forms.{placed};
ghost use Rattle.calls.specs.Place.{place_reply, found_reply};

use memory::image::Image;
use memory::image::raw::{Headed, Whole};
use notes::index::ServerId;
use notes::record;
use notes::record::Record;
use notes::record::raw::RecordBytes;
use rules::answer::Refusal;

// The record in 28 bytes is the origin's write of this number. One past 16 bits is no write's.
fn is_write(b: &RecordBytes, origin: ServerId, number: u32) -> bool
    requires { origin.0 < servers }
    ensures { result ≡ is_numbered origin number (decode b.now) }
{
    b[Record::ORIGIN] == origin.0 && u32::from(record::raw::number_of(b)) == number
}

// The place among records of the first that is that write.
fn find(records: &[RecordBytes], origin: ServerId, number: u32) -> Option<usize>
    requires { origin.0 < servers }
    ensures { placed result ≡ place_of origin number (map decode records.now) }
{
    records
        .iter()
        .position(|record| is_write(record, origin, number))
}

// The image that a look-up is made in: 9 for the image, 6, then 1 for the origin. N and own number are the image's own.
fn looked_in<'a>(image: &'a [u8], origin: ServerId) -> Result<Headed<'a>, Refusal>
    ensures refusal { verdict_refusal result ≡ look_up_refusal image.now origin }
    ensures same { IfOk result (λ headed. headed.bytes ≡ image.entry) }
{
    if image.len() < Image::LEN {
        return Err(Refusal::TooShort);
    }
    let n = image[Image::N];
    let own = ServerId(image[Image::OWN]);
    let Some(headed) = (Whole { bytes: image }).suited(n, own) else {
        return Err(Refusal::Unsound);
    };
    if n <= origin.0 {
        return Err(Refusal::OutOfRange);
    }
    Ok(headed)
}

// The place in the image of that write's record, in the checkpoint or else in the log, if it is there.
fn place_in(image: &[u8], origin: ServerId, number: u32) -> Result<Option<usize>, Refusal>
    ensures refusal { verdict_refusal result ≡ look_up_refusal image.now origin }
    ensures place { IfOk result (λ place. placed place ≡ stands_at image.now origin number) }
    ensures fits { IfOk result (λ place. IfSome place (λ p. p + record_size ≤ length image.now)) }
{
    let headed = looked_in(image, origin)?;
    if let Some(k) = find(headed.checkpoint(), origin, number) {
        return Ok(Some(Image::CHECKPOINT_AT + Record::LEN * k));
    }
    let Some(k) = find(headed.log(), origin, number) else {
        return Ok(None);
    };
    Ok(Some(Image::LOG_AT + Record::LEN * k))
}

// That place, for a caller that takes numbers only.
pub fn stands_at(image: &[u8], origin: ServerId, number: u32) -> Result<Option<usize>, Refusal>
    ensures { found_reply result ≡ reply_unless (look_up_refusal image.now origin) (place_reply (stands_at image.now origin number)) }
{
    place_in(image, origin, number)
}

// The bytes of that write's record as a part of the image, if it is there.
pub fn look_up<'a>(
    image: &'a [u8],
    origin: ServerId,
    number: u32,
) -> Result<Option<&'a [u8]>, Refusal>
    ensures reply { found result ≡ look_up image.now origin number }
    ensures part { IfOk result (λ part. IfSome part (λ bytes. length bytes.now ≡ record_size)) }
{
    let Some(place) = place_in(image, origin, number)? else {
        return Ok(None);
    };
    Ok(Some(&image[place..place + Record::LEN]))
}
