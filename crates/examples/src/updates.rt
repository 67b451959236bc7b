// Examples 2, 3 and 9: updates from other servers.
ghost use Rattle.std.specs.Prelude.{◌≤◌, length, IfOk};

use crate::act::{Stage, pair};
use crate::quiet;
use notes::index::{PhoneId, ServerId};
use notes::message;
use notes::message::Header;
use notes::record::Record;
use rules::answer::Refusal;

// Server 1 writes; its message.
fn two_first<'a>(stage: &mut Stage, out: &'a mut [u8]) -> Result<&'a [u8], Refusal>
    ensures { IfOk result (λ message. length message.now ≤ length out.old) }
{
    stage.begin(b"2 start, N and own number", 3, 1);
    stage.write(b"2 server 1: phone 5 writes", 7);
    stage.server.message(out)
}

// Server 0 takes it, writes, is cut and recovers; its message.
fn two_second<'a>(stage: &mut Stage, from_1: &[u8], out: &'a mut [u8]) -> Result<&'a [u8], Refusal>
    ensures { IfOk result (λ message. length message.now ≤ length out.old) }
{
    stage.begin(b"2 start, N and own number", 3, 0);
    stage.update(b"2 server 0 takes the update of server", 1, from_1);
    stage.write(b"2 server 0: phone 5 writes", 8);
    stage.cut(b"2 server 0 is cut");
    stage.recover(b"2 server 0 recovers");
    stage.server.message(out)
}

// Server 2 takes server 0's, and then server 1's.
fn two_third(stage: &mut Stage, from_0: &[u8], from_1: &[u8]) {
    stage.begin(b"2 start, N and own number", 3, 2);
    stage.update(b"2 server 2 takes the update of server", 0, from_0);
    stage.read(b"2 server 2: phone 5 reads with", 5, pair(0, 1));
    stage.update(b"2 server 2 takes the update of server", 1, from_1);
    stage.read(b"2 server 2: phone 5 reads with", 5, pair(0, 1));
}

pub(crate) fn two(stage: &mut Stage) -> Result<(), Refusal> {
    let mut out_1 = [0; Header::MESSAGE_MOST];
    let mut out_0 = [0; Header::MESSAGE_MOST];
    let from_1 = two_first(stage, &mut out_1)?;
    stage.tell.list(from_1);
    let from_0 = two_second(stage, from_1, &mut out_0)?;
    stage.tell.list(from_0);
    two_third(stage, from_0, from_1);
    Ok(())
}

// A server writes, takes the other's update, and is read.
fn three_at(stage: &mut Stage, own: u8, value: u32, other: u8, message: &[u8]) {
    stage.begin(b"3 start, N and own number", 2, own);
    stage.write(b"3 phone 5 writes", value);
    stage.tell.list(message);
    stage.update(b"3 it takes this update of server", other, message);
    stage.read(b"3 phone 5 reads with", 5, pair(1, 1));
}

pub(crate) fn three(stage: &mut Stage) -> Result<(), Refusal> {
    let mut out_0 = [0; Header::MESSAGE_MOST];
    let mut out_1 = [0; Header::MESSAGE_MOST];
    let from_0 = quiet::written(2, 0, 7, 1, &mut out_0)?;
    let from_1 = quiet::written(2, 1, 8, 1, &mut out_1)?;
    three_at(stage, 0, 7, 1, from_1);
    three_at(stage, 1, 8, 0, from_0);
    Ok(())
}

// The message of write number 2 of server 1 alone.
fn nine_message(out: &mut [u8]) -> Result<&[u8], Refusal>
    ensures { IfOk result (λ message. length message.now ≤ length out.old) }
{
    let record = Record {
        origin: ServerId(1),
        phone: PhoneId(5),
        cell: quiet::CELL,
        value: 7,
        time: quiet::TIME,
        stamp: pair(0, 2),
    };
    let len = message::write(2, ServerId(1), &record.to_bytes(), out)?;
    Ok(&out[..len])
}

pub(crate) fn nine(stage: &mut Stage) -> Result<(), Refusal> {
    let mut out = [0; Header::MESSAGE_MOST];
    let message = nine_message(&mut out)?;
    stage.begin(b"9 start, N and own number", 2, 0);
    stage.tell.list(message);
    stage.update(b"9 it takes this update of server", 1, message);
    Ok(())
}
