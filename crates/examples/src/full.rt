// Example 10: a full log, and a full history.
use crate::act::Stage;
use crate::quiet;
use notes::message::Header;
use notes::vector::Vector;
use rules::answer::Refusal;

pub(crate) fn ten(stage: &mut Stage) -> Result<(), Refusal> {
    stage.begin(b"10 start, N and own number", 2, 0);
    stage.server.writes(7, 63)?;
    stage.write(b"10 the 64th write", 7);
    stage.write(b"10 the 65th write", 7);
    Ok(())
}

// 64 writes of another server of four.
fn taken(stage: &mut Stage, from: u8) -> Result<(), Refusal> {
    let mut out = [0; Header::MESSAGE_MOST];
    let message = quiet::written(4, from, 8, 64, &mut out)?;
    stage.update(b"10 it takes 64 writes of server", from, message);
    Ok(())
}

// 64 own writes and those of three others: 256 held, and a full log.
fn all_held(stage: &mut Stage) -> Result<(), Refusal> {
    stage.begin(b"10 start, N and own number", 4, 0);
    stage.server.writes(7, 63)?;
    stage.write(b"10 the 64th write", 7);
    for from in 1..4 {
        taken(stage, from)?;
    }
    Ok(())
}

// A write is refused, and again after a checkpoint has emptied the log.
pub(crate) fn ten_held(stage: &mut Stage) -> Result<(), Refusal> {
    all_held(stage)?;
    stage.write(b"10 a write, 256 held and the log full", 7);
    stage.read(b"10 phone 5 reads with", 5, Vector::zero());
    let all = Vector {
        counts: [64, 64, 64, 64, 0, 0, 0, 0],
    };
    stage.read(b"10 phone 5 reads again with", 5, all);
    stage.write(b"10 a write, 256 held and the log empty", 7);
    Ok(())
}
