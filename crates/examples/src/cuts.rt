// Examples 7 and 8: a request cut after some of its stores, and the recovery from what is stored.
use crate::act::{Stage, pair};
use crate::quiet;
use notes::vector::Vector;
use rules::event::Request;

// The first write cut after k stores.
pub(crate) fn seven(stage: &mut Stage, k: u32) {
    stage.begin(b"7 start, N and own number", 2, 0);
    stage.cut_after(
        b"7 phone 5 writes, cut after",
        quiet::note(7),
        Vector::zero(),
        k,
    );
    stage.recover(b"7 recovery");
}

// Example 4's checkpoint cut after k stores.
pub(crate) fn eight(stage: &mut Stage, k: u32) {
    stage.begin(b"8 start, N and own number", 2, 0);
    stage.write(b"8 phone 5 writes", 7);
    stage.read(b"8 phone 5 reads with", 5, Vector::zero());
    let again = Request::Read { cell: quiet::CELL };
    stage.cut_after(b"8 phone 5 reads again, cut after", again, pair(1, 0), k);
    stage.recover(b"8 recovery");
}
