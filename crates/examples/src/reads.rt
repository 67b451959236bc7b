// Examples 1 and 4 to 6: reads at one server.
use crate::act::{Stage, pair};

pub(crate) fn one(stage: &mut Stage) {
    stage.begin(b"1 start, N and own number", 2, 0);
    stage.write(b"1 phone 5 writes cell 300", 7);
    stage.read(b"1 phone 5 reads with", 5, pair(0, 1));
    stage.read(b"1 phone 5 reads with", 5, pair(1, 0));
}

pub(crate) fn four(stage: &mut Stage) {
    stage.begin(b"4 start, N and own number", 2, 0);
    stage.write(b"4 phone 5 writes", 7);
    stage.read(b"4 phone 5 reads with", 5, pair(0, 0));
    stage.read(b"4 phone 5 reads again with", 5, pair(1, 0));
}

pub(crate) fn five(stage: &mut Stage) {
    stage.begin(b"5 start, N and own number", 2, 0);
    stage.read(b"5 phone 5 reads with", 5, pair(0, 0));
    stage.write(b"5 phone 5 writes", 7);
    stage.read(b"5 phone 5 reads again with", 5, pair(0, 0));
}

pub(crate) fn six(stage: &mut Stage) {
    stage.begin(b"6 start, N and own number", 2, 0);
    stage.read(b"6 phone 5 reads with", 5, pair(0, 0));
    stage.read(b"6 phone 5 reads again with", 5, pair(0, 0));
    stage.write(b"6 phone 5 writes", 7);
    stage.read(b"6 phone 6 reads with", 6, pair(0, 0));
}
