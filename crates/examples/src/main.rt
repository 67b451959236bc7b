// Acts document 01's examples 1 to 10 through the public calls. Each event has a line that begins with the example's number,
// and then: the reply's number and values (a read's are 1 and the value, or 0 for "no note"); V where the reply has it; V of
// the server; how many writes its history, checkpoint and log hold; its status (number, phones in CR, the lowest of them).
// A message is listed before it is taken.
#![tactic(auto)]

mod act;
mod cuts;
mod full;
mod quiet;
mod reads;
mod tell;
mod updates;

use act::Stage;
use rules::answer::Refusal;
use std::process::ExitCode;

// The servers use the same buffers one after the other: starting anew takes them as they are.
fn all(stage: &mut Stage) -> Result<(), Refusal> {
    reads::one(stage);
    updates::two(stage)?;
    updates::three(stage)?;
    reads::four(stage);
    reads::five(stage);
    reads::six(stage);
    cuts::seven(stage, 28);
    cuts::seven(stage, 29);
    cuts::eight(stage, 28);
    cuts::eight(stage, 29);
    cuts::eight(stage, 30);
    updates::nine(stage)?;
    full::ten(stage)?;
    full::ten_held(stage)
}

// A refusal of what is done and not told, which no example expects, ends the program with status 1.
fn main(rt: HostRuntime) -> ExitCode {
    let mut stage = Stage::new(rt.stdout());
    match all(&mut stage) {
        Ok(()) => ExitCode::SUCCESS,
        Err(_) => ExitCode::FAILURE,
    }
}
