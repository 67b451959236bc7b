// The calls beside the step: judging, starting anew, status, look-up, the server's own message. Each meets the rules for every input.
#![tactic(auto)]

pub mod judge;
pub mod look_up;
pub mod message;
pub mod start;
pub mod status;
