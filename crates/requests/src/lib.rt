// A phone's request, served or cut after some of its stores. It meets the rules for every input.
#![tactic(auto)]

pub mod admit;
mod read;
pub mod request;
mod stores;
mod winner;
mod write;
