// Text as bytes: what the programs print.
#![tactic(auto)]

pub mod line;
pub mod listing;
mod print;
