// The step of a server: requests, cuts, updates and recoveries. It meets the rules for every input.
#![tactic(auto)]

mod cut;
mod here;
mod recover;
mod recovery;
pub mod step;
mod take;
mod update;
