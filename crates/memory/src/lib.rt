// A server's memory: what a call is lent, the stored image, whether all is sound, and what every call tests first.
#![tactic(auto)]

pub mod head;
pub mod image;
pub mod lent;
pub mod raw;
mod reads;
mod sound;
mod walk;
