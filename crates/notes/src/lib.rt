// Records, vectors, messages and sessions: what the phone app uses alone. Nothing here knows a server's state.
#![tactic(auto)]

pub mod index;
pub mod message;
pub mod number;
pub mod reader;
pub mod record;
pub mod session;
pub mod vector;
