// The boundary: the calls on numbers and byte slices, for C, Rust, Swift and Kotlin's native side. The C interface wants refusals as
// numbers, which the exported functions alone give, and each buffer as a parameter; the function behind each of them takes the
// buffers as they come.
#![tactic(auto)]

pub mod beside;
mod block;
mod call;
pub mod messages;
pub mod serve;
pub mod sessions;
pub mod steps;
pub mod version;
