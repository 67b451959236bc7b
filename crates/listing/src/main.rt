// Reads one message from standard input and prints its listing.
#![tactic(auto)]

use notes::message::Header;
use std::io;
use std::io::Read;
use text::listing;

// One byte more than the longest message, so that a longer input is seen to be longer.
const INPUT: usize = Header::MESSAGE_MOST + 1;

fn main(rt: HostRuntime) -> io::Result<()> {
    let mut input = [0u8; INPUT];
    let mut n = 0;
    let mut from = rt.stdin();
    // An input that cannot be read, as a closed one, ends where it stands.
    while let Ok(read @ 1..) = from.read(&mut input[n..]) {
        n += read;
    }
    let mut out = [0u8; listing::ROOM];
    if let Ok(k) = listing::list(&input[..n], &mut out) {
        rt.write_all(&out[..k])?;
    }
    Ok(())
}
