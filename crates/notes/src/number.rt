// Numbers in bytes, the lowest byte first: read and stored at places that the caller knows to be there.
pub mod raw;
