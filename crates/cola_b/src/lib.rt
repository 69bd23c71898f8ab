// CoLa B, the binary framing: a header of four bytes 02, the body's length, the body, and a checksum of it.
#![tactic(auto)]

pub mod envelope;
mod items;
pub mod octets;
pub mod read;
