// Every spelling as a framing: reading and writing, proved once for all of them.
#![tactic(auto)]

pub mod framed;
pub mod read;
