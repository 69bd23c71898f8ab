// A third framing: a body spelt in binary behind its length in two bytes. It stands on the terms of a spelling alone.
#![tactic(auto)]

pub mod envelope;
pub mod prefixed;
