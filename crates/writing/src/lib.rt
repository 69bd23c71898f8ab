// Writing telegrams in a spelling: their length, and their one canonical spelling.
#![tactic(auto)]

pub mod parts;
pub mod write;
