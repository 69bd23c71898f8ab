// Reading and respelling for a viewer in C: numbers and bytes go in, a number and a place come out.
#![tactic(auto)]

pub mod answer;
pub mod calls;
