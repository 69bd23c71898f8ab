// The terms of a framing, and what rests on them alone: telegrams at hand, respelling, a choice of two framings.
#![tactic(auto)]

pub mod accepted;
pub mod choice;
pub mod framing;
pub mod head;
pub mod items;
pub mod respell;
