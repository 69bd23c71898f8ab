// The layout of every row of the catalogue, the machine that follows it, and a telegram at hand.
#![tactic(auto)]

pub mod cursor;
pub mod parts;
pub mod progress;
pub mod records;
pub mod source;
pub mod stage;
pub mod telling;
