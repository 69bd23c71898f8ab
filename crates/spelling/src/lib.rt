// Spellings: how an envelope is opened and one item is found and written, and the one walk along the layout of a row.
#![tactic(auto)]

pub mod blank;
pub mod put;
pub mod round;
pub mod terms;
pub mod text;
pub mod walk;
