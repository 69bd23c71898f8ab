// Sheets: what bytes come to, printed line by line.
#![tactic(auto)]

pub mod item;
pub mod sheet;
