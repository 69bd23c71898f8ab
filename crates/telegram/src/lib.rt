// Telegrams: kinds and items, refusals, and the catalogue.
#![tactic(auto)]

pub mod item;
pub mod kind;
pub mod refusal;
pub mod row;
