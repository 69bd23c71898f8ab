// CoLa A: telegrams as text, between the bytes 02 and 03.
#![tactic(auto)]

pub mod canon;
pub mod digits;
pub mod envelope;
pub mod items;
pub mod letters;
pub mod read;
