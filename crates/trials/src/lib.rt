// Trials of both framings on telegrams that are put together.
#![tactic(auto)]

#[cfg(test)]
mod build;
#[cfg(test)]
mod channels;
#[cfg(test)]
mod full;
pub mod judge;
#[cfg(test)]
mod outputs;
#[cfg(test)]
mod pairs;
#[cfg(test)]
mod refused;
#[cfg(test)]
mod respells;
#[cfg(test)]
mod rows;
#[cfg(test)]
mod tests;
