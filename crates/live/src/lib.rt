// The live visits, as the first rows of a borrowed table of numbers.
#![tactic(auto)]

pub mod expiry;
pub mod gathering;
pub mod merging;
pub mod near;
pub mod open;
pub mod steps;
#[cfg(test)]
mod tests;
