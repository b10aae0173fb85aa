// The lines of the ledger, as the first rows of a borrowed table of numbers.
#![tactic(auto)]

pub mod adding;
pub mod posting;
pub mod taking;
#[cfg(test)]
mod tests;
