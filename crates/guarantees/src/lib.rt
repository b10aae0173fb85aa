// Theorems on the store in a row of numbers, over any calls one after another. A function here carries a theorem:
// its contract is the statement, and nothing is computed.
#![tactic(auto)]

pub mod answers;
pub mod cards;
pub mod contents;
pub mod corrections;
pub mod refusals;
