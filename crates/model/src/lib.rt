// The definitions stand in specs/. A function here carries a theorem about them: its contract is the statement,
// and nothing is computed.
#![tactic(auto)]

pub mod few;
pub mod unseen;
pub mod visits;
