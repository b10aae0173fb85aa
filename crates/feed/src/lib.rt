// Command files: decoding and encoding; and the text of answers and of the ledger.
#![tactic(auto)]

pub mod files;
#[cfg(test)]
mod tests;
pub mod text;
pub mod whole;
