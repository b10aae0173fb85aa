// What a command changes among the closed visits, written to a borrowed row of numbers.
#![tactic(auto)]

pub mod apart;
pub mod laws;
pub mod out;
pub mod reading;
#[cfg(test)]
mod tests;
pub mod watermark;
