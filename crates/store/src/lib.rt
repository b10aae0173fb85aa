// The store in a borrowed row of numbers: opened, and changed by commands.
#![tactic(auto)]

pub mod applying;
pub mod capacity;
mod checks;
pub mod header;
pub mod layout;
pub mod opening;
mod steps;
mod view;
