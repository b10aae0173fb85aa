// Tables of rows of a fixed width in a borrowed slice of numbers.
#![tactic(auto)]

pub mod access;
pub mod cells;
pub mod iter;
pub mod limits;
pub mod lines;
pub mod out;
pub mod readings;
pub mod row;
pub mod search;
pub mod table;
pub mod visits;
