// A day of commands as text to a command file, and back.
#![tactic(auto)]

mod packing;
mod unpacking;

pub use days::{BadLine, ParseError};
pub use feed::whole::{FileError, FileText};
pub use packing::pack;
pub use unpacking::unpack;
