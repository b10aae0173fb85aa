// What is answered of a whole file: its text, or why there is none.
ghost use Rattle.feed.specs.Text.{file_error_text};
ghost use Rattle.feed.specs.declared.whole.FileError.TheVariants.{NoMemory};
ghost use Rattle.std.specs.Prelude.{◌≡◌, Some};

use std::alloc::AllocError;
use std::error::Error;
use std::fmt;

// The text, and how many bytes at the end of the file could not be read as commands.
#[derive(PartialEq, Eq, Debug, Drop)]
pub struct FileText {
    pub text: String,
    pub unread: usize,
}

// Like `EncodeError`, and `ParseError` of `days`, one case of its own or want of memory; a generic one would want each case and its text all the same.
#[derive(Clone, Copy, PartialEq, Eq, Debug)]
pub enum FileError {
    TooShort,
    NoMemory,
}

impl fmt::Display for FileError {
    ghost output = { λ e. Some (file_error_text e) };

    fn fmt<W: fmt::Write>(&self, f: &mut fmt::Formatter<W>) -> fmt::Result {
        f.write_str(match self {
            Self::TooShort => "the file is shorter than its terms (24 bytes)",
            Self::NoMemory => "memory allocation failed",
        })
    }
}

impl Error for FileError {}

// By hand, since the contracts name the variant and a derived `From` says nothing of it.
impl From<AllocError> for FileError {
    ghost from_gives = { λ _ e. e ≡ NoMemory };

    fn from(_error: AllocError) -> FileError {
        FileError::NoMemory
    }
}
