//! The errors that end a run, or the reading of one input.
use std::alloc::AllocError;
use std::{fmt, io};

/// An error that ends a run, or the reading of one input.
#[derive(Clone, Copy)]
pub(crate) enum Error {
    /// An input could not be opened or read.
    Input(io::Error),
    /// An argument is not UTF-8.
    NotUtf8,
    /// The standard output could not be written.
    Output(io::Error),
    /// An allocation failed.
    Memory,
}

impl From<AllocError> for Error {
    fn from(_: AllocError) -> Self {
        Error::Memory
    }
}

impl fmt::Display for Error {
    fn fmt<W: fmt::Write>(&self, f: &mut fmt::Formatter<W>) -> fmt::Result {
        match self {
            Error::Input(error) => write!(f, "{error}"),
            Error::NotUtf8 => f.write_str("the argument is not UTF-8"),
            Error::Output(error) => write!(f, "standard output: {error}"),
            Error::Memory => f.write_str("out of memory"),
        }
    }
}
