//! The errors of a call that builds a literal.
ghost use Rattle.std.specs.Prelude.{◌≡◌, Some};
ghost use Rattle.litrs_base.specs.Refusal.{kind_of};

use litrs::{ParseError, ParseErrorKind};
use std::alloc::AllocError;
use std::error::Error;
use std::fmt;

/// The reason why a literal was not built.
#[derive(Clone, Copy, Debug, PartialEq, Eq)]
pub enum BuildError {
    /// The suffix is neither empty nor an identifier other than `_`, for example `u 8`; or no
    /// integer of the base has it, for example `f32` in base sixteen.
    NotASuffix,
    /// The value of a C string contains a NUL.
    HasNul {
        /// The index of the first NUL, in bytes.
        at: usize,
    },
    /// The value is not that of a raw string.
    NotRaw,
    /// The parts are not those of a float.
    NotAFloat,
    /// An allocation failed.
    Memory,
}

impl fmt::Display for BuildError {
    ghost use Rattle.litrs_build.specs.ErrorText.{build_error_text};

    ghost output = { λ error. Some (build_error_text error) };

    fn fmt<W: fmt::Write>(&self, f: &mut fmt::Formatter<W>) -> fmt::Result {
        match self {
            BuildError::NotASuffix => f.write_str("not a suffix"),
            BuildError::HasNul { at } => write!(f, "NUL at byte {at} of a C string"),
            BuildError::NotRaw => f.write_str("not the value of a raw string"),
            BuildError::NotAFloat => f.write_str("not the parts of a float"),
            BuildError::Memory => f.write_str("out of memory"),
        }
    }
}

impl Error for BuildError {}

impl From<AllocError> for BuildError {
    ghost use Rattle.litrs_build.specs.declared.error.BuildError.TheVariants.{Memory};

    ghost from_gives = { λ _ error. error ≡ Memory };

    fn from(_: AllocError) -> Self {
        BuildError::Memory
    }
}

/// Returns the error of a failed parse of a text that is a literal: an allocation failed.
pub(crate) fn memory_error(error: &ParseError) -> BuildError
    requires { kind_of error.now ≡ ParseErrorKind.OutOfMemory }
    ensures { result ≡ BuildError.Memory }
{
    match error.kind() {
        ParseErrorKind::OutOfMemory => BuildError::Memory,
        _ => unreachable!(),
    }
}
