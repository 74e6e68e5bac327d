//! The errors of reading a value.
ghost use Rattle.std.specs.Prelude.{◌≡◌, ◌-◌, length};
ghost use Rattle.std.specs.Str.{chars};
ghost use Rattle.litrs_value.specs.Reads.{marked};

use crate::kind::LiteralKind;
use crate::value_type::ValueType;
use litrs::ParseError;
use std::alloc::AllocError;
use std::error::Error;
use std::fmt;
use std::ops::Range;

/// An error: a text has no value of a type, or an allocation failed. Of the variants before
/// `Memory` it is the first that applies. `Memory` may be returned in place of any but `Malformed`.
#[derive(Debug, Drop)]
pub enum ValueError {
    /// The text, without its sign, is not a literal. Spans count from the start of the text.
    Malformed(ParseError),
    /// The type has no values for literals of this kind: `"a"` as a `u16`.
    Kind {
        /// The type.
        expected: ValueType,
        /// The kind of the literal.
        found: LiteralKind,
    },
    /// A minus sign precedes a literal of this kind, which is not a number: `-"a"` as a `String`.
    Sign {
        /// The kind of the literal.
        found: LiteralKind,
    },
    /// The type does not allow the suffix: `1u8` as a `u16`, `b'a'u8` as a `u8`.
    Suffix {
        /// The type.
        expected: ValueType,
        /// The length of the suffix, in bytes. It ends where the text ends.
        len: usize,
    },
    /// The number does not fit the type, or is too large for a finite float: `70_000` as a `u16`,
    /// `1e400` as an `f64`.
    OutOfRange {
        /// The type.
        expected: ValueType,
    },
    /// An allocation failed.
    Memory,
}

impl ValueError {
    /// Returns the part of `text` to mark, in bytes: where it is malformed, its suffix, or all of
    /// it.
    ///
    /// For the text that was read, both ends are character boundaries. For `1_000u8` as a `u16`
    /// that is 5..7.
    pub fn marked_span(&self, text: &str) -> Range<usize>
        ensures { result ≡ marked (chars text.now) self.now }
    {
        match self {
            ValueError::Malformed(error) => error.marked_span(text),
            ValueError::Suffix { len, .. } => last_bytes(text, *len),
            _ => 0..text.len(),
        }
    }
}

/// Returns the span of the last `len` bytes of `text`.
fn last_bytes(text: &str, len: usize) -> Range<usize>
    ensures start { result.start ≡ length text.now - len }
    ensures end { result.end ≡ length text.now }
{
    text.len().saturating_sub(len)..text.len()
}

impl fmt::Display for ValueError {
    ghost use Rattle.std.specs.Prelude.{Some};
    ghost use Rattle.litrs_value.specs.ErrorText.{value_error_text};

    ghost output = { λ error. Some (value_error_text error) };

    fn fmt<W: fmt::Write>(&self, f: &mut fmt::Formatter<W>) -> fmt::Result {
        match self {
            ValueError::Malformed(error) => f.write_str(error.kind().description()),
            ValueError::Kind { expected, found } => {
                write!(f, "expected `{expected}`, found {found}")
            }
            ValueError::Sign { found } => write!(f, "unexpected minus sign before {found}"),
            ValueError::Suffix { expected, .. } => write!(f, "invalid suffix for `{expected}`"),
            ValueError::OutOfRange { expected } => write!(f, "out of range for `{expected}`"),
            ValueError::Memory => f.write_str("out of memory"),
        }
    }
}

impl Error for ValueError {}

impl From<AllocError> for ValueError {
    ghost use Rattle.litrs_value.specs.declared.error.ValueError.TheVariants.{Memory};

    ghost from_gives = { λ _ error. error ≡ Memory };

    fn from(_: AllocError) -> Self {
        ValueError::Memory
    }
}
