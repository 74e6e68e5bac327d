//! The value at the front of a longer text.
ghost use Rattle.std.specs.Prelude.{◌≡◌, ◌≢◌, ◌⊎◌, ◌≤◌, ◌+◌, ◌++◌, length, take, IsFalse, IfOk, IfErr, IfSome, IfNone};
ghost use Rattle.std.specs.Str.{chars, IsCharBoundary};
ghost use Rattle.litrs.specs.Literal.{Derivation};
ghost use Rattle.litrs.specs.LiteralDerivation.{literal_raw, derivation};
ghost use Rattle.litrs.specs.Refusal.{kind_of};
ghost use Rattle.litrs_prefix.specs.Ends.{IsEndOf};
ghost use Rattle.litrs_prefix.specs.Malformed.{IsMovedBy};
ghost use Rattle.litrs_prefix.specs.Opens.{opens};
ghost use Rattle.litrs_prefix.specs.Prefix.{HasPrefix};
ghost use Rattle.litrs_value.specs.Prefixes.{IsPrefixError, IsMarkedIn};
ghost use Rattle.litrs_value.specs.Reads.{is_negative, sign_len, unsigned, marked};
ghost use Rattle.litrs_value.specs.Refuses.{HasValueOf};
ghost use Rattle.litrs_value.specs.declared.value_type.ValueType.{ValueType};

use crate::error::ValueError;
use crate::from_literal::FromLiteral;
use crate::reading::{cut_sign, sign_len};
use litrs::{Literal, ParseError, ParseErrorKind};
use litrs_prefix::{MalformedPrefix, parse_prefix_at};
use std::alloc::Global;
use std::error::Error;
use std::fmt;
use std::ops::Range;

/// An error: a literal begins at the front of a text, and the text does not start with a value of
/// the type, or an allocation failed.
#[derive(Debug, Drop)]
pub struct PrefixError {
    /// The error of [`read`](crate::read) for the first `len` bytes of the text.
    pub error: ValueError,
    /// The length of the literal with its sign, in bytes, or of the malformed part of the text. A
    /// reader can continue after it.
    pub len: usize,
}

impl PrefixError {
    /// Returns the part of `text` to mark, in bytes. `text` is the text that was read.
    pub fn marked_span(&self, text: &str) -> Range<usize>
        requires { IsCharBoundary text.now self.now.len }
        ensures { result ≡ marked (chars (take self.now.len text.now)) self.now.error }
    {
        self.error.marked_span(&text[..self.len])
    }
}

impl fmt::Display for PrefixError {
    ghost use Rattle.std.specs.Prelude.{Some};
    ghost use Rattle.litrs_value.specs.ErrorText.{value_error_text};

    ghost output = { λ e. Some (value_error_text e.error) };

    fn fmt<W: fmt::Write>(&self, f: &mut fmt::Formatter<W>) -> fmt::Result {
        write!(f, "{}", self.error)
    }
}

/// Reads the literal at the front of a text, or a minus sign and a number, as a value of type `T`.
/// Returns it with the rest of the text, or `None` if no literal begins there.
///
/// For example, `-3, max = 1` is the `i64` -3 and the rest `, max = 1`. The literal is the one that
/// [`parse_prefix`](litrs_prefix::parse_prefix) finds after the sign. It allocates like
/// [`read`](crate::read).
///
/// # Errors
///
/// Returns the error of [`read`](crate::read) for the literal with its sign; or
/// [`Malformed`](ValueError::Malformed) if a literal begins and is not valid. `text` can be cut at
/// both ends of the [`marked_span`](PrefixError::marked_span) of the error.
pub fn read_prefix<T: FromLiteral>(
    alloc: Global,
    text: &str,
) -> Result<Option<(T, &str)>, PrefixError>
    ensures value { IfOk result (λ found. IfSome found (λ cut. (d : Derivation)
        × HasPrefix (chars (unsigned text.now)) d (chars cut.1.now)
        × HasValueOf T.value_type (is_negative text.now) d
        × T.is_value (is_negative text.now) d cut.0)) }
    ensures rest { IfOk result (λ found. IfSome found (λ cut. IsEndOf text.now cut.1.now)) }
    ensures none { IfOk result (λ found. IfNone found
        (IsFalse (opens (chars (unsigned text.now))))) }
    ensures refused { IfErr result (IsPrefixError T.value_type text.now) }
    ensures marks { IfErr result (IsMarkedIn text.now) }
{
    let (negative, _) = cut_sign(text);
    let start = sign_len(negative);
    match parse_prefix_at(alloc, text, start) {
        Ok(Some(prefix)) => {
            match value_before(alloc, text, negative, &prefix.literal, prefix.rest) {
                Ok(found) => Ok(Some(found)),
                Err(error) => Err(error),
            }
        }
        Ok(None) => Ok(None),
        Err(malformed) => Err(malformed_value(text, start, malformed)),
    }
}

/// Returns the value of the literal at the front of a text, and the rest.
fn value_before<'a, T: FromLiteral>(
    alloc: Global,
    text: &str,
    negative: bool,
    literal: &Literal<&str>,
    rest: &'a str,
) -> Result<(T, &'a str), PrefixError>
    requires negative { negative ≡ is_negative text.now }
    requires spells { literal_raw literal.now ++ rest.now ≡ unsigned text.now }
    requires found { HasPrefix (chars (unsigned text.now))
        (derivation literal.now) (chars rest.now) }
    ensures value { IfOk result (λ cut. (d : Derivation)
        × HasPrefix (chars (unsigned text.now)) d (chars cut.1.now)
        × HasValueOf T.value_type (is_negative text.now) d
        × T.is_value (is_negative text.now) d cut.0) }
    ensures rest { IfOk result (λ cut. cut.1.now ≡ rest.now) }
    ensures refused { IfErr result (λ e. IsPrefixError T.value_type text.now e
        × IsMarkedIn text.now e) }
{
    match T::from_literal(alloc, negative, literal) {
        Ok(value) => Ok((value, rest)),
        Err(error) => {
            let len = text.len() - rest.len();
            Err(PrefixError { error, len })
        }
    }
}

/// Returns the error for a text that does not start with a literal after its sign.
fn malformed_value(text: &str, start: usize, malformed: MalformedPrefix) -> PrefixError
    requires start { start ≡ sign_len text.now }
    requires malformed { IsMovedBy start (chars (unsigned text.now)) malformed }
    requires fits { start + malformed.len ≤ length text.now }
    ensures { (type : ValueType) → IsPrefixError type text.now result × IsMarkedIn text.now result }
{
    let MalformedPrefix { error, len } = malformed;
    PrefixError {
        error: value_error(error),
        len: start + len,
    }
}

/// Returns the error of a parse as the error of a value.
fn value_error(error: ParseError) -> ValueError
    ensures { ((kind_of error ≡ ParseErrorKind.OutOfMemory) × (result ≡ ValueError.Memory))
        ⊎ ((kind_of error ≢ ParseErrorKind.OutOfMemory) × (result ≡ ValueError.Malformed error)) }
{
    match error.kind() {
        ParseErrorKind::OutOfMemory => ValueError::Memory,
        _ => ValueError::Malformed(error),
    }
}

impl Error for PrefixError {}
