//! The value of a text.
ghost use Rattle.std.specs.Prelude.{◌≡◌, ◌≢◌, ◌<◌, ◌≤◌, ◌^◌, ◌+◌, ◌++◌, ◌∷◌, ℕ, List, length, IsFalse, if◌then◌else◌, IfOk, IfErr};
ghost use Rattle.std.specs.Str.{chars, IsUtf8};
ghost use Rattle.litrs.specs.CharEnd.{IsCutBy};
ghost use Rattle.litrs.specs.Literal.{Derivation, literal_parse};
ghost use Rattle.litrs.specs.Refused.{IsRefusedOrOutOfMemory};
ghost use Rattle.litrs_value.specs.Reads.{is_negative, unsigned, sign_text, IsReadAs, IsRefusedAfter, IsValueError, marked};
ghost use Rattle.litrs_value.specs.Refuses.{HasValueOf};

use crate::error::ValueError;
use crate::from_literal::FromLiteral;
use litrs::{Literal, ParseError, ParseErrorKind};
use std::alloc::Global;

/// Reads a text that is one literal, or a minus sign and a number, as a value of type `T`.
///
/// For example, `-0x10` is the `i64` -16, `1_0.5e-1f32` the `f32` 1.05, `3` the `f64` 3, and `b'a'`
/// the `u8` 97. Every value of a signed type can be read, the least one too. Only a number may
/// have a suffix: the name of the type, for an integer at a float type only in base ten. A float
/// must be finite.
///
/// It allocates for a `CString`, for a `String` or `Vec<u8>` that is not empty, and if the parse
/// does. At a float type it does for a number with underscores, but for an integer only in base ten
/// from 2^64 on. See [the reference][ref].
///
/// [ref]: https://doc.rust-lang.org/reference/expressions/literal-expr.html
///
/// # Errors
///
/// Returns [`Malformed`](ValueError::Malformed) if the text without its sign is not a literal, else
/// the errors of [`from_literal`](FromLiteral::from_literal). `text` can be cut at both ends of the
/// [`marked_span`](ValueError::marked_span) of the error.
pub fn read<T: FromLiteral>(alloc: Global, text: &str) -> Result<T, ValueError>
    ensures value { IfOk result (λ value. (d : Derivation) × IsReadAs text.now d
        × HasValueOf T.value_type (is_negative text.now) d
        × T.is_value (is_negative text.now) d value) }
    ensures refused { IfErr result (IsValueError T.value_type text.now) }
    ensures marks { IfErr result (λ error.
        IsCutBy text.now (marked (chars text.now) error)) }
{
    let (negative, rest) = cut_sign(text);
    match Literal::parse(alloc, rest) {
        Ok(literal) => T::from_literal(alloc, negative, &literal),
        Err(error) => Err(refused(negative, rest, error)),
    }
}

/// Splits `text` after its minus sign. Returns `true` if it starts with one, and the rest.
pub fn cut_sign(text: &str) -> (bool, &str)
    ensures negative { result.0 ≡ is_negative text.now }
    ensures rest { result.1.now ≡ unsigned text.now }
    ensures cut { sign_text result.0 ++ result.1.now ≡ text.now }
    ensures no_sign { IsFalse result.0 → (more : List ℕ) → result.1.now ≢ 45 ∷ more }
    ensures utf8 { IsUtf8 result.1.now }
{
    match text.strip_prefix("-") {
        Some(rest) => (true, rest),
        None => (false, text),
    }
}

/// Returns the error for a text that is not a literal after its sign.
pub(crate) fn refused(negative: bool, rest: &str, error: ParseError) -> ValueError
    requires refused { IsRefusedOrOutOfMemory literal_parse (chars rest.now) error }
    requires small { 1 + length rest.now < 2 ^ 64 }
    ensures { IsRefusedAfter negative (chars rest.now) result }
{
    match error.kind() {
        ParseErrorKind::OutOfMemory => ValueError::Memory,
        _ => ValueError::Malformed(error.offset_span(sign_len(negative))),
    }
}

/// Returns the length of the sign, in bytes.
pub(crate) fn sign_len(negative: bool) -> usize
    ensures len { result ≡ (if negative then 1 else 0) }
    ensures at_most_one { result ≤ 1 }
{
    if negative { 1 } else { 0 }
}
