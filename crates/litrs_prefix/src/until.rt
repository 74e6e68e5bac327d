//! The literal before a delimiter.
ghost use Rattle.std.specs.Prelude.{◌≡◌, ◌≤◌};
ghost use Rattle.litrs_prefix.specs.Words.{drop, length, IfOk, IfErr, chars, IsUtf8, IsCharBoundary, IsLiteral, literal_raw, derivation, IsEndOf, IsMarkedAt, is_delimiter, from_first, after_literal, from_delimiter, before_delimiter, StartsWithDelimiter, IsRefusedUntil};

use crate::malformed::after_opened;
use crate::opening::opens;
use crate::{MalformedPrefix, Prefix};
use litrs::Literal;
use litrs_base::split_first_char;
use std::alloc::Global;

/// Parses the text of `source` from the character boundary `start` to the next delimiter, which is
/// a character of `delimiters`, as one literal. Returns it with the rest, which starts with the
/// delimiter, or is empty if there is none.
///
/// A delimiter within the literal at the front, such as the comma of `"a,b", 2`, does not count. It
/// is looked for in the text that [`after_opened`](crate::after_opened) returns: after the closing
/// quote and the name that follows, and after the period of `1..2`. The white space before it, as
/// [`str::trim_end`] knows it, belongs neither to the literal nor to the rest.
///
/// [`parse_prefix_at`](crate::parse_prefix_at) takes `1` of `1.e4, 2`, as Rust does. This call
/// rejects `1.e4`, with the error of [`Literal::parse`]. It allocates like
/// [`parse_prefix`](crate::parse_prefix).
///
/// # Errors
///
/// Returns the error of [`Literal::parse`] for the text before the delimiter, with its length: for
/// example `Empty` for `, 2`, and `InvalidLiteral` for `-1, 2`. An unterminated string extends to
/// the end of `source`, without the white space there. The spans count from the start of `source`.
pub fn parse_until<'a>(
    alloc: Global,
    source: &'a str,
    start: usize,
    delimiters: &str,
) -> Result<Prefix<'a>, MalformedPrefix>
    requires { IsCharBoundary source.now start }
    ensures literal { IfOk result (λ prefix.
        IsLiteral (before_delimiter (chars delimiters.now) (chars (drop start source.now)))
        (derivation prefix.literal)) }
    ensures raw { IfOk result (λ prefix. chars (literal_raw prefix.literal)
        ≡ before_delimiter (chars delimiters.now) (chars (drop start source.now))) }
    ensures rest { IfOk result (λ prefix. chars prefix.rest.now
        ≡ from_delimiter (chars delimiters.now) (chars (drop start source.now))) }
    ensures delimiter { IfOk result (λ prefix.
        StartsWithDelimiter (chars delimiters.now) (chars prefix.rest.now)) }
    ensures end { IfOk result (λ prefix. IsEndOf source.now prefix.rest.now) }
    ensures refused { IfErr result (IsRefusedUntil start
        (before_delimiter (chars delimiters.now) (chars (drop start source.now)))) }
    ensures marks { IfErr result (IsMarkedAt start source.now) }
{
    let (front, rest) = split_at_delimiter(&source[start..], delimiters);
    match Literal::parse(alloc, front) {
        Ok(literal) => Ok(Prefix { literal, rest }),
        Err(error) => Err(MalformedPrefix {
            error: error.offset_span(start),
            len: front.len(),
        }),
    }
}

/// Returns the part of `text` before the delimiter, without the white space at its end, and the
/// part from the delimiter on.
fn split_at_delimiter<'a>(text: &'a str, delimiters: &str) -> (&'a str, &'a str)
    ensures front { chars result.0.now ≡ before_delimiter (chars delimiters.now) (chars text.now) }
    ensures utf8 { IsUtf8 result.0.now }
    ensures fits { length result.0.now ≤ length text.now }
    ensures rest { chars result.1.now ≡ from_delimiter (chars delimiters.now) (chars text.now) }
    ensures end { IsEndOf text.now result.1.now }
{
    let rest = from_first(after_literal(text), delimiters);
    let (front, _) = text.split_at(text.len() - rest.len());
    (front.trim_end(), rest)
}

/// Returns the part of `text` in which the delimiter is looked for.
fn after_literal(text: &str) -> &str
    ensures { chars result.now ≡ after_literal (chars text.now) }
{
    if opens(text) {
        return after_opened(text);
    }
    text
}

/// Returns the part of `text` from its first delimiter on.
fn from_first<'a>(text: &'a str, delimiters: &str) -> &'a str
    ensures { chars result.now ≡ from_first (chars delimiters.now) (chars text.now) }
{
    let mut rest = text;
    loop {
        match split_first_char(rest) {
            Some((c, after)) if !is_delimiter(c, delimiters) => rest = after,
            _ => return rest,
        }
    }
}

/// Returns `true` if `c` is one of `delimiters`.
fn is_delimiter(c: char, delimiters: &str) -> bool
    ensures { result ≡ is_delimiter (chars delimiters.now) c }
{
    delimiters.chars().any(|delimiter| delimiter == c)
}
