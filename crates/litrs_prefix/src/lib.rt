//! Parses the literal at the front of a longer text. For `0xFF_u8 + 1` that is `0xFF_u8` with the
//! rest ` + 1`, for `1..2` the literal `1`. No literal begins at the front of `foo`.
//!
//! | Text | [`parse_prefix`] |
//! |---|---|
//! | `1.5.max(2.)` | the literal `1.5`, the rest `.max(2.)` |
//! | `1.max(2)`, `1..2` | the literal `1` |
//! | `"a"b"c"` | the literal `"a"b`, which has the suffix `b` |
//! | `foo`, `'a, 'b`, `-1`, ` 1`, the empty text | `None`: no literal begins there |
//! | `0b12 + 1` | the first 4 bytes are malformed: `InvalidDigit` at 3..4 |
//! | `0x1.5` | the first 4 bytes are malformed: `UnexpectedChar` at 3..4 |
//!
//! ```
//! use litrs::Literal;
//! use litrs_prefix::{MalformedPrefix, parse_prefix};
//! use std::alloc::Global;
//!
//! /// Returns the number at the front of a text, and the rest after its suffix.
//! fn number(alloc: Global, text: &str) -> Result<Option<(u64, &str)>, MalformedPrefix> {
//!     match &parse_prefix(alloc, text)? {
//!         Some(prefix) => match &prefix.literal {
//!             Literal::Integer(lit) => match lit.value::<u64>() {
//!                 Some(value) => Ok(Some((value, prefix.rest))),
//!                 None => Ok(None),
//!             },
//!             _ => Ok(None),
//!         },
//!         None => Ok(None),
//!     }
//! }
//! // For `1_000u32, 2` that is Ok(Some((1000, ", 2"))), for `x` Ok(None).
//! ```
#![tactic(auto)]

ghost use Rattle.std.specs.Prelude.{◌≡◌, ◌⊎◌, ◌++◌, ◌<◌, ◌≤◌, ◌+◌, ◌^◌};
ghost use Rattle.litrs_prefix.specs.Words.{IfOk, IfErr, IfSome, IfNone, IsTrue, IsFalse, length, drop, chars, IsCharBoundary, literal_raw, derivation, IsMalformedOrOutOfMemory, IsMovedBy, IsMarkedAt, IsLiteralLen, IsMalformedLen, opens, HasPrefix, marked_at};

pub use extent::{opened_extent, opened_len, prefix_len};
pub use follow::may_follow;
use litrs::{Literal, ParseError};
use litrs_base::split_first_char;
pub use malformed::after_opened;
pub use may_change::{is_open_front, prefix_goes_on, prefix_may_change};
pub use opening::{after_name, after_run, begins_name, opens};
use plain::plain_string;
use std::alloc::Global;
use std::error::Error;
use std::fmt;
use std::ops::Range;
pub use until::parse_until;

mod extent;
mod follow;
pub mod laws;
mod malformed;
mod may_change;
mod opening;
mod plain;
mod until;

/// A literal and the rest of the text.
#[derive(Drop)]
pub struct Prefix<'a> {
    /// The literal at the front of the text.
    pub literal: Literal<&'a str>,
    /// The rest of the text.
    pub rest: &'a str,
}

/// An error: a literal begins at the front of a text, and none is valid, or an allocation failed.
/// [`parse_until`] returns it for other texts too.
#[derive(Debug, Drop)]
pub struct MalformedPrefix {
    /// The error of [`Literal::parse`] for the malformed prefix.
    pub error: ParseError,
    /// The length of the malformed prefix, in bytes. A reader can continue after it. It is 0 only
    /// for [`parse_until`], if nothing but white space precedes the delimiter or the end.
    pub len: usize,
}

impl MalformedPrefix {
    /// Returns the part of the source to mark, in bytes: the character span of the error, or the
    /// malformed prefix if the error has none.
    ///
    /// `start` is that of [`parse_prefix_at`] or [`parse_until`], and 0 for [`parse_prefix`]. The
    /// source can be cut at both ends. For `x = "a` from 4 on that is 4..6.
    pub fn marked_span(&self, start: usize) -> Range<usize>
        requires { start + self.now.len < 2 ^ 64 }
        ensures { result ≡ marked_at start self.now }
    {
        self.error.char_span().unwrap_or(start..start + self.len)
    }
}

impl fmt::Display for MalformedPrefix {
    ghost use Rattle.std.specs.Prelude.{Some};
    ghost use Rattle.litrs_base.specs.Refusal.{refusal_of, refusal_text};

    ghost output = { λ malformed. Some (refusal_text (refusal_of malformed.error)) };

    fn fmt<W: fmt::Write>(&self, f: &mut fmt::Formatter<W>) -> fmt::Result {
        self.error.fmt(f)
    }
}

impl Error for MalformedPrefix {}

/// Parses the literal at the front of `text`. Returns it with the rest, or `None` if no literal
/// begins there, for example before a name, a lifetime, white space or punctuation.
///
/// The literal is the only one that can be there. Its suffix is the whole name after its body, and
/// no digit, period, quote or hash after it makes it another token. It allocates like
/// [`Literal::parse`] for the literal. See [the reference][ref].
///
/// # Errors
///
/// Returns the error of [`Literal::parse`] for the malformed prefix, with its length, if a literal
/// begins and none is valid. The spans count from the start of `text`. Returns `OutOfMemory` if the
/// allocation for the value of the literal at the front fails.
///
/// The malformed prefix is a piece of the text. The piece of a number, or of a char or string that
/// is closed, ends after the name that follows: `0b12` in `0b12 + 1`, all of `"\q"b`. A number has
/// the parts of a float, so of `0x1F` the `0` is the number, and `x1F` the name. The piece of a
/// bool is its name. An unterminated string extends to the end of the text, an unterminated char or
/// byte to the end of the line. If the piece is a literal that the rest may not follow, the
/// malformed prefix is the shortest longer one that is not a literal. For example, that is `0x1.`
/// in `0x1.5`, and `true"` in `true"a"`.
///
/// [ref]: https://doc.rust-lang.org/reference/tokens.html#literals
pub fn parse_prefix(alloc: Global, text: &str) -> Result<Option<Prefix<'_>>, MalformedPrefix>
    ensures spells { IfOk result (λ found. IfSome found (λ prefix.
        literal_raw prefix.literal ++ prefix.rest.now ≡ text.now)) }
    ensures found { IfOk result (λ found. IfSome found (λ prefix.
        HasPrefix (chars text.now) (derivation prefix.literal) (chars prefix.rest.now))) }
    ensures none { IfOk result (λ found. IfNone found (IsFalse (opens (chars text.now)))) }
    ensures malformed { IfErr result (IsMalformedOrOutOfMemory (chars text.now)) }
    ensures marks { IfErr result (IsMarkedAt 0 text.now) }
{
    if !opens(text) {
        return Ok(None);
    }
    if let Some(found) = plain_string(text) {
        return Ok(Some(found));
    }
    let len = front_len(text);
    let (front, rest) = text.split_at(len);
    match Literal::parse(alloc, front) {
        Ok(literal) => Ok(Some(Prefix { literal, rest })),
        Err(error) => Err(MalformedPrefix { error, len }),
    }
}

/// Returns the length of the literal at the front of `text`, valid or malformed.
fn front_len(text: &str) -> usize
    requires { IsTrue (opens (chars text.now)) }
    ensures { IsLiteralLen text.now result ⊎ IsMalformedLen text.now result }
{
    opened_extent(text).unwrap_or_else(|len| len)
}

/// Returns the end of the character that begins at the character boundary `start`, or the end of
/// `text`.
pub fn next_boundary(text: &str, start: usize) -> usize
    requires { IsCharBoundary text.now start }
    ensures boundary { IsCharBoundary text.now result }
    ensures longer { start < length text.now → start < result }
    ensures end { length text.now ≤ start → result ≡ start }
    ensures rest { chars (drop result text.now) ≡ drop 1 (chars (drop start text.now)) }
{
    match split_first_char(&text[start..]) {
        Some((_, after)) => text.len() - after.len(),
        None => start,
    }
}

/// Like [`parse_prefix`], for the rest of `source` from the character boundary `start` on. The
/// spans of an error count from the start of `source`, and its `len` from `start`.
///
/// # Errors
///
/// Returns the errors of [`parse_prefix`].
pub fn parse_prefix_at(
    alloc: Global,
    source: &str,
    start: usize,
) -> Result<Option<Prefix<'_>>, MalformedPrefix>
    requires { IsCharBoundary source.now start }
    ensures spells { IfOk result (λ found. IfSome found (λ prefix.
        literal_raw prefix.literal ++ prefix.rest.now ≡ drop start source.now)) }
    ensures found { IfOk result (λ found. IfSome found (λ prefix.
        HasPrefix (chars (drop start source.now))
        (derivation prefix.literal) (chars prefix.rest.now))) }
    ensures none { IfOk result (λ found. IfNone found
        (IsFalse (opens (chars (drop start source.now))))) }
    ensures malformed { IfErr result (IsMovedBy start (chars (drop start source.now))) }
    ensures marks { IfErr result (IsMarkedAt start source.now) }
{
    match parse_prefix(alloc, &source[start..]) {
        Ok(found) => Ok(found),
        Err(malformed) => Err(MalformedPrefix {
            error: malformed.error.offset_span(start),
            len: malformed.len,
        }),
    }
}
