//! The extent of the literal at the front of a text, valid or malformed.
ghost use Rattle.std.specs.Prelude.{◌<◌};
ghost use Rattle.litrs_prefix.specs.Words.{drop, take, IsTrue, IfOk, IfErr, IfSome, IfNone, chars, IsCharBoundary, Derivation, IsOnlyRest, IsLiteralLen, IsMalformedLen, after_opened, IsPiece, opens, HasPrefix, HasNoPrefix};

use crate::follow::{follows, integer_follows};
use crate::malformed::after_opened;
use crate::next_boundary;
use crate::opening::opens;
use crate::plain::{after_plain, ends_name};
use litrs_base::begins_with_digit;
use litrs_lex::{Run, run_end};

/// Returns the length in bytes of the literal at the front of `text`, suffix included, or `None` if
/// no valid literal is there. It does not allocate: the value of the literal is not made.
///
/// The result is `Some(1)` for `1.max(2)`, `Some(4)` for `"a"b + c`, and `None` for `0b12` and
/// `foo`.
pub fn prefix_len(text: &str) -> Option<usize>
    ensures boundary { IfSome result (IsCharBoundary text.now) }
    ensures literal { IfSome result (λ len.
        (d : Derivation) × HasPrefix (chars text.now) d (chars (drop len text.now))) }
    ensures none { IfNone result (HasNoPrefix (chars text.now)) }
{
    if opens(text) { opened_len(text) } else { None }
}

/// Like [`prefix_len`], for a text at whose front a literal begins, valid or malformed.
pub fn opened_len(text: &str) -> Option<usize>
    requires { IsTrue (opens (chars text.now)) }
    ensures boundary { IfSome result (IsCharBoundary text.now) }
    ensures literal { IfSome result (λ len.
        (d : Derivation) × HasPrefix (chars text.now) d (chars (drop len text.now))) }
    ensures none { IfNone result (HasNoPrefix (chars text.now)) }
{
    opened_extent(text).ok()
}

/// Returns the length in bytes of the literal at the front of `text`, or as an error the length of
/// the malformed prefix. A literal begins at the front, valid or malformed. The call does not
/// allocate.
///
/// The result is `Ok(1)` for `1.max(2)`, `Ok(4)` for `"a"b + c`, and `Err(4)` for `0b12 + 1` and
/// `0x1.5`.
///
/// # Errors
///
/// Returns the length that [`parse_prefix`](crate::parse_prefix) returns with its error, if no
/// literal at the front is valid.
pub fn opened_extent(text: &str) -> Result<usize, usize>
    requires { IsTrue (opens (chars text.now)) }
    ensures literal { IfOk result (IsLiteralLen text.now) }
    ensures malformed { IfErr result (IsMalformedLen text.now) }
{
    match after_plain(text) {
        Some(rest) if ends_name(rest) => Ok(text.len() - rest.len()),
        _ if begins_with_digit(text) => word_extent(text),
        _ => judged_extent(text),
    }
}

/// Like [`opened_extent`], for a number. An integer, such as `0xFF` and `1u32`, ends with the ASCII
/// characters of a name at the front.
#[inline(never)]
fn word_extent(text: &str) -> Result<usize, usize>
    requires { IsTrue (opens (chars text.now)) }
    ensures literal { IfOk result (IsLiteralLen text.now) }
    ensures malformed { IfErr result (IsMalformedLen text.now) }
{
    let len = run_end(text.as_bytes(), Run::Identifier);
    let (front, rest) = text.split_at(len);
    match integer_follows(front, rest) {
        Some(true) => Ok(len),
        Some(false) => judged_extent(text),
        None => judged_extent(text),
    }
}

/// Like [`opened_extent`], for a text in which a literal can only end where what opens ends.
#[inline(never)]
fn judged_extent(text: &str) -> Result<usize, usize>
    requires opens { IsTrue (opens (chars text.now)) }
    requires only { IsOnlyRest (chars text.now) (after_opened (chars text.now)) }
    ensures literal { IfOk result (IsLiteralLen text.now) }
    ensures malformed { IfErr result (IsMalformedLen text.now) }
{
    let len = text.len() - after_opened(text).len();
    let (front, rest) = text.split_at(len);
    match follows(front, rest) {
        Some(true) => Ok(len),
        Some(false) => Err(malformed_len(text, len)),
        None => Err(len),
    }
}

/// Returns the length of the shortest piece at the front of `text` that has `start` bytes or more
/// and is not a literal.
fn malformed_len(text: &str, start: usize) -> usize
    requires boundary { IsCharBoundary text.now start }
    requires some { 0 < start }
    requires is_piece { IsPiece (chars text.now) (chars (take start text.now)) }
    requires opens { IsTrue (opens (chars text.now)) }
    requires none { HasNoPrefix (chars text.now) }
    ensures { IsMalformedLen text.now result }
{
    let mut len = start;
    loop {
        let (front, _) = text.split_at(len);
        match follows(front, "") {
            Some(_) => len = next_boundary(text, len),
            None => return len,
        }
    }
}
