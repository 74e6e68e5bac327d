//! The texts to which more text may give a literal, or another answer of `parse_prefix`.
ghost use Rattle.std.specs.Prelude.{◌≡◌, ◌↔◌};
ghost use Rattle.litrs_prefix.specs.Words.{IsTrue, IsFalse, chars, AnswerStays, AnswerChanges, is_open_prefix, is_open_front, is_quoted_line_feed, IsIntegerAndPeriod, PrefixGoesOn};

use crate::extent::prefix_len;
use crate::malformed::after_opened;
use crate::opening::{after_hashes, after_name, is_empty, opens};
use litrs::{IntegerLit, goes_on};
use litrs_base::split_first_char;

/// Returns `true` if [`parse_prefix`](crate::parse_prefix) has another answer for some longer text.
///
/// The answer is `None`, or the literal and its length, or the length and error of a malformed
/// literal. If the result is `false`, it is the same for every longer text, so a reader of pieces
/// can act on it; otherwise the reader asks for more text. The call does not allocate.
///
/// It is `true` for the empty text, `12`, `tru`, `1.`, `0x1.`, `"a`, `'a`, `'ab`, `r#`, `0b12` and
/// `"\q`. It is `false` for `12 `, `1..`, `foo`, `'ab,`, `r#a`, `0b12 ` and `"\q";`.
pub fn prefix_may_change(text: &str) -> bool
    ensures stays { IsFalse result → AnswerStays (chars text.now) }
    ensures changes { IsTrue result → AnswerChanges (chars text.now) }
{
    if !opens(text) {
        return goes_on(text) || is_open_front(text);
    }
    if let Some(len) = prefix_len(text) {
        return len == text.len();
    }
    prefix_goes_on(text) || (is_empty(after_opened(text)) || is_quoted_line_feed(text))
}

/// Returns `true` if `text` is `'`, a lifetime, or `r`, `b`, `br`, `c` or `cr` with any hashes
/// after an `r`: a quote after it begins a literal.
pub fn is_open_front(text: &str) -> bool
    ensures { result ≡ is_open_front (chars text.now) }
{
    match split_first_char(text) {
        Some(('\'', rest)) => is_empty(after_name(rest)),
        Some(('r', rest)) => is_empty(after_hashes(rest)),
        Some(('b' | 'c', rest)) => is_open_prefix(rest),
        _ => false,
    }
}

/// Returns `true` if `text`, which follows `b` or `c`, is empty, or `r` and hashes.
fn is_open_prefix(text: &str) -> bool
    ensures { result ≡ is_open_prefix (chars text.now) }
{
    match split_first_char(text) {
        Some((c, rest)) => c == 'r' && is_empty(after_hashes(rest)),
        None => true,
    }
}

/// Returns `true` if `text` is `'` or `b'`, and a line feed.
#[tactic(auto, using(crate::proofs::MayChange::line_feed_test))]
fn is_quoted_line_feed(text: &str) -> bool
    ensures { result ≡ is_quoted_line_feed (chars text.now) }
{
    text == "'\n" || text == "b'\n"
}

/// Returns `true` if `text` or a longer text has a literal at its front, and none with a rest is
/// there yet.
///
/// It is `true` for the empty text, `12`, `tru`, `1.`, `1e+`, `"a`, `'a` and `0x1.`, and `false`
/// for `12 `, `1..`, `true"`, `foo`, `0b12` and `"\q`. If it is `false`, more text gives no
/// literal, or keeps the one that is there. More text may still make a malformed literal of a
/// lifetime, or change a malformed literal: [`prefix_may_change`](crate::prefix_may_change) says if
/// it can. The call does not allocate.
pub fn prefix_goes_on(text: &str) -> bool
    ensures { IsTrue result ↔ PrefixGoesOn (chars text.now) }
{
    goes_on(text) || is_integer_and_period(text)
}

/// Returns `true` if `text` is an integer without suffix and one period, such as `0x1.`: with
/// another period after it, the integer is at the front.
fn is_integer_and_period(text: &str) -> bool
    ensures { IsTrue result ↔ IsIntegerAndPeriod (chars text.now) }
{
    match text.strip_suffix(".") {
        Some(front) => match IntegerLit::parse(front) {
            Ok(lit) => is_empty(lit.suffix()),
            Err(_) => false,
        },
        None => false,
    }
}
