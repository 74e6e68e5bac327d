//! The extent of a literal that may be malformed.
ghost use Rattle.std.specs.Prelude.{◌≡◌, false};
ghost use Rattle.litrs_prefix.specs.Words.{drop, chars, after_digits, after_exponent, after_fraction, after_sign, past_closing, after_char, after_closing, after_raw, after_prefixed, after_number, after_body, after_opened};

use crate::opening::{
    after_hashes, after_name, begins_with, opens_bytes, opens_c_string, opens_raw,
};
use litrs_base::{IntegerBase, split_first_char};
use litrs_lex::hashes::hash_len;
use litrs_lex::raw::body_end;
use litrs_lex::{Run, StringKind, run_end};

/// Returns the part of `text` after the piece at its front: a number cut like a float, or a body
/// through its closing, and the name that follows. The literal that [`parse_prefix`] finds may be
/// shorter, `1` of `1..2`, and the malformed prefix longer, `0x1.` of `0x1.5`.
///
/// [`parse_prefix`]: crate::parse_prefix
pub fn after_opened(text: &str) -> &str
    ensures { chars result.now ≡ after_opened (chars text.now) }
{
    after_name(after_body(text))
}

/// Like [`after_opened`], but the name after the body is in the result too. A bool is such a name.
#[tactic(auto, using(crate::proofs::PieceBodies::past_quote_is))]
fn after_body(text: &str) -> &str
    ensures { chars result.now ≡ after_body (chars text.now) }
{
    match split_first_char(text) {
        Some((c, _)) if c.is_ascii_digit() => after_number(text),
        Some((c, rest)) if c == '"' => after_quote(rest, '"', false),
        Some((c, rest)) if c == '\'' => after_char(rest),
        Some((c, rest)) if c == 'r' && opens_raw(rest) => after_raw(rest),
        Some((c, rest)) if c == 'b' && opens_bytes(rest) => after_prefixed(rest),
        Some((c, rest)) if c == 'c' && opens_c_string(rest) => after_prefixed(rest),
        _ => text,
    }
}

/// Like [`after_body`], for the text after the `b` or `c` that begins a literal.
#[tactic(auto, using(crate::proofs::PieceBodies::past_quote_is))]
fn after_prefixed(text: &str) -> &str
    ensures { chars result.now ≡ after_prefixed (chars text.now) }
{
    match split_first_char(text) {
        Some((c, rest)) if c == '"' => after_quote(rest, '"', false),
        Some((c, rest)) if c == '\'' => after_char(rest),
        Some((_, rest)) => after_raw(rest),
        None => text,
    }
}

/// Returns the part of `text` after the parts of a float: digits, a period and more digits, an
/// exponent. The prefix of an integer and its digits are left for the suffix.
#[tactic(auto, using(crate::proofs::PieceBodies::number_parts))]
fn after_number(text: &str) -> &str
    ensures { chars result.now ≡ after_number (chars text.now) }
{
    after_exponent(after_fraction(after_digits(text)))
}

/// Returns the part of `text` after the decimal digits and underscores at its front.
pub(crate) fn after_digits(text: &str) -> &str
    ensures { chars result.now ≡ after_digits (chars text.now) }
{
    &text[run_end(text.as_bytes(), Run::Digits(IntegerBase::Decimal))..]
}

/// Returns the part of `text` after the period at its front and the digits after that.
pub(crate) fn after_fraction(text: &str) -> &str
    ensures { chars result.now ≡ after_fraction (chars text.now) }
{
    match split_first_char(text) {
        Some((c, rest)) if c == '.' => after_digits(rest),
        _ => text,
    }
}

/// Returns the part of `text` after the `e` or `E` at its front, its sign and its digits.
fn after_exponent(text: &str) -> &str
    ensures { chars result.now ≡ after_exponent (chars text.now) }
{
    match split_first_char(text) {
        Some((c, rest)) if c == 'e' || c == 'E' => after_digits(after_sign(rest)),
        _ => text,
    }
}

/// Returns the part of `text` after the sign at its front.
fn after_sign(text: &str) -> &str
    ensures { chars result.now ≡ after_sign (chars text.now) }
{
    match split_first_char(text) {
        Some((c, rest)) if c == '+' || c == '-' => rest,
        _ => text,
    }
}

/// Returns the part of `text` after the closing quote of a char. Its first character may be a quote
/// or a line feed, if a quote follows.
#[tactic(auto, using(crate::proofs::PieceBodies::past_single_quote_is))]
fn after_char(text: &str) -> &str
    ensures { chars result.now ≡ after_char (chars text.now) }
{
    match split_first_char(text) {
        Some((c, rest)) if c != '\\' && begins_with(rest, '\'') => after_first(rest),
        _ => after_quote(text, '\'', true),
    }
}

/// Returns the part of `text` after the first `quote` that no backslash escapes. If `in_line`, and
/// there is none in the line, returns the part after the line.
fn after_quote(text: &str, quote: char, in_line: bool) -> &str
    ensures { chars result.now ≡ past_closing quote in_line false (chars text.now) }
{
    let mut rest = text;
    let mut escaped = false;
    while let Some((c, after)) = split_first_char(rest) {
        if in_line && c == '\n' {
            return rest;
        }
        if c == quote && !escaped {
            return after;
        }
        escaped = c == '\\' && !escaped;
        rest = after;
    }
    rest
}

/// Returns the part of `text`, which starts with the hashes of a raw string, after its closing.
fn after_raw(text: &str) -> &str
    ensures { chars result.now ≡ after_raw (chars text.now) }
{
    let hashes = hash_len(text.as_bytes());
    after_closing(after_first(after_hashes(text)), hashes)
}

/// Returns the part of `text` after the first `"` with `hashes` hashes.
fn after_closing(text: &str, hashes: usize) -> &str
    ensures { chars result.now ≡ after_closing hashes (chars text.now) }
{
    let mut rest = text;
    loop {
        let end = body_end(rest.as_bytes(), 0, hashes, StringKind::String.switches());
        let stop = &rest[end..];
        match split_first_char(stop) {
            Some((c, _)) if c == '"' => return &rest[end + 1 + hashes..],
            Some((_, after)) => rest = after,
            None => return stop,
        }
    }
}

/// Returns the part of `text` after its first character.
fn after_first(text: &str) -> &str
    ensures { chars result.now ≡ drop 1 (chars text.now) }
{
    match split_first_char(text) {
        Some((_, rest)) => rest,
        None => text,
    }
}
