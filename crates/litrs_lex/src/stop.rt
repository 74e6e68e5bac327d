//! The item or quote after the plain characters of a body.
ghost use Rattle.std.specs.Prelude.{◌≡◌, ◌≤◌, ◌<◌, ◌==◌, length, ◌||◌, Some, IfSome, IfOk, IfErr, IsTrue, IsFalse, chars, IsCharBoundary};
ghost use Rattle.litrs_base.specs.Characters.{double_quote, backslash};
ghost use Rattle.litrs_base.specs.Text.{first_passes};
ghost use Rattle.litrs_base.specs.declared.escape.Unescape.TheVariants.{Byte};
ghost use Rattle.litrs_base.specs.declared.quotes.Switches.{Switches};
ghost use Rattle.litrs_grammar.specs.Quoted.{is_plain, without_last};
ghost use Rattle.litrs_lex.specs.QuotedItems.{IsPlainRun, IsItemAt, stops};
ghost use Rattle.litrs_lex.specs.Reading.{IsRestRefused, StandsAt};
ghost use Rattle.litrs_lex.specs.Mask.{IsMaskOf};

use crate::allowed::Allows;
use crate::escape::{allows_value, simple_value};
use crate::parse::begins_with_byte;
use crate::raw::char_refusal;
use crate::run::blanks_len;
use crate::search::{Mask, next_special_masked};
use crate::{Special, Switches, next_special, unescape_with};
use litrs_base::{ParseError, ParseErrorKind, Unescape};

/// The closing quote, or an item with a backslash.
#[derive(Clone, Copy)]
pub(crate) enum Stop {
    /// The closing quote.
    Quote,
    /// An escape with its value, or a continuation without a value, and its length in bytes.
    Item(Option<Unescape>, usize),
}

/// Parses the item or the closing quote at the front of `rest`, which does not start with a plain
/// character.
///
/// # Errors
///
/// Returns an error if `rest` starts with neither. The spans count from the start of `rest`.
#[inline(always)]
pub(crate) fn stop_at(rest: &str, allowed: Switches) -> Result<Stop, ParseError>
    requires { IsFalse (first_passes (is_plain allowed) (chars rest.now)) }
    ensures ok { IfOk result (StandsAt allowed rest.now) }
    ensures refused { IfErr result (IsRestRefused allowed (chars rest.now)) }
{
    let [first, after @ ..] = rest.as_bytes() else {
        return Err(stop_refusal(rest));
    };
    match *first {
        b'"' => Ok(Stop::Quote),
        b'\\' if begins_with_byte(after, b'\n') => {
            let len = 2 + blanks_len(&after[1..]);
            if len == rest.len() {
                Err(ParseError::new(None, ParseErrorKind::UnterminatedString))
            } else {
                Ok(Stop::Item(None, len))
            }
        }
        b'\\' => match simple_item(rest, allowed) {
            Some(value) => Ok(Stop::Item(Some(Unescape::Byte(value)), 2)),
            None => match unescape_with(without_last(rest), allowed) {
                Ok((value, len)) => Ok(Stop::Item(Some(value), len)),
                Err(e) => Err(e),
            },
        },
        _ => Err(stop_refusal(rest)),
    }
}

/// Returns the value of the escape of one letter at the front of `rest`, which starts with a
/// backslash. Returns `None` if another escape or an error is there, or the text ends with it.
#[inline(always)]
fn simple_item(rest: &str, allowed: Switches) -> Option<u8>
    requires { IsTrue (first_passes (λ c. c == backslash) rest.now) }
    ensures { IfSome result (λ value. IsItemAt allowed rest.now 2 (Some (Byte value))) }
{
    match rest.as_bytes() {
        [_, letter, _, ..] => match simple_value(*letter) {
            Some(value) if allows_value(allowed, u32::from(value)) => Some(value),
            _ => None,
        },
        _ => None,
    }
}

/// Returns the error of `rest`, which starts with neither a plain character, `"` nor a backslash.
/// The span counts from the start of `rest`.
#[inline(always)]
pub(crate) fn stop_refusal(rest: &str) -> ParseError
    requires quote { IsFalse (first_passes (λ c. c == double_quote) rest.now) }
    requires slash { IsFalse (first_passes (λ c. c == backslash) rest.now) }
    ensures { (w : Switches) → IsFalse (first_passes (is_plain w) (chars rest.now)) →
        IsRestRefused w (chars rest.now) result }
{
    match rest.as_bytes().first() {
        Some(first) => ParseError::in_text(rest, Some(0..1), char_refusal(*first)),
        None => ParseError::new(None, ParseErrorKind::UnterminatedString),
    }
}

/// Returns the bytes at which the plain characters of a body end, beside `"` and CR.
#[inline(always)]
fn special(allowed: Switches) -> Special
    ensures { result ≡ stops allowed.unicode allowed.allow_nul }
{
    Special {
        backslash: true,
        nul: !allowed.allow_nul,
        non_ascii: !allowed.unicode,
    }
}

/// Returns the end of the plain characters from `from` on. This search decides most strings, and is
/// compiled for each kind.
#[inline(never)]
pub(crate) fn first_plain_end<A: Allows>(input: &str, from: usize, allowed: A) -> usize
    requires { IsCharBoundary input.now from }
    ensures { IsPlainRun (A.allowed allowed) input.now from result }
{
    next_special(input.as_bytes(), from, special(allowed.switches()))
}

/// Like [`first_plain_end`], but starts with the mask of an earlier search, and returns the new
/// mask. After the end of the mask, a backslash or `"` at `from` does not cost a search.
#[inline(always)]
pub(crate) fn plain_end(input: &str, from: usize, allowed: Switches, mask: Mask) -> (usize, Mask)
    requires at { IsCharBoundary input.now from }
    requires inside { from < length input.now }
    requires after { mask.start ≤ from }
    requires mask { IsMaskOf (stops allowed.unicode allowed.allow_nul) input.now mask }
    ensures run { IsPlainRun allowed input.now from result.0 }
    ensures after { result.1.start ≤ result.0 }
    ensures mask { IsMaskOf (stops allowed.unicode allowed.allow_nul) input.now result.1 }
{
    if mask.end <= from && begins_with_stop(&input.as_bytes()[from..]) {
        (from, mask)
    } else {
        next_special_masked(input.as_bytes(), from, special(allowed), mask)
    }
}

/// Returns `true` if `bytes`, which is not empty, starts with a backslash or `"`.
#[inline(always)]
fn begins_with_stop(bytes: &[u8]) -> bool
    requires { 0 < length bytes.now }
    ensures { result ≡ first_passes (λ c. (c == backslash) || (c == double_quote)) bytes.now }
{
    matches!(bytes[0], b'\\' | b'"')
}

/// Returns `text` without its last character. An ASCII character, for example a closing quote, is
/// cut off without decoding it.
#[inline(always)]
fn without_last(text: &str) -> &str
    ensures { chars result.now ≡ without_last (chars text.now) }
{
    let bytes = text.as_bytes();
    if bytes.len() > 0 && bytes[bytes.len() - 1] < 128 {
        return &text[..bytes.len() - 1];
    }
    let mut chars = text.chars();
    chars.next_back();
    chars.as_str()
}
