//! Suffixes and digits.
ghost use Rattle.std.specs.Prelude.{◌≡◌, ◌≤◌, length, [], ◌==◌, is_ok, IsTrue, IfErr, MatchResult, slice_get, SomeIff, chars};
ghost use Rattle.std.specs.Char.{digit_value, is_ascii_hexdigit};
ghost use Rattle.std.specs.List.{list_all, list_any, prefix_len};
ghost use Rattle.unicode_ident.specs.Ident.{is_xid_continue};
ghost use Rattle.litrs_base.specs.Base.{is_digit_or_underscore};
ghost use Rattle.litrs_base.specs.Refusal.{refusal_of, without_span};
ghost use Rattle.litrs_base.specs.Text.{first_passes};
ghost use Rattle.litrs_grammar.specs.Suffix.{is_suffix, is_ascii_symbol, suffix_kind};

use crate::{Run, run_end};
use litrs_base::{IntegerBase, ParseError, ParseErrorKind, split_first_char};

/// Returns the number of decimal digits and underscores at the front of `input`: 4 for `1_0_a2`.
// This is not inlined, so there is one copy of the search.
#[inline(never)]
pub fn end_dec_digits(input: &[u8]) -> usize
    ensures run { result ≡ prefix_len (is_digit_or_underscore IntegerBase.Decimal) input.now }
    ensures within { result ≤ length input.now }
{
    run_end(input, Run::Digits(IntegerBase::Decimal))
}

/// The value of each byte as a hex digit, or `-`, which is above 15, if it is not one.
static HEX_VALUES: [u8; 256] = *b"\
    ------------------------------------------------\x00\x01\x02\x03\x04\x05\x06\x07\x08\x09------\
    -\x0a\x0b\x0c\x0d\x0e\x0f-------------------------\
    -\x0a\x0b\x0c\x0d\x0e\x0f-------------------------\
    ----------------------------------------------------------------\
    ----------------------------------------------------------------";

/// Returns the value of a hex digit of either case, 0 to 15, or `None` if `digit` is not one. For
/// `a` that is `Some(10)`.
pub fn hex_digit_value(digit: u8) -> Option<u8>
    ensures { SomeIff result (IsTrue (is_ascii_hexdigit digit)) (digit_value digit) }
{
    let value = HEX_VALUES[digit as usize];
    if value < 16 { Some(value) } else { None }
}

/// Returns the first byte of `s`: 0xC3 for `é`.
///
/// # Errors
///
/// Returns `Empty` if `s` is empty.
pub fn first_byte_or_empty(s: &str) -> Result<u8, ParseError>
    ensures { MatchResult result (λ b. slice_get s.now 0 ≡ Some b)
        (λ e. (s.now ≡ []) × (refusal_of e ≡ without_span ParseErrorKind.Empty)) }
{
    match s.as_bytes().first() {
        Some(first) => Ok(*first),
        None => Err(ParseError::new(None, ParseErrorKind::Empty)),
    }
}

#[inline(always)]
pub(crate) fn begins_with_byte(bytes: &[u8], byte: u8) -> bool
    ensures { result ≡ first_passes (λ c. c == byte) bytes.now }
{
    matches!(bytes.first(), Some(first) if *first == byte)
}

/// Returns `true` if `bytes` contains `byte`.
///
/// It is not inlined, so its callers, which make errors, stay small.
#[inline(never)]
pub(crate) fn has_byte(bytes: &[u8], byte: u8) -> bool
    ensures { result ≡ list_any (λ c. c == byte) bytes.now }
{
    bytes.contains(&byte)
}

/// Returns `true` if each character of `rest` may continue an identifier. Reads bytes while they
/// are ASCII.
fn continues_identifier(rest: &str) -> bool
    ensures { result ≡ list_all is_xid_continue (chars rest.now) }
{
    let bytes = rest.as_bytes();
    let end = run_end(bytes, Run::Identifier);
    match bytes.get(end) {
        None => true,
        Some(next) => !next.is_ascii() && continues_in_unicode(&rest[end..]),
    }
}

/// Returns `true` if each character of `rest` may continue an identifier, by the tables of Unicode.
fn continues_in_unicode(rest: &str) -> bool
    ensures { result ≡ list_all is_xid_continue (chars rest.now) }
{
    rest.chars().all(|c| unicode_ident::is_xid_continue(c))
}

fn is_suffix(s: &str) -> bool
    ensures { result ≡ is_suffix (chars s.now) }
{
    let Some((first, rest)) = split_first_char(s) else {
        return true;
    };
    let is_start = first == '_' || unicode_ident::is_xid_start(first);
    let is_lone = first == '_' && rest.is_empty();
    is_start && continues_identifier(rest) && !is_lone
}

/// Returns `true` if `byte` is ASCII, and neither a letter nor `_`.
fn is_ascii_symbol(byte: u8) -> bool
    ensures { result ≡ is_ascii_symbol byte }
{
    byte.is_ascii() && !(byte.is_ascii_alphabetic() || byte == b'_')
}

/// Checks that `s` is a suffix: it is empty, or an identifier other than `_` alone. For example,
/// the empty text, `u8` and `_x` are suffixes, but `_` and `1x` are not. See [the reference][ref].
///
/// # Errors
///
/// Returns `UnexpectedChar` if `s` starts with an ASCII character that is neither a letter nor `_`,
/// for example `1x`. Otherwise, returns `InvalidSuffix`, for example for `_`.
///
/// [ref]: https://doc.rust-lang.org/reference/tokens.html#suffixes
#[inline(always)]
pub fn check_suffix(s: &str) -> Result<(), ParseErrorKind>
    ensures ok { is_ok result ≡ is_suffix (chars s.now) }
    ensures err { IfErr result (λ kind. kind ≡ suffix_kind (chars s.now)) }
{
    match s {
        "" => Ok(()),
        _ => check_some_suffix(s),
    }
}

/// Like [`check_suffix`], for a text that is not empty.
///
/// It is not inlined, because most suffixes are empty, and callers need only that test.
#[inline(never)]
fn check_some_suffix(s: &str) -> Result<(), ParseErrorKind>
    ensures ok { is_ok result ≡ is_suffix (chars s.now) }
    ensures err { IfErr result (λ kind. kind ≡ suffix_kind (chars s.now)) }
{
    if is_suffix(s) {
        return Ok(());
    }
    match s.as_bytes().first() {
        Some(first) if is_ascii_symbol(*first) => Err(ParseErrorKind::UnexpectedChar),
        _ => Err(ParseErrorKind::InvalidSuffix),
    }
}
