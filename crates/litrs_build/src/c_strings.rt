//! C strings.
ghost use Rattle.std.specs.Prelude.{◌≡◌, ◌≤◌, ◌<◌, ◌++◌, ◌∷◌, [], true, None, IfOk, IfErr, OnOk, string_bytes, encode_utf8_all, codes, length, take, position, slice_index, ◌+◌};
ghost use Rattle.std.specs.Str.{chars, continuation_len};
ghost use Rattle.litrs_base.specs.declared.quotes.StringKind.TheVariants.{CString as c_string_kind};
ghost use Rattle.litrs_grammar.specs.Quoted.{body_text};
ghost use Rattle.litrs_grammar.specs.Raw.{is_nul};
ghost use Rattle.litrs_grammar.specs.Literal.{string_value};
ghost use Rattle.litrs_grammar.specs.LiteralText.{string_text};
ghost use Rattle.litrs_build.specs.CStrings.{first_char, spelling_or_byte, len_or_byte, c_items, written_c_string, c_string_error};
ghost use Rattle.litrs_build.specs.Errors.{IsErrorOf};
ghost use Rattle.litrs_build.specs.Pieces.{is_escape, piece_text};

use crate::error::{BuildError, memory_error};
use crate::pieces::{Piece, plain_front};
use crate::spelling::Spelling;
use litrs::CStringLit;
use litrs_lex::check_suffix;
use memchr::memchr;
use std::alloc::{AllocError, Global};
use std::str;

/// Builds the C string with this value, given without its closing NUL, and with this suffix, which
/// may be empty, for example `c"é\xff"`. Bytes that are UTF-8 are written as text. See
/// [the reference][ref].
///
/// There is one allocation for the text, and one for the value.
///
/// # Errors
///
/// Returns `NotASuffix` if `suffix` is neither empty nor an identifier other than `_`, otherwise
/// `HasNul` if `value` contains a NUL, otherwise `Memory` if an allocation fails.
///
/// [ref]: https://doc.rust-lang.org/reference/tokens.html#c-string-literals
pub fn c_string(alloc: Global, value: &[u8], suffix: &str) -> Result<CStringLit<String>, BuildError>
    ensures written { IfOk result (λ lit. chars lit.raw
        ≡ string_text c_string_kind (written_c_string value.now (chars suffix.now))) }
    ensures parts { IfOk result (λ lit. lit.parts ≡ written_c_string value.now (chars suffix.now)) }
    ensures value { IfOk result (λ lit. string_value lit.parts ≡ value.now) }
    ensures possible { IfOk result (λ _. c_string_error value.now (chars suffix.now) ≡ None) }
    ensures refused { IfErr result (IsErrorOf (c_string_error value.now (chars suffix.now))) }
{
    let text = write_c_string(alloc, value, suffix)?;
    match CStringLit::parse(alloc, text) {
        Ok(lit) => Ok(lit),
        Err(e) => Err(memory_error(&e)),
    }
}

fn write_c_string(alloc: Global, value: &[u8], suffix: &str) -> Result<String, BuildError>
    ensures text { IfOk result (λ text. string_bytes text ≡ ((codes "c\""
        ++ encode_utf8_all (body_text (c_items 0 true value.now))) ++ 34 ∷ []) ++ suffix.now) }
    ensures possible { IfOk result (λ _. c_string_error value.now (chars suffix.now) ≡ None) }
    ensures refused { IfErr result (IsErrorOf (c_string_error value.now (chars suffix.now))) }
{
    if let Some(e) = c_string_error(value, suffix) {
        return Err(e);
    }
    let len = c_bytes_len(value)
        .saturating_add(suffix.len())
        .saturating_add(3);
    // bounded by the length of the text, which was counted.
    let mut text = String::with_capacity(alloc, len)?;
    text.push_str("c\"")?;
    push_c_bytes(&mut text, value)?;
    text.push('"')?;
    text.push_str(suffix)?;
    Ok(text)
}

/// Returns the reason why no C string has this value and this suffix, if there is one.
pub(crate) fn c_string_error(value: &[u8], suffix: &str) -> Option<BuildError>
    ensures { result ≡ c_string_error value.now (chars suffix.now) }
{
    if check_suffix(suffix).is_err() {
        return Some(BuildError::NotASuffix);
    }
    let at = nul_place(value)?;
    Some(BuildError::HasNul { at })
}

/// Returns the index of the first NUL.
#[tactic(auto, using(crate::proofs::NulPlaces::first_byte_is_position))]
fn nul_place(bytes: &[u8]) -> Option<usize>
    ensures { result ≡ position is_nul bytes.now }
{
    memchr(0, bytes)
}

/// Returns the length in bytes of `value`, escaped.
fn c_bytes_len(value: &[u8]) -> usize {
    let mut len: usize = 0;
    let mut follows_mark = true;
    let mut rest = value;
    while !rest.is_empty() {
        let (piece, after) = first_piece(rest, follows_mark);
        len = len.saturating_add(piece.len());
        follows_mark = piece.is_escape();
        rest = after;
    }
    len
}

/// Appends `value`, escaped.
fn push_c_bytes(text: &mut String, value: &[u8]) -> Result<(), AllocError>
    ensures { OnOk result (string_bytes text.new
        ≡ string_bytes text.old ++ encode_utf8_all (body_text (c_items 0 true value.now))) }
{
    let mut follows_mark = true;
    let mut rest = value;
    while !rest.is_empty() {
        let (piece, after) = first_piece(rest, follows_mark);
        piece.push_to(text)?;
        follows_mark = piece.is_escape();
        rest = after;
    }
    Ok(())
}

/// Splits the first piece off `bytes`, which are not empty.
#[inline(always)]
fn first_piece(bytes: &[u8], follows_mark: bool) -> (Piece<'_>, &[u8])
    requires { 0 < length bytes.now }
    ensures text { encode_utf8_all (body_text (c_items 0 follows_mark bytes.now))
        ≡ piece_text result.0
        ++ encode_utf8_all (body_text (c_items 0 (is_escape result.0) result.1.now)) }
    ensures shorter { length result.1.now < length bytes.now }
{
    let plain = plain_front(bytes);
    if !plain.is_empty() {
        return (Piece::Plain(plain), &bytes[plain.len()..]);
    }
    let (spelling, count) = first_spelling(bytes, follows_mark);
    (Piece::Spelled(spelling), &bytes[count..])
}

/// Returns the spelling of the character that the bytes begin with, or of their first byte, and its
/// length in bytes.
fn first_spelling(bytes: &[u8], follows_mark: bool) -> (Spelling, usize)
    requires { 0 < length bytes.now }
    ensures spelling { result.0
        ≡ spelling_or_byte follows_mark (slice_index bytes.now 0) (first_char bytes.now) }
    ensures count { result.1 ≡ len_or_byte (first_char bytes.now) }
    ensures some { 0 < result.1 }
    ensures within { result.1 ≤ length bytes.now }
{
    match first_char(bytes) {
        Some(c) => (Spelling::of_char(c, '"', follows_mark), c.len_utf8()),
        None => (Spelling::Hex(bytes[0]), 1),
    }
}

/// Returns the character whose UTF-8 the bytes begin with.
fn first_char(bytes: &[u8]) -> Option<char>
    requires { 0 < length bytes.now }
    ensures { result ≡ first_char bytes.now }
{
    match str::from_utf8(first_bytes(bytes, char_len(bytes[0]))) {
        Ok(text) => text.chars().next(),
        Err(_) => None,
    }
}

/// Returns the length in bytes of a character whose UTF-8 begins with this byte.
fn char_len(first: u8) -> usize
    ensures { result ≡ 1 + continuation_len first }
{
    if first < 0x80 {
        1
    } else if first < 0xe0 {
        2
    } else if first < 0xf0 {
        3
    } else {
        4
    }
}

/// Returns the first `count` bytes, or all if there are fewer.
fn first_bytes(bytes: &[u8], count: usize) -> &[u8]
    ensures { result.now ≡ take count bytes.now }
{
    if count < bytes.len() {
        &bytes[..count]
    } else {
        bytes
    }
}
