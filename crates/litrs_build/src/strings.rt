//! Strings.
ghost use Rattle.std.specs.Prelude.{◌≡◌, ◌<◌, ◌++◌, ◌∷◌, [], IfOk, IfErr, OnOk, IsTrue, true, length, string_bytes, encode_utf8_all, codes};
ghost use Rattle.std.specs.Str.{chars, IsUtf8};
ghost use Rattle.litrs_base.specs.declared.quotes.StringKind.TheVariants.{String as string_kind};
ghost use Rattle.litrs_grammar.specs.Quoted.{body_text};
ghost use Rattle.litrs_grammar.specs.Literal.{string_value};
ghost use Rattle.litrs_grammar.specs.LiteralText.{string_text};
ghost use Rattle.litrs_grammar.specs.Suffix.{is_suffix};
ghost use Rattle.litrs_build.specs.Errors.{suffix_error, IsErrorOf};
ghost use Rattle.litrs_build.specs.Pieces.{is_escape, piece_text};
ghost use Rattle.litrs_build.specs.Written.{char_items, written_string};

use crate::error::{BuildError, memory_error};
use crate::pieces::{Charset, Piece, plain_len};
use crate::spelling::Spelling;
use litrs::StringLit;
use litrs_lex::check_suffix;
use std::alloc::{AllocError, Global};

/// Builds the string with this value and this suffix, which may be empty, for example `"a\nb"`. See
/// [the reference][ref].
///
/// There is one allocation for the text, and one for the value if the text contains a backslash.
///
/// # Errors
///
/// Returns `NotASuffix` if `suffix` is neither empty nor an identifier other than `_`, otherwise
/// `Memory` if an allocation fails.
///
/// [ref]: https://doc.rust-lang.org/reference/tokens.html#string-literals
pub fn string(alloc: Global, value: &str, suffix: &str) -> Result<StringLit<String>, BuildError>
    ensures written { IfOk result (λ lit. chars lit.raw
        ≡ string_text string_kind (written_string (chars value.now) (chars suffix.now))) }
    ensures parts { IfOk result (λ lit.
        lit.parts ≡ written_string (chars value.now) (chars suffix.now)) }
    ensures value { IfOk result (λ lit. string_value lit.parts ≡ value.now) }
    ensures suffix { IfOk result (λ _. IsTrue (is_suffix (chars suffix.now))) }
    ensures refused { IfErr result (IsErrorOf (suffix_error (chars suffix.now))) }
{
    let text = write_string(alloc, value, suffix)?;
    match StringLit::parse(alloc, text) {
        Ok(lit) => Ok(lit),
        Err(e) => Err(memory_error(&e)),
    }
}

fn write_string(alloc: Global, value: &str, suffix: &str) -> Result<String, BuildError>
    ensures text { IfOk result (λ text. string_bytes text ≡ ((codes "\""
        ++ encode_utf8_all (body_text (char_items true (chars value.now)))) ++ 34 ∷ [])
        ++ suffix.now) }
    ensures suffix { IfOk result (λ _. IsTrue (is_suffix (chars suffix.now))) }
    ensures refused { IfErr result (IsErrorOf (suffix_error (chars suffix.now))) }
{
    if check_suffix(suffix).is_err() {
        return Err(BuildError::NotASuffix);
    }
    let len = chars_len(value)
        .saturating_add(suffix.len())
        .saturating_add(2);
    // bounded by the length of the text, which was counted.
    let mut text = String::with_capacity(alloc, len)?;
    text.push_str("\"")?;
    push_chars(&mut text, value)?;
    text.push('"')?;
    text.push_str(suffix)?;
    Ok(text)
}

/// Returns the length in bytes of `value`, escaped.
fn chars_len(value: &str) -> usize {
    let mut len: usize = 0;
    let mut follows_mark = true;
    let mut rest = value;
    while !rest.is_empty() {
        let (piece, after) = first_piece(rest, follows_mark);
        len = len.saturating_add(piece.len());
        follows_mark = piece.is_escape();
        rest = after;
    }
    len
}

/// Appends `value`, escaped.
fn push_chars(text: &mut String, value: &str) -> Result<(), AllocError>
    ensures { OnOk result (string_bytes text.new ≡ string_bytes text.old
        ++ encode_utf8_all (body_text (char_items true (chars value.now)))) }
{
    let mut follows_mark = true;
    let mut rest = value;
    while !rest.is_empty() {
        let (piece, after) = first_piece(rest, follows_mark);
        piece.push_to(text)?;
        follows_mark = piece.is_escape();
        rest = after;
    }
    Ok(())
}

/// Splits the first piece off `text`, which is not empty.
#[inline(always)]
fn first_piece(text: &str, follows_mark: bool) -> (Piece<'_>, &str)
    requires { 0 < length text.now }
    ensures text { encode_utf8_all (body_text (char_items follows_mark (chars text.now)))
        ≡ piece_text result.0
        ++ encode_utf8_all (body_text (char_items (is_escape result.0) (chars result.1.now))) }
    ensures shorter { length result.1.now < length text.now }
    ensures utf8 { IsUtf8 result.1.now }
{
    let (plain, rest) = text.split_at(plain_len(text.as_bytes(), Charset::Ascii));
    if !plain.is_empty() {
        return (Piece::Plain(plain), rest);
    }
    let mut chars = text.chars();
    match chars.next() {
        Some(c) => (
            Piece::Spelled(Spelling::of_char(c, '"', follows_mark)),
            chars.as_str(),
        ),
        None => unreachable!(),
    }
}
