//! Byte strings.
ghost use Rattle.std.specs.Prelude.{◌≡◌, ◌<◌, ◌++◌, ◌∷◌, [], IfOk, IfErr, OnOk, IsTrue, length, string_bytes, encode_utf8_all, codes};
ghost use Rattle.std.specs.Str.{chars};
ghost use Rattle.litrs_base.specs.declared.quotes.StringKind.TheVariants.{ByteString as byte_string_kind};
ghost use Rattle.litrs_grammar.specs.Quoted.{body_text};
ghost use Rattle.litrs_grammar.specs.Literal.{string_value};
ghost use Rattle.litrs_grammar.specs.LiteralText.{string_text};
ghost use Rattle.litrs_grammar.specs.Suffix.{is_suffix};
ghost use Rattle.litrs_build.specs.Errors.{suffix_error, IsErrorOf};
ghost use Rattle.litrs_build.specs.Pieces.{piece_text};
ghost use Rattle.litrs_build.specs.Written.{byte_items, written_byte_string};

use crate::error::{BuildError, memory_error};
use crate::pieces::{Piece, plain_front};
use crate::spelling::Spelling;
use litrs::ByteStringLit;
use litrs_lex::check_suffix;
use std::alloc::{AllocError, Global};

/// Builds the byte string with this value and this suffix, which may be empty, for example
/// `b"a\xff"`. See [the reference][ref].
///
/// There is one allocation for the text, and one for the value if the text contains a backslash.
///
/// # Errors
///
/// Returns `NotASuffix` if `suffix` is neither empty nor an identifier other than `_`, otherwise
/// `Memory` if an allocation fails.
///
/// [ref]: https://doc.rust-lang.org/reference/tokens.html#byte-string-literals
pub fn byte_string(
    alloc: Global,
    value: &[u8],
    suffix: &str,
) -> Result<ByteStringLit<String>, BuildError>
    ensures written { IfOk result (λ lit. chars lit.raw
        ≡ string_text byte_string_kind (written_byte_string value.now (chars suffix.now))) }
    ensures parts { IfOk result (λ lit.
        lit.parts ≡ written_byte_string value.now (chars suffix.now)) }
    ensures value { IfOk result (λ lit. string_value lit.parts ≡ value.now) }
    ensures suffix { IfOk result (λ _. IsTrue (is_suffix (chars suffix.now))) }
    ensures refused { IfErr result (IsErrorOf (suffix_error (chars suffix.now))) }
{
    let text = write_byte_string(alloc, value, suffix)?;
    match ByteStringLit::parse(alloc, text) {
        Ok(lit) => Ok(lit),
        Err(e) => Err(memory_error(&e)),
    }
}

fn write_byte_string(alloc: Global, value: &[u8], suffix: &str) -> Result<String, BuildError>
    ensures text { IfOk result (λ text. string_bytes text ≡ ((codes "b\""
        ++ encode_utf8_all (body_text (byte_items value.now))) ++ 34 ∷ []) ++ suffix.now) }
    ensures suffix { IfOk result (λ _. IsTrue (is_suffix (chars suffix.now))) }
    ensures refused { IfErr result (IsErrorOf (suffix_error (chars suffix.now))) }
{
    if check_suffix(suffix).is_err() {
        return Err(BuildError::NotASuffix);
    }
    let len = bytes_len(value)
        .saturating_add(suffix.len())
        .saturating_add(3);
    // bounded by the length of the text, which was counted.
    let mut text = String::with_capacity(alloc, len)?;
    text.push_str("b\"")?;
    push_bytes(&mut text, value)?;
    text.push('"')?;
    text.push_str(suffix)?;
    Ok(text)
}

/// Returns the length in bytes of `value`, escaped.
fn bytes_len(value: &[u8]) -> usize {
    let mut len: usize = 0;
    let mut rest = value;
    while !rest.is_empty() {
        let (piece, after) = first_piece(rest);
        len = len.saturating_add(piece.len());
        rest = after;
    }
    len
}

/// Appends `value`, escaped.
fn push_bytes(text: &mut String, value: &[u8]) -> Result<(), AllocError>
    ensures { OnOk result (string_bytes text.new
        ≡ string_bytes text.old ++ encode_utf8_all (body_text (byte_items value.now))) }
{
    let mut rest = value;
    while !rest.is_empty() {
        let (piece, after) = first_piece(rest);
        piece.push_to(text)?;
        rest = after;
    }
    Ok(())
}

/// Splits the first piece off `bytes`, which are not empty.
#[inline(always)]
fn first_piece(bytes: &[u8]) -> (Piece<'_>, &[u8])
    requires { 0 < length bytes.now }
    ensures text { encode_utf8_all (body_text (byte_items bytes.now))
        ≡ piece_text result.0 ++ encode_utf8_all (body_text (byte_items result.1.now)) }
    ensures shorter { length result.1.now < length bytes.now }
{
    let plain = plain_front(bytes);
    if plain.is_empty() {
        (
            Piece::Spelled(Spelling::of_byte(bytes[0], '"')),
            &bytes[1..],
        )
    } else {
        (Piece::Plain(plain), &bytes[plain.len()..])
    }
}
