//! Chars and bytes.
ghost use Rattle.std.specs.Prelude.{◌≡◌, ◌∷◌, ◌++◌, [], IfOk, IfErr, IsTrue, string_bytes, encode_utf8_all};
ghost use Rattle.std.specs.Str.{chars};
ghost use Rattle.litrs_base.specs.declared.quotes.CharKind.TheVariants.{Char as char_kind, Byte as byte_kind};
ghost use Rattle.litrs_grammar.specs.CharByte.{char_text, char_value};
ghost use Rattle.litrs_grammar.specs.Quoted.{item_text};
ghost use Rattle.litrs_grammar.specs.Suffix.{is_suffix};
ghost use Rattle.litrs.specs.CharLiteral.{char_parts, byte_parts};
ghost use Rattle.litrs_build.specs.Errors.{suffix_error, IsErrorOf};
ghost use Rattle.litrs_build.specs.Spelling.{spelled_item};
ghost use Rattle.litrs_build.specs.Written.{written_char, written_byte};

use crate::error::BuildError;
use crate::spelling::Spelling;
use crate::style::Case;
use litrs::{ByteLit, CharLit};
use litrs_lex::check_suffix;
use std::alloc::Global;

/// Builds the char with this value and this suffix, which may be empty, for example `'a'`, `'\n'`
/// or `'\u{200b}'`. See [the reference][ref].
///
/// There is one allocation, for the text.
///
/// # Errors
///
/// Returns `NotASuffix` if `suffix` is neither empty nor an identifier other than `_`, otherwise
/// `Memory` if an allocation fails.
///
/// [ref]: https://doc.rust-lang.org/reference/tokens.html#character-literals
pub fn char(alloc: Global, value: char, suffix: &str) -> Result<CharLit<String>, BuildError>
    ensures written { IfOk result (λ lit.
        chars lit.raw ≡ char_text char_kind (written_char value (chars suffix.now))) }
    ensures parts { IfOk result (λ lit. char_parts lit ≡ written_char value (chars suffix.now)) }
    ensures value { IfOk result (λ lit. char_value (char_parts lit).item ≡ value) }
    ensures suffix { IfOk result (λ _. IsTrue (is_suffix (chars suffix.now))) }
    ensures refused { IfErr result (IsErrorOf (suffix_error (chars suffix.now))) }
{
    let spelling = Spelling::of_char(value, '\'', true);
    let text = write_spelling(alloc, "'", spelling, suffix)?;
    match CharLit::parse(text) {
        Ok(lit) => Ok(lit),
        Err(_) => unreachable!(),
    }
}

/// Builds the byte with this value and this suffix, which may be empty, for example `b'a'`, `b'\n'`
/// or `b'\xff'`. See [the reference][ref].
///
/// There is one allocation, for the text.
///
/// # Errors
///
/// Returns `NotASuffix` if `suffix` is neither empty nor an identifier other than `_`, otherwise
/// `Memory` if an allocation fails.
///
/// [ref]: https://doc.rust-lang.org/reference/tokens.html#byte-literals
pub fn byte(alloc: Global, value: u8, suffix: &str) -> Result<ByteLit<String>, BuildError>
    ensures written { IfOk result (λ lit.
        chars lit.raw ≡ char_text byte_kind (written_byte value (chars suffix.now))) }
    ensures parts { IfOk result (λ lit. byte_parts lit ≡ written_byte value (chars suffix.now)) }
    ensures value { IfOk result (λ lit. char_value (byte_parts lit).item ≡ value) }
    ensures suffix { IfOk result (λ _. IsTrue (is_suffix (chars suffix.now))) }
    ensures refused { IfErr result (IsErrorOf (suffix_error (chars suffix.now))) }
{
    let spelling = Spelling::of_byte(value, '\'');
    let text = write_spelling(alloc, "b'", spelling, suffix)?;
    match ByteLit::parse(text) {
        Ok(lit) => Ok(lit),
        Err(_) => unreachable!(),
    }
}

/// Writes the text of a char or a byte: `front`, the character, a quote and `suffix`.
fn write_spelling(
    alloc: Global,
    front: &str,
    spelling: Spelling,
    suffix: &str,
) -> Result<String, BuildError>
    ensures text { IfOk result (λ text. string_bytes text ≡ ((front.now
        ++ encode_utf8_all (item_text (spelled_item spelling))) ++ 39 ∷ []) ++ suffix.now) }
    ensures suffix { IfOk result (λ _. IsTrue (is_suffix (chars suffix.now))) }
    ensures refused { IfErr result (IsErrorOf (suffix_error (chars suffix.now))) }
{
    if check_suffix(suffix).is_err() {
        return Err(BuildError::NotASuffix);
    }
    // The longest spelling has ten bytes, and the front and the quote have at most three.
    let len = suffix
        .len()
        .saturating_add(front.len())
        .saturating_add(spelling.len() + 1);
    // bounded by the length of the text, which was counted.
    let mut text = String::with_capacity(alloc, len)?;
    text.push_str(front)?;
    spelling.push_to(&mut text, Case::Lower)?;
    text.push('\'')?;
    text.push_str(suffix)?;
    Ok(text)
}
