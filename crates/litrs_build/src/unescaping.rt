//! Literals that are written anew.
ghost use Rattle.std.specs.Prelude.{◌≡◌, IsOk, IsTrue, IfOk, IfErr};
ghost use Rattle.std.specs.Str.{chars};
ghost use Rattle.litrs_base.specs.declared.quotes.StringKind.TheVariants.{String as string_kind, ByteString as byte_string_kind, CString as c_string_kind};
ghost use Rattle.litrs_grammar.specs.CharByte.{char_value};
ghost use Rattle.litrs_grammar.specs.Literal.{IsLiteral, string_value, suffix_of};
ghost use Rattle.litrs_grammar.specs.LiteralText.{literal_text};
ghost use Rattle.litrs.specs.CharLiteral.{char_parts, byte_parts};
ghost use Rattle.litrs.specs.LiteralDerivation.{derivation, is_bool_literal, literal_raw};
ghost use Rattle.litrs_build.specs.WrittenAnew.{HaveSameValue, unescaped, unescaped_byte, unescaped_char, unescaped_string};

use crate::byte_strings::byte_string;
use crate::c_strings::c_string;
use crate::chars::{byte, char};
use crate::error::{BuildError, memory_error};
use crate::raw::{raw_byte_string, raw_c_string, raw_string};
use crate::strings::string;
use litrs::{ByteLit, ByteStringLit, CStringLit, CharLit, Literal, StringLit, Text};
use std::alloc::{AllocError, Global};

/// Returns `lit` written anew, with escapes only where they are needed: for `"\u{61}\'"x` that is
/// `"a'"x`. The kind, the value and the suffix are those of `lit`.
///
/// A char, a byte and a quoted string are written by [`char`], [`byte`], [`string`],
/// [`byte_string`] and [`c_string`]. A raw string is written by [`raw_string`],
/// [`raw_byte_string`] and [`raw_c_string`], with the fewest hashes possible. A bool, an integer
/// and a float keep their text.
///
/// The text may be longer than that of `lit`. An unescaped character that is not printable is
/// escaped, and so is a combining one (Grapheme_Extend) after the opening quote or an escape.
///
/// There is one allocation for the text, and one for the value if [`Literal::parse`] of that text
/// makes one; for a bool there is none.
///
/// # Errors
///
/// Returns `AllocError` if an allocation fails.
pub fn unescaped<B: Text>(alloc: Global, lit: &Literal<B>) -> Result<Literal<String>, AllocError>
    ensures literal { IfOk result (λ built.
        IsLiteral (chars (literal_raw built)) (derivation built)) }
    ensures written { IfOk result (λ built.
        chars (literal_raw built) ≡ literal_text (unescaped (derivation lit.now))) }
    ensures parts { IfOk result (λ built. derivation built ≡ unescaped (derivation lit.now)) }
    ensures value { IfOk result (λ built.
        HaveSameValue (derivation lit.now) (derivation built)) }
    ensures suffix { IfOk result (λ built.
        suffix_of (derivation built) ≡ suffix_of (derivation lit.now)) }
    ensures again { IfOk result (λ built. unescaped (derivation built) ≡ derivation built) }
    ensures bool { IsTrue (is_bool_literal lit.now) → IsOk result }
{
    match built(alloc, lit) {
        Ok(built) => Ok(with_text(built)),
        Err(BuildError::Memory) => Err(AllocError),
        Err(_) => unreachable!(),
    }
}

/// Returns `lit`, whose text the contract relates to its parts.
fn with_text(lit: Literal<String>) -> Literal<String>
    ensures same { result ≡ lit }
    ensures literal { IsLiteral (chars (literal_raw lit)) (derivation lit) }
    ensures written { chars (literal_raw lit) ≡ literal_text (derivation lit) }
{
    // Called for its contract: the text is a literal with these parts.
    let _ = lit.raw_input();
    lit
}

/// Builds the literal of the value and the suffix of `lit`.
fn built<B: Text>(alloc: Global, lit: &Literal<B>) -> Result<Literal<String>, BuildError>
    ensures parts { IfOk result (λ built. derivation built ≡ unescaped (derivation lit.now)) }
    ensures value { IfOk result (λ built.
        HaveSameValue (derivation lit.now) (derivation built)) }
    ensures errors { IfErr result (λ e. e ≡ BuildError.Memory) }
    ensures bool { IsTrue (is_bool_literal lit.now) → IsOk result }
{
    match lit {
        Literal::Bool(lit) => Ok(Literal::Bool(*lit)),
        Literal::Integer(_) => kept(alloc, lit),
        Literal::Float(_) => kept(alloc, lit),
        Literal::Char(lit) => Ok(Literal::Char(built_char(alloc, lit)?)),
        Literal::Byte(lit) => Ok(Literal::Byte(built_byte(alloc, lit)?)),
        Literal::String(lit) => Ok(Literal::String(built_string(alloc, lit)?)),
        Literal::ByteString(lit) => Ok(Literal::ByteString(built_byte_string(alloc, lit)?)),
        Literal::CString(lit) => Ok(Literal::CString(built_c_string(alloc, lit)?)),
    }
}

/// Parses a copy of the text of `lit`.
fn kept<B: Text>(alloc: Global, lit: &Literal<B>) -> Result<Literal<String>, BuildError>
    ensures parts { IfOk result (λ copy. derivation copy ≡ derivation lit.now) }
    ensures errors { IfErr result (λ e. e ≡ BuildError.Memory) }
{
    let text = String::from_str(alloc, lit.raw_input())?;
    match Literal::parse(alloc, text) {
        Ok(copy) => Ok(copy),
        Err(e) => Err(memory_error(&e)),
    }
}

/// Builds the char of the value and the suffix of `lit`.
fn built_char<B: Text>(alloc: Global, lit: &CharLit<B>) -> Result<CharLit<String>, BuildError>
    ensures parts { IfOk result (λ built.
        char_parts built ≡ unescaped_char (char_parts lit.now)) }
    ensures value { IfOk result (λ built.
        char_value (char_parts built).item ≡ char_value (char_parts lit.now).item) }
    ensures errors { IfErr result (λ e. e ≡ BuildError.Memory) }
{
    // Called for its contract: the suffix is one.
    let _ = lit.raw_input();
    char(alloc, lit.value(), lit.suffix())
}

/// Builds the byte of the value and the suffix of `lit`.
fn built_byte<B: Text>(alloc: Global, lit: &ByteLit<B>) -> Result<ByteLit<String>, BuildError>
    ensures parts { IfOk result (λ built.
        byte_parts built ≡ unescaped_byte (byte_parts lit.now)) }
    ensures value { IfOk result (λ built.
        char_value (byte_parts built).item ≡ char_value (byte_parts lit.now).item) }
    ensures errors { IfErr result (λ e. e ≡ BuildError.Memory) }
{
    // Called for its contract: the suffix is one.
    let _ = lit.raw_input();
    byte(alloc, lit.value(), lit.suffix())
}

/// Builds the string of the value and the suffix of `lit`, quoted or raw as `lit` is.
fn built_string<B: Text>(alloc: Global, lit: &StringLit<B>) -> Result<StringLit<String>, BuildError>
    ensures parts { IfOk result (λ built.
        built.parts ≡ unescaped_string string_kind lit.now.parts) }
    ensures value { IfOk result (λ built. string_value built.parts ≡ string_value lit.now.parts) }
    ensures errors { IfErr result (λ e. e ≡ BuildError.Memory) }
{
    // Called for its contract: the parts are those of a string.
    let _ = lit.raw_input();
    if lit.is_raw_string() {
        raw_string(alloc, lit.value(), lit.suffix())
    } else {
        string(alloc, lit.value(), lit.suffix())
    }
}

/// Builds the byte string of the value and the suffix of `lit`, quoted or raw as `lit` is.
fn built_byte_string<B: Text>(
    alloc: Global,
    lit: &ByteStringLit<B>,
) -> Result<ByteStringLit<String>, BuildError>
    ensures parts { IfOk result (λ built.
        built.parts ≡ unescaped_string byte_string_kind lit.now.parts) }
    ensures value { IfOk result (λ built. string_value built.parts ≡ string_value lit.now.parts) }
    ensures errors { IfErr result (λ e. e ≡ BuildError.Memory) }
{
    // Called for its contract: the parts are those of a byte string.
    let _ = lit.raw_input();
    if lit.is_raw_byte_string() {
        raw_byte_string(alloc, lit.value(), lit.suffix())
    } else {
        byte_string(alloc, lit.value(), lit.suffix())
    }
}

/// Builds the C string of the value and the suffix of `lit`, quoted or raw as `lit` is.
fn built_c_string<B: Text>(
    alloc: Global,
    lit: &CStringLit<B>,
) -> Result<CStringLit<String>, BuildError>
    ensures parts { IfOk result (λ built.
        built.parts ≡ unescaped_string c_string_kind lit.now.parts) }
    ensures value { IfOk result (λ built. string_value built.parts ≡ string_value lit.now.parts) }
    ensures errors { IfErr result (λ e. e ≡ BuildError.Memory) }
{
    // Called for its contract: the parts are those of a C string.
    let _ = lit.raw_input();
    let value = lit.value().to_bytes();
    if lit.is_raw_c_string() {
        raw_c_string(alloc, value, lit.suffix())
    } else {
        c_string(alloc, value, lit.suffix())
    }
}
