//! Explains a literal to a person: a line on its kind, one on its value, and one on each of its
//! parts.
//!
//! ```
//! use litrs::{Literal, ParseErrorKind};
//! use litrs_explanation::explanation;
//! use std::alloc::{AllocError, Global};
//!
//! /// Returns the explanation of `text`, or `None` if it is not a literal.
//! fn explained(alloc: Global, text: &str) -> Result<Option<String>, AllocError> {
//!     match &Literal::parse(alloc, text) {
//!         Ok(lit) => Ok(Some(explanation(alloc, lit)?)),
//!         Err(e) => match e.kind() {
//!             ParseErrorKind::OutOfMemory => Err(AllocError),
//!             _ => Ok(None),
//!         },
//!     }
//! }
//! ```
//!
//! For `0xFF_u8` that is
//!
//! ```text
//! integer
//!   value 255
//!   base 16
//!   digits FF_
//!   fits u8 u16 u32 u64 u128 usize i16 i32 i64 i128 isize
//!   suffix u8
//! ```
//!
//! The value of a float is shown in decimal, and the value of a char or a string as the literal
//! that `litrs_build` builds of it. A character of a suffix that is not printable is shown as
//! `\u{..}`. So every character of an explanation is an LF or printable.
#![tactic(auto)]

ghost use Rattle.std.specs.Prelude.{◌≡◌, ◌++◌, [], length, take, false, IsOk, IfOk, OnOk, MatchOption, IsTrue, IsFalse, codes, string_bytes, encode_utf8_all};
ghost use Rattle.std.specs.Float.{float_is_finite};
ghost use Rattle.std.specs.List.{list_all, list_any, flat_map};
ghost use Rattle.std.specs.Str.{chars};
ghost use Rattle.litrs.specs.LiteralDerivation.{derivation};
ghost use Rattle.litrs_grammar.specs.CharByte.{char_text};
ghost use Rattle.litrs_grammar.specs.Float.{number_part, is_underscore};
ghost use Rattle.litrs_grammar.specs.Integer.{integer_value};
ghost use Rattle.litrs_grammar.specs.Raw.{is_nul};
ghost use Rattle.litrs.specs.IntegerLiteral.{integer_parts};
ghost use Rattle.litrs.specs.FloatLiteral.{float_parts};
ghost use Rattle.litrs.specs.CharKind.{char_kind};
ghost use Rattle.litrs.specs.StringKind.{string_kind, byte_string_kind, c_string_kind};
ghost use Rattle.litrs.specs.LiteralText.{string_text};
ghost use Rattle.litrs_build.specs.CStrings.{written_c_string};
ghost use Rattle.litrs_build.specs.Written.{written_char, written_string, written_byte_string};
ghost use Rattle.litrs_explanation.specs.Explanation.{kind_name, IsExplanation, IsFields, field, value_field, field_of_part, integer_text, names_that_fit, names_of, integer_types, integer_fields, IsTypeOf, IsNumber, IsNumberOf, IsOutOfRange, IsValueText, IsFloatFields, fraction_field, escaped, escaped_char, is_line_feed_or_printable, Shows};
ghost use Rattle.litrs_explanation.specs.Appended.{appended, Appends};

use litrs::{Buffer, FloatLit, FloatType, IntegerLit, Literal};
use litrs_build::{BuildError, byte_string, c_string, char, is_printable, string};
use litrs_value::float;
use ryu::Float;
use std::alloc::{AllocError, Global};
use std::fmt::Write;

pub mod laws;

/// The value of an integer that 128 bits do not hold.
const TOO_LARGE: &str = "2^128 or more";

/// The names of the types that such an integer fits.
const NO_NAMES: &str = " no integer type";

/// Returns the lines that [`push_explanation`] appends.
///
/// # Errors
///
/// Returns `AllocError` if an allocation fails.
pub fn explanation<B: Buffer>(alloc: Global, literal: &Literal<B>) -> Result<String, AllocError>
    ensures lines { IfOk result (λ lines.
        IsExplanation (derivation literal.now) (string_bytes lines)) }
    ensures printable { IfOk result (λ lines. IsTrue (
        list_all is_line_feed_or_printable (chars (string_bytes lines)))) }
{
    let mut lines = String::new(alloc);
    push_explanation(&mut lines, literal)?;
    Ok(lines)
}

/// Appends to `out` the lines that explain `literal`: its kind, its value, and each of its parts.
///
/// Every character of them is an LF or printable, by `litrs_build`'s `is_printable`: the values of
/// chars and strings are shown as literals, and a character of the suffix that is not printable as
/// `\u{..}`.
///
/// # Errors
///
/// Returns `AllocError` if an allocation fails. Then some text may have been appended.
pub fn push_explanation<B: Buffer>(out: &mut String, literal: &Literal<B>) -> Result<(), AllocError>
    ensures kept { take (length (string_bytes out.old)) (string_bytes out.new)
        ≡ string_bytes out.old }
    ensures lines { OnOk result (IsExplanation (derivation literal.now)
        (appended (string_bytes out.old) (string_bytes out.new))) }
    ensures printable { OnOk result (IsTrue (list_all is_line_feed_or_printable
        (chars (appended (string_bytes out.old) (string_bytes out.new))))) }
{
    push_lines(out, literal)
}

/// Like [`push_explanation`].
fn push_lines<B: Buffer>(out: &mut String, literal: &Literal<B>) -> Result<(), AllocError>
    ensures { Appends (string_bytes out.old) (string_bytes out.new) result
        (λ lines. IsExplanation (derivation literal.now) lines × Shows lines) }
{
    let kind = kind_name(literal);
    let suffix = literal.suffix();
    push_texts(out, &[kind, "\n"])?;
    push_fields(out, literal)?;
    push_suffix(out, suffix)
}

/// Appends `texts`, one after the other.
fn push_texts(out: &mut String, texts: &[&str]) -> Result<(), AllocError>
    ensures { Appends (string_bytes out.old) (string_bytes out.new) result
        (λ added. added ≡ flat_map (λ text. text.now) texts.now) }
{
    for text in texts {
        out.push_str(*text)?;
    }
    Ok(())
}

/// Returns the name of the kind of `literal`, for example `C string`.
pub fn kind_name<B: Buffer>(literal: &Literal<B>) -> &'static str
    ensures { result.now ≡ kind_name (derivation literal.now) }
{
    match literal {
        Literal::Bool(_) => "bool",
        Literal::Integer(_) => "integer",
        Literal::Float(_) => "float",
        Literal::Char(_) => "char",
        Literal::Byte(_) => "byte",
        Literal::String(_) => "string",
        Literal::ByteString(_) => "byte string",
        Literal::CString(_) => "C string",
    }
}

/// Appends the lines on the value of `literal` and on its parts except the suffix.
fn push_fields<B: Buffer>(out: &mut String, literal: &Literal<B>) -> Result<(), AllocError>
    ensures { Appends (string_bytes out.old) (string_bytes out.new) result
        (λ lines. IsFields (derivation literal.now) lines × Shows lines) }
{
    match literal {
        Literal::Bool(lit) => push_value(out, lit.as_str()),
        Literal::Integer(lit) => push_integer(out, lit),
        Literal::Float(lit) => push_float(out, lit),
        Literal::Byte(lit) => push_value(out, itoa::Buffer::new().format(lit.value())),
        Literal::Char(lit) => push_char(out, lit.value()),
        Literal::String(lit) => push_string(out, lit.value()),
        Literal::ByteString(lit) => push_byte_string(out, lit.value()),
        Literal::CString(lit) => push_c_string(out, lit.value().to_bytes()),
    }
}

/// Appends the line on the value of a char, which is shown as a literal.
fn push_char(out: &mut String, value: char) -> Result<(), AllocError>
    ensures { Appends (string_bytes out.old) (string_bytes out.new) result
        (λ line. (line
        ≡ value_field (char_text char_kind (written_char value [])))
        × Shows line) }
{
    match char(*out.allocator(), value, "") {
        Ok(built) => push_value(out, built.raw_input()),
        Err(BuildError::Memory) => Err(AllocError),
        Err(_) => unreachable!(),
    }
}

/// Appends the line on the value of a string, which is shown as a literal.
fn push_string(out: &mut String, value: &str) -> Result<(), AllocError>
    ensures { Appends (string_bytes out.old) (string_bytes out.new) result
        (λ line. (line
        ≡ value_field (string_text string_kind (written_string (chars value.now) [])))
        × Shows line) }
{
    match string(*out.allocator(), value, "") {
        Ok(built) => push_value(out, built.raw_input()),
        Err(BuildError::Memory) => Err(AllocError),
        Err(_) => unreachable!(),
    }
}

/// Appends the line on the value of a byte string, which is shown as a literal.
fn push_byte_string(out: &mut String, value: &[u8]) -> Result<(), AllocError>
    ensures { Appends (string_bytes out.old) (string_bytes out.new) result
        (λ line. (line
        ≡ value_field (string_text byte_string_kind (written_byte_string value.now [])))
        × Shows line) }
{
    match byte_string(*out.allocator(), value, "") {
        Ok(built) => push_value(out, built.raw_input()),
        Err(BuildError::Memory) => Err(AllocError),
        Err(_) => unreachable!(),
    }
}

/// Appends the line on the value of a C string, which is given without its closing NUL and shown
/// as a literal.
fn push_c_string(out: &mut String, value: &[u8]) -> Result<(), AllocError>
    requires { IsFalse (list_any is_nul value.now) }
    ensures { Appends (string_bytes out.old) (string_bytes out.new) result
        (λ line. (line
        ≡ value_field (string_text c_string_kind (written_c_string value.now [])))
        × Shows line) }
{
    match c_string(*out.allocator(), value, "") {
        Ok(built) => push_value(out, built.raw_input()),
        Err(BuildError::Memory) => Err(AllocError),
        Err(_) => unreachable!(),
    }
}

/// Appends the line on a value.
fn push_value(out: &mut String, value: &str) -> Result<(), AllocError>
    ensures { Appends (string_bytes out.old) (string_bytes out.new) result
        (λ line. line ≡ field (codes "value") value.now) }
{
    push_texts(out, &["  value ", value, "\n"])
}

/// Appends the line on a suffix, if there is one. Characters that are not printable, such as the
/// zero width joiner, are written as `\u{..}`.
fn push_suffix(out: &mut String, suffix: &str) -> Result<(), AllocError>
    ensures { Appends (string_bytes out.old) (string_bytes out.new) result
        (λ line. line
        ≡ field_of_part (codes "suffix") (encode_utf8_all (escaped (chars suffix.now)))) }
{
    let mut shown = String::new(*out.allocator());
    for c in suffix.chars() {
        push_escaped(&mut shown, c)?;
    }
    push_part(out, "suffix", shown.as_str())
}

/// Appends `c` to `text`, as `\u{..}` if it is not printable.
fn push_escaped(text: &mut String, c: char) -> Result<(), AllocError>
    ensures { OnOk result (string_bytes text.new
        ≡ string_bytes text.old ++ encode_utf8_all (escaped_char c)) }
{
    if is_printable(c) {
        text.push(c)
    } else {
        let number = u32::from(c);
        write!(text, "\\u{{{number:x}}}")
    }
}

/// Appends the line on a part that is not empty.
fn push_part<'a>(out: &mut String, name: &'a str, part: &'a str) -> Result<(), AllocError>
    ensures { Appends (string_bytes out.old) (string_bytes out.new) result
        (λ line. line ≡ field_of_part name.now part.now) }
{
    match part {
        "" => Ok(()),
        _ => push_texts(out, &["  ", name, " ", part, "\n"]),
    }
}

/// Appends the lines on the value, the base and the digits of an integer, and on the types that it
/// fits.
fn push_integer<B: Buffer>(out: &mut String, lit: &IntegerLit<B>) -> Result<(), AllocError>
    ensures { Appends (string_bytes out.old) (string_bytes out.new) result
        (λ lines. (lines ≡ integer_fields (integer_parts lit.now)) × Shows lines) }
{
    // Called for its contract: the parts are those of an integer.
    let _ = lit.raw_input();
    match lit.value::<u128>() {
        Some(value) => {
            push_integer_parts(out, lit, itoa::Buffer::new().format(value), names_of(value))
        }
        None => push_integer_parts(out, lit, TOO_LARGE, NO_NAMES),
    }
}

/// Appends the lines on an integer with the value `value`, which fits the types `names`.
fn push_integer_parts<'a, B: Buffer>(
    out: &mut String,
    lit: &'a IntegerLit<B>,
    value: &'a str,
    names: &'a str,
) -> Result<(), AllocError>
    requires value { value.now ≡ integer_text (integer_value (integer_parts lit.now)) }
    requires names { names.now ≡ names_that_fit (integer_value (integer_parts lit.now)) }
    ensures { Appends (string_bytes out.old) (string_bytes out.new) result
        (λ lines. lines ≡ integer_fields (integer_parts lit.now)) }
{
    let mut number = itoa::Buffer::new();
    let base = number.format(lit.base().value());
    let digits = lit.raw_main_part();
    push_texts(
        out,
        &[
            "  value ",
            value,
            "\n  base ",
            base,
            "\n  digits ",
            digits,
            "\n  fits",
            names,
            "\n",
        ],
    )
}

/// Returns the value of `lit` in decimal, or `2^128 or more`. The suffix is ignored.
///
/// # Errors
///
/// Returns `AllocError` if an allocation fails.
pub fn integer_text<B: Buffer>(alloc: Global, lit: &IntegerLit<B>) -> Result<String, AllocError>
    ensures { IfOk result (λ text. string_bytes text
        ≡ integer_text (integer_value (integer_parts lit.now))) }
{
    match lit.value::<u128>() {
        Some(value) => String::from_str(alloc, itoa::Buffer::new().format(value)),
        None => String::from_str(alloc, TOO_LARGE),
    }
}

/// Returns the names of the integer types that the value of `lit` fits, each after a space, or
/// ` no integer type` if it fits none. The suffix is ignored.
///
/// # Errors
///
/// Returns `AllocError` if an allocation fails.
pub fn names_that_fit<B: Buffer>(alloc: Global, lit: &IntegerLit<B>) -> Result<String, AllocError>
    ensures { IfOk result (λ names. string_bytes names
        ≡ names_that_fit (integer_value (integer_parts lit.now))) }
{
    match lit.value::<u128>() {
        Some(value) => String::from_str(alloc, names_of(value)),
        None => String::from_str(alloc, NO_NAMES),
    }
}

/// Returns the names of the integer types that `value` fits, each after a space.
fn names_of(value: u128) -> &'static str
    ensures { result.now ≡ names_of value integer_types }
{
    match value {
        0..=0x7f => " u8 u16 u32 u64 u128 usize i8 i16 i32 i64 i128 isize",
        0x80..=0xff => " u8 u16 u32 u64 u128 usize i16 i32 i64 i128 isize",
        0x100..=0x7fff => " u16 u32 u64 u128 usize i16 i32 i64 i128 isize",
        0x8000..=0xffff => " u16 u32 u64 u128 usize i32 i64 i128 isize",
        0x1_0000..=0x7fff_ffff => " u32 u64 u128 usize i32 i64 i128 isize",
        0x8000_0000..=0xffff_ffff => " u32 u64 u128 usize i64 i128 isize",
        0x1_0000_0000..=0x7fff_ffff_ffff_ffff => " u64 u128 usize i64 i128 isize",
        0x8000_0000_0000_0000..=0xffff_ffff_ffff_ffff => " u64 u128 usize i128",
        0x1_0000_0000_0000_0000..=0x7fff_ffff_ffff_ffff_ffff_ffff_ffff_ffff => " u128 i128",
        _ => " u128",
    }
}

/// Appends the lines on the value of a float, and on its parts except the suffix.
fn push_float<B: Buffer>(out: &mut String, lit: &FloatLit<B>) -> Result<(), AllocError>
    ensures { Appends (string_bytes out.old) (string_bytes out.new) result
        (λ lines. IsFloatFields (float_parts lit.now) lines × Shows lines) }
{
    // Called for its contract: the parts are those of a float.
    let _ = lit.raw_input();
    let value = float_text(*out.allocator(), lit)?;
    let integer = lit.integer_part();
    push_texts(
        out,
        &[
            "  value ",
            value.as_str(),
            "\n  integer part ",
            integer,
            "\n",
        ],
    )?;
    push_fraction(out, lit)?;
    push_part(out, "exponent", lit.exponent_part())
}

/// Returns the value of `lit` in decimal, as a value of its [`float_type`], or, if it is too large
/// for that type, for example `infinity, out of range for f64`.
///
/// # Errors
///
/// Returns `AllocError` if an allocation fails.
pub fn float_text<B: Buffer>(alloc: Global, lit: &FloatLit<B>) -> Result<String, AllocError>
    ensures { IfOk result (λ text. IsValueText (float_parts lit.now) (string_bytes text)) }
{
    let ty = float_type(lit);
    match float_number(alloc, lit, ty)? {
        Some(number) => Ok(number),
        None => {
            let name = ty.suffix();
            format!(in alloc; "infinity, out of range for {name}")
        }
    }
}

/// Returns the type that `lit` is explained as: `f32` if that is its suffix, and `f64` if not.
pub fn float_type<B: Buffer>(lit: &FloatLit<B>) -> FloatType
    ensures { IsTypeOf (float_parts lit.now) result }
{
    if lit.suffix() == "f32" {
        FloatType::F32
    } else {
        FloatType::F64
    }
}

/// Returns the value of `lit` as a number in decimal, or `None` if it is too large for `ty`. The
/// suffix is ignored.
///
/// The number is written as in JSON, for example `1.0` or `1e-7`, and parsing it as `ty` returns
/// the same value.
///
/// # Errors
///
/// Returns `AllocError` if an allocation fails.
pub fn float_number<B: Buffer>(
    alloc: Global,
    lit: &FloatLit<B>,
    ty: FloatType,
) -> Result<Option<String>, AllocError>
    ensures number { IfOk result (λ number.
        MatchOption number (IsOutOfRange ty (float_parts lit.now))
        (λ text. IsNumberOf ty (float_parts lit.now) (string_bytes text))) }
    ensures succeeds { IsOutOfRange ty (float_parts lit.now)
        → list_any is_underscore (number_part (float_parts lit.now)) ≡ false → IsOk result }
{
    match ty {
        FloatType::F32 => {
            let value: f32 = float(alloc, lit)?;
            number(alloc, value, value.is_finite())
        }
        FloatType::F64 => {
            let value: f64 = float(alloc, lit)?;
            number(alloc, value, value.is_finite())
        }
    }
}

/// Returns `value` in decimal, or `None` if it is not finite.
fn number<F: Float>(alloc: Global, value: F, is_finite: bool) -> Result<Option<String>, AllocError>
    requires { is_finite ≡ float_is_finite (F.value value) }
    ensures number { IfOk result (λ number.
        MatchOption number (IsFalse (float_is_finite (F.value value)))
        (λ text. IsNumber F.format F.WHOLE_DIGITS F.LEADING_ZEROS (F.value value)
        (string_bytes text))) }
    ensures succeeds { IsFalse (float_is_finite (F.value value)) → IsOk result }
{
    if !is_finite {
        return Ok(None);
    }
    let text = String::from_str(alloc, ryu::Buffer::new().format_finite(value))?;
    Ok(Some(text))
}

/// Appends the line on the digits after the period, if there is a period.
fn push_fraction<B: Buffer>(out: &mut String, lit: &FloatLit<B>) -> Result<(), AllocError>
    ensures { Appends (string_bytes out.old) (string_bytes out.new) result
        (λ line. line ≡ fraction_field (float_parts lit.now).fraction) }
{
    match lit.fractional_part() {
        Some(digits) => push_texts(out, &["  fraction ", digits, "\n"]),
        None => Ok(()),
    }
}
