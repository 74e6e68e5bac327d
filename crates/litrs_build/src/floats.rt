//! Floats from their parts.
ghost use Rattle.std.specs.Prelude.{◌≡◌, ◌≤◌, ◌||◌, ◌∷◌, length, ◌++◌, ◌↔◌, ◌⊎◌, ◌&&◌, not, Some, option_map, string_bytes, IfOk, IfErr, OnOk, IsErrOf};
ghost use Rattle.std.specs.Char.{is_ascii_digit};
ghost use Rattle.std.specs.List.{list_all, list_any};
ghost use Rattle.std.specs.Str.{chars};
ghost use Rattle.litrs_base.specs.Characters.{period};
ghost use Rattle.litrs_base.specs.Derivations.{IsOnlyDerivation};
ghost use Rattle.litrs_base.specs.Text.{first_passes, is_empty};
ghost use Rattle.litrs_grammar.specs.Float.{FloatParts, IsFloat, IsFloatOf, float_text, fraction_text, is_decimal_char, is_decimal_literal, is_exponent, is_exponent_number, is_float_form, is_underscore, sign_len};
ghost use Rattle.litrs_grammar.specs.Integer.{is_e};
ghost use Rattle.litrs_grammar.specs.Suffix.{is_suffix};
ghost use Rattle.litrs.specs.FloatLiteral.{float_parts};
ghost use Rattle.litrs_build.specs.BuiltFloat.{is_float};

use crate::error::BuildError;
use litrs::FloatLit;
use litrs_lex::check_suffix;
use litrs_lex::integer::begins_with_e;
use std::alloc::{AllocError, Global};

/// Builds the float with these parts, for example `147.3_33__E3f64` from `147`, `Some("3_33__")`,
/// `E3` and `f64`. See [the reference][ref].
///
/// `fraction` is the part after the period, `None` if there is no period. `exponent` includes its
/// letter and its sign, and is empty if there is no exponent. `suffix` may be empty.
///
/// There is one allocation, for the text.
///
/// # Errors
///
/// Returns `NotAFloat` if and only if no float has these parts, for example `1`, `Some("")` and the
/// suffix `f32`, or `1`, `None` and no exponent. This is decided before the allocation. Returns
/// `Memory` if the allocation fails.
///
/// [ref]: https://doc.rust-lang.org/reference/tokens.html#floating-point-literals
pub fn float(
    alloc: Global,
    integer: &str,
    fraction: Option<&str>,
    exponent: &str,
    suffix: &str,
) -> Result<FloatLit<String>, BuildError>
    ensures literal { IfOk result (λ lit.
        IsOnlyDerivation (IsFloatOf (chars lit.raw)) (float_parts lit)) }
    ensures parts { IfOk result (λ lit. float_parts lit ≡ record {
      integer = chars integer.now;
      fraction = option_map (λ digits. chars digits.now) fraction.entry;
      exponent = chars exponent.now;
      suffix = chars suffix.now;
    }) }
    ensures not_a_float { IsErrOf result BuildError.NotAFloat ↔ (IsFloat (record {
      integer = chars integer.now;
      fraction = option_map (λ digits. chars digits.now) fraction.entry;
      exponent = chars exponent.now;
      suffix = chars suffix.now;
    }) → ⊥) }
    ensures errors { IfErr result (λ e. (e ≡ BuildError.NotAFloat) ⊎ (e ≡ BuildError.Memory)) }
{
    if !is_float(integer, fraction, exponent, suffix) {
        return Err(BuildError::NotAFloat);
    }
    let text = written_text(alloc, integer, fraction, exponent, suffix)?;
    Ok(float_of(text))
}

/// Returns `true` if a float has these parts.
fn is_float(integer: &str, fraction: Option<&str>, exponent: &str, suffix: &str) -> bool
    ensures { result ≡ is_float (record {
      integer = chars integer.now;
      fraction = option_map (λ digits. chars digits.now) fraction.entry;
      exponent = chars exponent.now;
      suffix = chars suffix.now;
    }) }
{
    is_decimal_literal(integer.as_bytes()) && fits_after_integer(fraction, exponent, suffix)
}

/// Returns `true` if these parts may follow the integer part of a float.
fn fits_after_integer(fraction: Option<&str>, exponent: &str, suffix: &str) -> bool
    ensures { result
        ≡ (is_float_form (option_map (λ digits. chars digits.now) fraction.entry)
        (chars exponent.now) (chars suffix.now)
        && (is_suffix (chars suffix.now)
        && (not (first_passes is_underscore (chars suffix.now))
        && not (is_empty (chars exponent.now) && first_passes is_e (chars suffix.now))))) }
{
    has_float_form(fraction, exponent, suffix) && is_float_suffix(suffix, exponent)
}

/// Returns `true` if a decimal digit comes first, and only digits and `_` follow it.
fn is_decimal_literal(bytes: &[u8]) -> bool
    ensures { result ≡ is_decimal_literal bytes.now }
{
    begins_with_ascii_digit(bytes) && is_decimal(bytes)
}

/// Returns `true` if a decimal digit comes first.
fn begins_with_ascii_digit(bytes: &[u8]) -> bool
    ensures { result ≡ first_passes is_ascii_digit bytes.now }
{
    match bytes {
        [first, ..] => first.is_ascii_digit(),
        [] => false,
    }
}

/// Returns `true` if all are decimal digits or `_`.
fn is_decimal(bytes: &[u8]) -> bool
    ensures { result ≡ list_all is_decimal_char bytes.now }
{
    bytes
        .iter()
        .all(|byte| byte.is_ascii_digit() || *byte == b'_')
}

/// Returns `true` if these parts have one of the three forms after the integer part.
fn has_float_form(fraction: Option<&str>, exponent: &str, suffix: &str) -> bool
    ensures { result ≡ is_float_form (option_map (λ digits. chars digits.now) fraction.entry)
        (chars exponent.now) (chars suffix.now) }
{
    match fraction {
        Some(digits) => has_fraction_form(digits, exponent, suffix),
        None => is_exponent(exponent.as_bytes()),
    }
}

/// Like [`has_float_form`], if there is a period.
fn has_fraction_form(digits: &str, exponent: &str, suffix: &str) -> bool
    ensures { result
        ≡ is_float_form (Some (chars digits.now)) (chars exponent.now) (chars suffix.now) }
{
    if digits.is_empty() {
        exponent.is_empty() && suffix.is_empty()
    } else {
        is_decimal_literal(digits.as_bytes()) && is_optional_exponent(exponent.as_bytes())
    }
}

/// Returns `true` if it is empty or an exponent.
fn is_optional_exponent(bytes: &[u8]) -> bool
    ensures { result ≡ (is_empty bytes.now || is_exponent bytes.now) }
{
    bytes.is_empty() || is_exponent(bytes)
}

/// Returns `true` if it is `e` or `E`, an optional sign, then digits and `_` with a digit.
#[tactic(auto, unfolding(litrs_grammar::specs::Float::is_exponent))]
fn is_exponent(bytes: &[u8]) -> bool
    ensures { result ≡ is_exponent bytes.now }
{
    match bytes {
        [b'e' | b'E', number @ ..] => is_exponent_number(&number[sign_len(number)..]),
        _ => false,
    }
}

/// Returns the length of the sign that comes first: 0 or 1.
pub(crate) fn sign_len(bytes: &[u8]) -> usize
    ensures len { result ≡ sign_len bytes.now }
    ensures within { result ≤ length bytes.now }
{
    match bytes {
        [b'+' | b'-', ..] => 1,
        _ => 0,
    }
}

/// Returns `true` if all are decimal digits or `_`, and one is a digit.
fn is_exponent_number(bytes: &[u8]) -> bool
    ensures { result ≡ is_exponent_number bytes.now }
{
    is_decimal(bytes) && has_ascii_digit(bytes)
}

/// Returns `true` if one of the bytes is a decimal digit.
fn has_ascii_digit(bytes: &[u8]) -> bool
    ensures { result ≡ list_any is_ascii_digit bytes.now }
{
    bytes.iter().any(|byte| byte.is_ascii_digit())
}

/// Returns `true` if a float with this exponent may have this suffix.
fn is_float_suffix(suffix: &str, exponent: &str) -> bool
    ensures { result ≡ (is_suffix (chars suffix.now)
        && (not (first_passes is_underscore (chars suffix.now))
        && not (is_empty (chars exponent.now) && first_passes is_e (chars suffix.now)))) }
{
    check_suffix(suffix).is_ok() && begins_apart(suffix.as_bytes(), exponent.is_empty())
}

/// Returns `true` if the first byte would not be read as a part of the number, as `_` would be, and
/// without an exponent `e` or `E`.
fn begins_apart(bytes: &[u8], has_no_exponent: bool) -> bool
    ensures { result ≡ (not (first_passes is_underscore bytes.now)
        && not (has_no_exponent && first_passes is_e bytes.now)) }
{
    !begins_with_underscore(bytes) && !(has_no_exponent && begins_with_e(bytes))
}

/// Returns `true` if `_` comes first.
fn begins_with_underscore(bytes: &[u8]) -> bool
    ensures { result ≡ first_passes is_underscore bytes.now }
{
    match bytes {
        [first, ..] => *first == b'_',
        [] => false,
    }
}

/// Writes the text with these parts.
fn written_text(
    alloc: Global,
    integer: &str,
    fraction: Option<&str>,
    exponent: &str,
    suffix: &str,
) -> Result<String, AllocError>
    ensures { IfOk result (λ text. chars (string_bytes text) ≡ float_text (record {
      integer = chars integer.now;
      fraction = option_map (λ digits. chars digits.now) fraction.entry;
      exponent = chars exponent.now;
      suffix = chars suffix.now;
    })) }
{
    let number = integer.len().saturating_add(fraction_len(fraction));
    let len = number
        .saturating_add(exponent.len())
        .saturating_add(suffix.len());
    // bounded by the length of the text, which was counted.
    let mut text = String::with_capacity(alloc, len)?;
    push_part(&mut text, integer)?;
    push_fraction(&mut text, fraction)?;
    push_part(&mut text, exponent)?;
    push_part(&mut text, suffix)?;
    Ok(text)
}

/// Returns the length in bytes of the period and the fraction.
fn fraction_len(fraction: Option<&str>) -> usize {
    match fraction {
        Some(digits) => digits.len().saturating_add(1),
        None => 0,
    }
}

/// Appends the period and the fraction, if there is one.
fn push_fraction(text: &mut String, fraction: Option<&str>) -> Result<(), AllocError>
    ensures { OnOk result (chars (string_bytes text.new) ≡ chars (string_bytes text.old)
        ++ fraction_text (option_map (λ digits. chars digits.now) fraction.entry)) }
{
    match fraction {
        Some(digits) => push_after_period(text, digits),
        None => Ok(()),
    }
}

/// Appends a period and the digits.
fn push_after_period(text: &mut String, digits: &str) -> Result<(), AllocError>
    ensures { OnOk result (chars (string_bytes text.new)
        ≡ chars (string_bytes text.old) ++ (period ∷ chars digits.now)) }
{
    push_part(text, ".")?;
    push_part(text, digits)?;
    Ok(())
}

fn push_part(text: &mut String, part: &str) -> Result<(), AllocError>
    ensures { OnOk result (chars (string_bytes text.new)
        ≡ chars (string_bytes text.old) ++ chars part.now) }
{
    text.push_str(part)?;
    Ok(())
}

/// Parses a text that is a float.
fn float_of(text: String) -> FloatLit<String>
    requires { (d : FloatParts) × IsFloatOf (chars (string_bytes text)) d }
    ensures raw { result.raw ≡ string_bytes text }
    ensures only { IsOnlyDerivation (IsFloatOf (chars (string_bytes text))) (float_parts result) }
{
    match FloatLit::parse(text) {
        Ok(lit) => lit,
        Err(_) => unreachable!(),
    }
}
