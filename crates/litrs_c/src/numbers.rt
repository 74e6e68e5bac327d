//! The value of an integer or a float, as a float.
ghost use Rattle.std.specs.Prelude.{◌≡◌, ◌≢◌, ◌≤◌, ◌⊎◌, ◌↔◌, false, Some, None, IfSome, IfNone, IfOk, IfErr};
ghost use Rattle.std.specs.Float.{binary32, binary64};
ghost use Rattle.std.specs.Str.{chars, IsUtf8};
ghost use Rattle.litrs_base.specs.Derivations.{HasNoDerivation};
ghost use Rattle.litrs_grammar.specs.Literal.{IsLiteral};
ghost use Rattle.litrs.specs.LiteralDerivation.{derivation};
ghost use Rattle.litrs_value.specs.Values.{float_of};
ghost use Rattle.litrs_c.specs.Answers.{IsLiteralAnd};
ghost use Rattle.litrs_c.specs.Numbers.{IsCopied, LacksNumberMemory};

use crate::utf8::from_utf8;
use crate::{LITERAL, NO_NUMBER, NOT_UTF8, OUT_OF_MEMORY, REFUSED};
use fast_float::FastFloat;
use litrs::{Literal, ParseErrorKind};
use litrs_value::{float, integer_float};
use std::alloc::{AllocError, Global};

/// Writes the `f64` nearest to an integer or a float to `value`, and returns the status.
///
/// It is rounded once, ties to even, whatever the suffix is. A number that is too large, for
/// example `1e400`, is infinite. `value` is unchanged if the status is not [`LITERAL`]. It
/// allocates only for the digits of a number with an underscore, if that is a float, or an integer
/// in base ten that is at least 2^64. For a text that is not a number it allocates like
/// [`litrs_parse`].
///
/// [`litrs_parse`]: crate::litrs_parse
#[unsafe(no_mangle)]
pub extern "C" fn litrs_f64(alloc: Global, text: &[u8], value: &mut f64) -> u32
    ensures statuses { (result ≤ OUT_OF_MEMORY) ⊎ (result ≡ NO_NUMBER) }
    ensures utf8 { result ≢ NOT_UTF8 ↔ IsUtf8 text.now }
    ensures value { result ≡ LITERAL →
        IsLiteralAnd (chars text.now) (λ d. float_of binary64 false d ≡ Some value.new) }
    ensures other { result ≡ NO_NUMBER →
        IsLiteralAnd (chars text.now) (λ d. float_of binary64 false d ≡ None) }
    ensures refused { result ≡ REFUSED → HasNoDerivation (IsLiteral (chars text.now)) }
    ensures memory { result ≡ OUT_OF_MEMORY → LacksNumberMemory (chars text.now) }
    ensures kept { result ≢ LITERAL → value.new ≡ value.old }
{
    match from_utf8(text) {
        Ok(text) => write_number::<f64>(alloc, text, value),
        Err(_) => NOT_UTF8,
    }
}

/// Writes the `f32` nearest to an integer or a float to `value`. Otherwise, it is like
/// [`litrs_f64`].
#[unsafe(no_mangle)]
pub extern "C" fn litrs_f32(alloc: Global, text: &[u8], value: &mut f32) -> u32
    ensures statuses { (result ≤ OUT_OF_MEMORY) ⊎ (result ≡ NO_NUMBER) }
    ensures utf8 { result ≢ NOT_UTF8 ↔ IsUtf8 text.now }
    ensures value { result ≡ LITERAL →
        IsLiteralAnd (chars text.now) (λ d. float_of binary32 false d ≡ Some value.new) }
    ensures other { result ≡ NO_NUMBER →
        IsLiteralAnd (chars text.now) (λ d. float_of binary32 false d ≡ None) }
    ensures refused { result ≡ REFUSED → HasNoDerivation (IsLiteral (chars text.now)) }
    ensures memory { result ≡ OUT_OF_MEMORY → LacksNumberMemory (chars text.now) }
    ensures kept { result ≢ LITERAL → value.new ≡ value.old }
{
    match from_utf8(text) {
        Ok(text) => write_number::<f32>(alloc, text, value),
        Err(_) => NOT_UTF8,
    }
}

/// Writes the float nearest to a number to `value`, and returns the status.
fn write_number<F: FastFloat>(alloc: Global, text: &str, value: &mut F) -> u32
    ensures statuses { (result ≤ OUT_OF_MEMORY) ⊎ (result ≡ NO_NUMBER) }
    ensures utf8 { result ≢ NOT_UTF8 }
    ensures value { result ≡ LITERAL → IsLiteralAnd (chars text.now)
        (λ d. float_of F.format false d ≡ Some (F.value value.new)) }
    ensures other { result ≡ NO_NUMBER →
        IsLiteralAnd (chars text.now) (λ d. float_of F.format false d ≡ None) }
    ensures refused { result ≡ REFUSED → HasNoDerivation (IsLiteral (chars text.now)) }
    ensures memory { result ≡ OUT_OF_MEMORY → LacksNumberMemory (chars text.now) }
    ensures kept { result ≢ LITERAL → value.new ≡ value.old }
{
    match Literal::parse(alloc, text) {
        Ok(lit) => match nearest(alloc, &lit) {
            Some(Ok(number)) => {
                *value = number;
                LITERAL
            }
            Some(Err(_)) => OUT_OF_MEMORY,
            None => NO_NUMBER,
        },
        Err(e) => match e.kind() {
            ParseErrorKind::OutOfMemory => OUT_OF_MEMORY,
            _ => REFUSED,
        },
    }
}

/// Returns the float nearest to an integer or a float, or `None` for a literal of another kind.
fn nearest<F: FastFloat>(alloc: Global, lit: &Literal<&str>) -> Option<Result<F, AllocError>>
    ensures value { IfSome result (λ number. IfOk number (λ x.
        float_of F.format false (derivation lit.now) ≡ Some (F.value x))) }
    ensures memory { IfSome result (λ number. IfErr number (λ _. IsCopied (derivation lit.now))) }
    ensures none { IfNone result (float_of F.format false (derivation lit.now) ≡ None) }
{
    match lit {
        Literal::Float(lit) => Some(float(alloc, lit)),
        Literal::Integer(lit) => Some(integer_float(alloc, lit)),
        _ => None,
    }
}
