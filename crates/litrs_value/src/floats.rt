//! The values of floats, and of integers at a float type.
ghost use Rattle.std.specs.Prelude.{◌≡◌, false, Some, IsTrue, IsFalse, IsOk, IfOk, IfErr, filter};
ghost use Rattle.std.specs.List.{list_all, list_any};
ghost use Rattle.std.specs.Float.Ieee.{round};
ghost use Rattle.std.specs.Float.Parse.{is_float_text, parse_float};
ghost use Rattle.litrs.specs.Float.{IsFloat, number_part, is_underscore};
ghost use Rattle.litrs.specs.FloatLiteral.{float_parts};
ghost use Rattle.litrs.specs.Base.{is_digit, is_digit_or_underscore};
ghost use Rattle.litrs.specs.Numeral.{numeral, is_no_underscore};
ghost use Rattle.litrs.specs.Integer.{IsInteger, integer_value};
ghost use Rattle.litrs.specs.IntegerLiteral.{integer_parts};
ghost use Rattle.litrs.specs.LiteralDerivation.{derivation};
ghost use Rattle.litrs_value.specs.FloatValue.{float_value};
ghost use Rattle.litrs_value.specs.Kinds.{Fits};
ghost use Rattle.litrs_value.specs.Refuses.{IsLargeWithUnderscore, Refuses};
ghost use Rattle.litrs_value.specs.Values.{format_of, float_of, with_sign};

use crate::error::ValueError;
use crate::leading::large_float;
use crate::type_check::{check, is_decimal};
use crate::value_type::ValueType;
use fast_float::FastFloat;
use litrs::{FloatLit, FloatType, IntegerBase, IntegerLit, Literal, Text};
use std::alloc::{AllocError, Global};

/// Returns the float nearest to a number, which may be infinite.
pub(crate) fn number<F: FastFloat>(
    alloc: Global,
    ty: FloatType,
    negative: bool,
    literal: &Literal<&str>,
) -> Result<F, ValueError>
    requires { format_of ty ≡ F.format }
    ensures value { IfOk result (λ x.
        float_of F.format negative (derivation literal.now) ≡ Some (F.value x)) }
    ensures fits { IfOk result (λ _.
        Fits (ValueType.Float ty) negative (derivation literal.now)) }
    ensures refused { IfErr result
        (Refuses (ValueType.Float ty) negative (derivation literal.now)) }
{
    let expected = ValueType::Float(ty);
    check(expected, negative, literal)?;
    match literal {
        Literal::Float(lit) => {
            let value: F = float(alloc, lit)?;
            Ok(with_sign(negative, value))
        }
        Literal::Integer(lit) => {
            let value: F = integer_float(alloc, lit)?;
            Ok(with_sign(negative, value))
        }
        _ => unreachable!(),
    }
}

fn with_sign<F: FastFloat>(negative: bool, value: F) -> F
    ensures { F.value result ≡ with_sign negative (F.value value) }
{
    if negative { value.negated() } else { value }
}

/// Returns the value of an integer literal as a float, whatever its suffix: the `f64`, or the
/// `f32`, nearest to it.
///
/// For example, `0x10u8` is 16. It is rounded once, ties to even, in any base and at any length; an
/// integer that is too large is infinite. It allocates only for an integer in base ten that has an
/// underscore and does not fit `u64`.
///
/// # Errors
///
/// Returns `AllocError` if there is no memory for the digits without underscores.
pub fn integer_float<F: FastFloat, B: Text>(
    alloc: Global,
    lit: &IntegerLit<B>,
) -> Result<F, AllocError>
    ensures value { IfOk result (λ x.
        F.value x ≡ round F.format false (integer_value (integer_parts lit.now)) 1) }
    ensures memory { IfErr result (λ _. IsLargeWithUnderscore (integer_parts lit.now)) }
{
    let digits = digits(lit);
    match lit.value::<u64>() {
        Some(value) => Ok(fast_float::from_parts(false, value, 0)),
        None if is_decimal(lit.base()) => decimal_float(alloc, digits),
        None => Ok(large_float(lit.base(), digits)),
    }
}

/// Returns the float nearest to an integer in base ten.
fn decimal_float<F: FastFloat>(alloc: Global, digits: &[u8]) -> Result<F, AllocError>
    requires digits { IsTrue (list_all (is_digit_or_underscore IntegerBase.Decimal) digits.now) }
    requires some_digit { IsTrue (list_any (is_digit IntegerBase.Decimal) digits.now) }
    ensures value { IfOk result (λ x.
        F.value x ≡ round F.format false (numeral 10 digits.now) 1) }
    ensures memory { IfErr result (λ _. IsTrue (list_any is_underscore digits.now)) }
{
    read_digits(alloc, digits)
}

/// Returns the digits and underscores of an integer.
fn digits<B: Text>(lit: &IntegerLit<B>) -> &[u8]
    ensures main { result.now ≡ (integer_parts lit.now).main }
    ensures integer { IsInteger (integer_parts lit.now) }
{
    let main = lit.raw_main_part();
    // Called for its contract: the parts are those of an integer.
    let _ = lit.raw_input();
    main.as_bytes()
}

/// Returns the value of a float literal, whatever its suffix: the `f64`, or the `f32`, nearest to
/// it.
///
/// For example, `1_0.5E-1f32` is 1.05. It is rounded once, ties to even; a number that is too
/// large, such as `1e400`, is infinite. It allocates only if there is an underscore. See
/// "Floating-point literal expressions" in [the reference][ref].
///
/// [ref]: https://doc.rust-lang.org/reference/expressions/literal-expr.html
///
/// # Errors
///
/// Returns `AllocError` if there is no memory for the digits without underscores.
pub fn float<F: FastFloat, B: Text>(alloc: Global, lit: &FloatLit<B>) -> Result<F, AllocError>
    ensures value { IfOk result (λ x.
        F.value x ≡ float_value F.format false (float_parts lit.now)) }
    ensures succeeds { IsFalse (list_any is_underscore (number_part (float_parts lit.now)))
        → IsOk result }
{
    read_digits(alloc, number_bytes(lit))
}

/// Parses a number as a float, without its underscores.
fn read_digits<F: FastFloat>(alloc: Global, part: &[u8]) -> Result<F, AllocError>
    requires { IsTrue (is_float_text (filter is_no_underscore part.now)) }
    ensures value { IfOk result (λ x.
        parse_float F.format (filter is_no_underscore part.now) ≡ Some (F.value x)) }
    ensures succeeds { IsFalse (list_any is_underscore part.now) → IsOk result }
{
    if has_underscore(part) {
        let digits = without_underscores(alloc, part)?;
        Ok(nearest(digits.as_slice()))
    } else {
        Ok(nearest(part))
    }
}

fn number_bytes<B: Text>(lit: &FloatLit<B>) -> &[u8]
    ensures part { result.now ≡ number_part (float_parts lit.now) }
    ensures float { IsFloat (float_parts lit.now) }
{
    let part = lit.number_part();
    // Called for its contract: the parts are those of a float.
    let _ = lit.raw_input();
    part.as_bytes()
}

fn has_underscore(part: &[u8]) -> bool
    ensures { result ≡ list_any is_underscore part.now }
{
    part.iter().any(|byte| *byte == b'_')
}

fn without_underscores(alloc: Global, part: &[u8]) -> Result<Vec<u8>, AllocError>
    ensures { IfOk result (λ digits. digits.items ≡ filter is_no_underscore part.now) }
{
    let mut digits = Vec::from_slice(alloc, part)?;
    digits.retain(|byte| *byte != b'_');
    Ok(digits)
}

/// Parses a number as a float.
fn nearest<F: FastFloat>(text: &[u8]) -> F
    requires { IsTrue (is_float_text text.now) }
    ensures { parse_float F.format text.now ≡ Some (F.value result) }
{
    match fast_float::parse(text) {
        Ok(x) => x,
        Err(_) => unreachable!(),
    }
}
