//! The fields of a literal.
ghost use Rattle.std.specs.Prelude.{◌≡◌, ◌+◌, ◌*◌, ◌^◌, ◌<◌, true, length};
ghost use Rattle.std.specs.Str.{chars};
ghost use Rattle.litrs_grammar.specs.Literal.{an_integer, a_float};
ghost use Rattle.litrs.specs.IntegerLiteral.{integer_parts};
ghost use Rattle.litrs.specs.FloatLiteral.{float_parts};
ghost use Rattle.litrs.specs.LiteralDerivation.{derivation, literal_raw};
ghost use Rattle.litrs_c.specs.Places.{fraction_place, exponent_place, place_of, IsSuffixPlace};
ghost use Rattle.litrs_c.specs.LiteralFields.{IsLiteralFields};

use crate::{LiteralFields, Place};
use litrs::{FloatLit, IntegerLit, Literal};

/// `enum litrs_kind`.
const BOOL: u32 = 1;

const INTEGER: u32 = 2;

const FLOAT: u32 = 3;

const CHAR: u32 = 4;

const BYTE: u32 = 5;

const STRING: u32 = 6;

const BYTE_STRING: u32 = 7;

const C_STRING: u32 = 8;

/// 2^64, the number of values of half a `u128`.
pub(crate) const HALF: u128 = 0x1_0000_0000_0000_0000;

/// The place of a part that is missing.
pub(crate) const NOWHERE: Place = Place { start: 0, end: 0 };

/// The fields for a text that is not a literal.
pub(crate) const NO_LITERAL: LiteralFields = LiteralFields {
    kind: 0,
    base: 0,
    is_raw: false,
    has_fraction: false,
    has_value: false,
    value_low: 0,
    value_high: 0,
    main: NOWHERE,
    fraction: NOWHERE,
    exponent: NOWHERE,
    suffix: NOWHERE,
};

/// Writes the fields of `lit` to `fields`. Each kind writes all of them in place.
#[inline(always)]
pub(crate) fn write_literal_fields(lit: &Literal<&str>, fields: &mut LiteralFields)
    ensures { IsLiteralFields (length (literal_raw lit.now)) (derivation lit.now) fields.new }
{
    let suffix = suffix_place(lit);
    match lit {
        Literal::Bool(lit) => *fields = value_fields(BOOL, u64::from(lit.value()), suffix),
        Literal::Integer(lit) => *fields = integer_fields(lit, suffix),
        Literal::Float(lit) => *fields = float_fields(lit, suffix),
        Literal::Char(lit) => {
            *fields = value_fields(CHAR, u64::from(u32::from(lit.value())), suffix);
        }
        Literal::Byte(lit) => *fields = value_fields(BYTE, u64::from(lit.value()), suffix),
        Literal::String(lit) => *fields = string_fields(STRING, lit.is_raw_string(), suffix),
        Literal::ByteString(lit) => {
            *fields = string_fields(BYTE_STRING, lit.is_raw_byte_string(), suffix);
        }
        Literal::CString(lit) => *fields = string_fields(C_STRING, lit.is_raw_c_string(), suffix),
    }
}

#[inline(always)]
fn suffix_place(lit: &Literal<&str>) -> Place
    ensures { IsSuffixPlace (length (literal_raw lit.now)) (derivation lit.now) result }
{
    let end = lit.raw_input().len();
    Place {
        start: end - lit.suffix().len(),
        end,
    }
}

/// Returns the fields of a literal with a value that fits 64 bits and no part except the suffix.
#[inline(always)]
fn value_fields(kind: u32, value: u64, suffix: Place) -> LiteralFields
    ensures { result ≡ record NO_LITERAL {
      kind = kind;
      has_value = true;
      value_low = value;
      suffix = suffix;
    } }
{
    LiteralFields {
        kind,
        has_value: true,
        value_low: value,
        suffix,
        ..NO_LITERAL
    }
}

/// Returns the fields of a string of one of the three kinds.
#[inline(always)]
fn string_fields(kind: u32, is_raw: bool, suffix: Place) -> LiteralFields
    ensures { result ≡ record NO_LITERAL { kind = kind; is_raw = is_raw; suffix = suffix } }
{
    LiteralFields {
        kind,
        is_raw,
        suffix,
        ..NO_LITERAL
    }
}

#[inline(always)]
fn integer_fields(lit: &IntegerLit<&str>, suffix: Place) -> LiteralFields
    requires { IsSuffixPlace (length lit.now.raw) (an_integer (integer_parts lit.now)) suffix }
    ensures { IsLiteralFields (length lit.now.raw) (an_integer (integer_parts lit.now)) result }
{
    // The address of this copy is passed to `value`. So the literal itself stays in registers, and
    // no memory is cleared for it in the calls for other texts.
    let lit = lit.copied();
    let value = lit.value::<u128>();
    let (value_low, value_high) = halves(value.unwrap_or(0));
    LiteralFields {
        kind: INTEGER,
        base: u32::from(lit.base().value()),
        has_value: value.is_some(),
        value_low,
        value_high,
        main: place_of(lit.base().prefix().len(), lit.raw_main_part()),
        suffix,
        ..NO_LITERAL
    }
}

/// Returns the value modulo 2^64, and divided by it.
fn halves(value: u128) -> (u64, u64)
    ensures { result.0 + 2 ^ 64 * result.1 ≡ value }
{
    ((value % HALF) as u64, (value / HALF) as u64)
}

/// Returns the place of a part that starts at `start`.
fn place_of(start: usize, part: &str) -> Place
    requires { start + length part.now < 2 ^ 64 }
    ensures { result ≡ place_of start (chars part.now) }
{
    Place {
        start,
        end: start + part.len(),
    }
}

#[inline(always)]
fn float_fields(lit: &FloatLit<&str>, suffix: Place) -> LiteralFields
    requires { IsSuffixPlace (length lit.now.raw) (a_float (float_parts lit.now)) suffix }
    ensures { IsLiteralFields (length lit.now.raw) (a_float (float_parts lit.now)) result }
{
    LiteralFields {
        kind: FLOAT,
        has_fraction: lit.fractional_part().is_some(),
        main: place_of(0, lit.integer_part()),
        fraction: fraction_place(lit),
        exponent: exponent_place(lit),
        suffix,
        ..NO_LITERAL
    }
}

/// Returns the place of the digits after the period.
fn fraction_place(lit: &FloatLit<&str>) -> Place
    ensures { result ≡ fraction_place (a_float (float_parts lit.now)) }
{
    match lit.fractional_part() {
        Some(digits) => place_of(lit.integer_part().len() + 1, digits),
        None => NOWHERE,
    }
}

fn exponent_place(lit: &FloatLit<&str>) -> Place
    ensures { result ≡ exponent_place (a_float (float_parts lit.now)) }
{
    let end = lit.number_part().len();
    Place {
        start: end - lit.exponent_part().len(),
        end,
    }
}
