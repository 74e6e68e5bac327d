//! The numbers of integers.
ghost use Rattle.std.specs.Prelude.{◌≡◌, ◌↔◌, Some, IsTrue, IfOk, IfErr};
ghost use Rattle.std.specs.Option.{SomeIff};
ghost use Rattle.litrs.specs.Integer.{integer_value};
ghost use Rattle.litrs.specs.IntegerLiteral.{integer_parts};
ghost use Rattle.litrs.specs.LiteralDerivation.{derivation};
ghost use Rattle.litrs.specs.Numeral.{greatest_of, IsNumberOf};
ghost use Rattle.litrs_value.specs.Kinds.{Fits};
ghost use Rattle.litrs_value.specs.Refuses.{Refuses};
ghost use Rattle.litrs_value.specs.Values.{signed, number_of, least_magnitude};

use crate::error::ValueError;
use crate::type_check::check;
use crate::value_type::ValueType;
use litrs::{IntegerLit, IntegerType, Literal};

/// Returns the magnitude of an integer or a byte, whose number with this sign fits the type.
pub(crate) fn integer(
    ty: IntegerType,
    negative: bool,
    literal: &Literal<&str>,
) -> Result<u128, ValueError>
    ensures number { IfOk result (λ magnitude.
        number_of negative (derivation literal.now) ≡ Some (signed negative magnitude)) }
    ensures range { IfOk result (λ magnitude. IsNumberOf ty (signed negative magnitude)) }
    ensures fits { IfOk result (λ _.
        Fits (ValueType.Integer ty) negative (derivation literal.now)) }
    ensures refused { IfErr result
        (Refuses (ValueType.Integer ty) negative (derivation literal.now)) }
{
    let expected = ValueType::Integer(ty);
    check(expected, negative, literal)?;
    match literal {
        Literal::Integer(lit) => match magnitude_in_range(ty, negative, lit) {
            Some(magnitude) => Ok(magnitude),
            None => Err(ValueError::OutOfRange { expected }),
        },
        Literal::Byte(lit) => Ok(u128::from(lit.value())),
        _ => unreachable!(),
    }
}

/// Returns the magnitude of an integer, or `None` if the number with this sign does not fit the
/// type.
fn magnitude_in_range(ty: IntegerType, negative: bool, lit: &IntegerLit<&str>) -> Option<u128>
    ensures { let magnitude = integer_value (integer_parts lit.now) in
        SomeIff result (IsNumberOf ty (signed negative magnitude)) magnitude }
{
    let magnitude = lit.value::<u128>()?;
    if is_in_range(ty, negative, magnitude) {
        Some(magnitude)
    } else {
        None
    }
}

/// Returns `true` if the number of this magnitude with this sign fits the type.
fn is_in_range(ty: IntegerType, negative: bool, magnitude: u128) -> bool
    ensures { IsTrue result ↔ IsNumberOf ty (signed negative magnitude) }
{
    if negative {
        magnitude <= least_magnitude(ty)
    } else {
        magnitude <= greatest(ty)
    }
}

/// Returns the magnitude of the least number of the type.
fn least_magnitude(ty: IntegerType) -> u128
    ensures { result ≡ least_magnitude ty }
{
    match ty {
        IntegerType::I8 => 1 << 7,
        IntegerType::I16 => 1 << 15,
        IntegerType::I32 => 1 << 31,
        IntegerType::I64 => 1 << 63,
        IntegerType::I128 => 1 << 127,
        IntegerType::Isize => 1 << 63,
        _ => 0,
    }
}

/// Returns the greatest number of the type.
fn greatest(ty: IntegerType) -> u128
    ensures { result ≡ greatest_of ty }
{
    match ty {
        IntegerType::U8 => (1 << 8) - 1,
        IntegerType::U16 => (1 << 16) - 1,
        IntegerType::U32 => (1 << 32) - 1,
        IntegerType::U64 => (1 << 64) - 1,
        IntegerType::U128 => u128::MAX,
        IntegerType::Usize => (1 << 64) - 1,
        IntegerType::I8 => (1 << 7) - 1,
        IntegerType::I16 => (1 << 15) - 1,
        IntegerType::I32 => (1 << 31) - 1,
        IntegerType::I64 => (1 << 63) - 1,
        IntegerType::I128 => (1 << 127) - 1,
        IntegerType::Isize => (1 << 63) - 1,
    }
}

/// Returns the number of this magnitude with this sign.
pub(crate) fn signed(negative: bool, magnitude: u128) -> i128
    requires { IsNumberOf IntegerType.I128 (signed negative magnitude) }
    ensures { result ≡ signed negative magnitude }
{
    if !negative {
        magnitude as i128
    } else if magnitude == 0 {
        0
    } else {
        -((magnitude - 1) as i128) - 1
    }
}
