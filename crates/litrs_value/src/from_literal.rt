//! The types that literals can be read as.
ghost use Rattle.std.specs.Prelude.{◌≡◌, Bool, Some, pos, IfOk, IfErr, string_bytes};
ghost use Rattle.std.specs.Float.{binary32, binary64};
ghost use Rattle.litrs.specs.Literal.{Derivation};
ghost use Rattle.litrs.specs.LiteralDerivation.{derivation};
ghost use Rattle.litrs.specs.declared.IntegerType.TheVariants.{U8, U16, U32, U64, U128, Usize, I8, I16, I32, I64, I128, Isize};
ghost use Rattle.litrs.specs.declared.FloatType.TheVariants.{F32, F64};
ghost use Rattle.litrs_value.specs.Kinds.{Fits};
ghost use Rattle.litrs_value.specs.Refuses.{IsInRange, Refuses};
ghost use Rattle.litrs_value.specs.Values.{number_of, float_of, flag_of, char_of, string_of, bytes_of, c_string_of};
ghost use Rattle.litrs_value.specs.declared.value_type.ValueType.TheVariants.{Bool as bool_type, Integer as integer_type, Float as float_type, Char as char_type, String as string_type, Bytes as bytes_type, CString as c_string_type};
ghost use Rattle.litrs_value.specs.declared.value_type.ValueType as types;

use crate::error::ValueError;
use crate::floats::number;
use crate::integers::{integer, signed};
use crate::strings::bytes;
use crate::type_check::check;
use crate::value_type::ValueType;
use litrs::{CString, FloatType, IntegerType, Literal};
use std::alloc::Global;

mod sealed {
    /// A trait that other crates cannot implement.
    pub trait Sealed {}
}

/// A type that literals can be read as: `bool`, the twelve integer types, `f32`, `f64`, `char`,
/// `String`, `Vec<u8>` and [`CString`].
///
/// It is sealed: its contract names the kinds and suffixes of each type, which no type outside can
/// add to.
pub trait FromLiteral: sealed::Sealed + Sized {
    /// The type.
    ghost value_type: { types.ValueType };

    /// The value is that of the literal, with a minus sign before it if the `Bool` is true.
    ghost is_value: { Bool → Derivation → Self → Type 0 };

    /// Returns the value of `literal`, which may be part of a longer text. `negative` is `true` if
    /// a minus sign precedes it.
    ///
    /// # Errors
    ///
    /// Returns the first of `Kind`, `Sign`, `Suffix` and `OutOfRange` that applies, or `Memory`.
    fn from_literal(
        alloc: Global,
        negative: bool,
        literal: &Literal<&str>,
    ) -> Result<Self, ValueError>
        ensures value { IfOk result (is_value negative (derivation literal.now)) }
        ensures fits { IfOk result (λ _. Fits value_type negative (derivation literal.now)) }
        ensures range { IfOk result (λ _. IsInRange value_type negative (derivation literal.now)) }
        ensures refused { IfErr result (Refuses value_type negative (derivation literal.now)) };
}

impl sealed::Sealed for bool {}

impl FromLiteral for bool {
    ghost value_type = { bool_type };

    ghost is_value = { λ _ d value. flag_of d ≡ Some value };

    fn from_literal(
        alloc: Global,
        negative: bool,
        literal: &Literal<&str>,
    ) -> Result<bool, ValueError> {
        check(ValueType::Bool, negative, literal)?;
        match literal {
            Literal::Bool(lit) => Ok(lit.value()),
            _ => unreachable!(),
        }
    }
}

impl sealed::Sealed for char {}

impl FromLiteral for char {
    ghost value_type = { char_type };

    ghost is_value = { λ _ d value. char_of d ≡ Some value };

    fn from_literal(
        alloc: Global,
        negative: bool,
        literal: &Literal<&str>,
    ) -> Result<char, ValueError> {
        check(ValueType::Char, negative, literal)?;
        match literal {
            Literal::Char(lit) => Ok(lit.value()),
            _ => unreachable!(),
        }
    }
}

impl sealed::Sealed for String {}

impl FromLiteral for String {
    ghost value_type = { string_type };

    ghost is_value = { λ _ d value. string_of d ≡ Some (string_bytes value) };

    fn from_literal(
        alloc: Global,
        negative: bool,
        literal: &Literal<&str>,
    ) -> Result<String, ValueError> {
        check(ValueType::String, negative, literal)?;
        match literal {
            Literal::String(lit) => Ok(String::from_str(alloc, lit.value())?),
            _ => unreachable!(),
        }
    }
}

impl sealed::Sealed for Vec<u8> {}

impl FromLiteral for Vec<u8> {
    ghost value_type = { bytes_type };

    ghost is_value = { λ _ d value. bytes_of d ≡ Some value.items };

    fn from_literal(
        alloc: Global,
        negative: bool,
        literal: &Literal<&str>,
    ) -> Result<Vec<u8>, ValueError> {
        check(ValueType::Bytes, negative, literal)?;
        Ok(Vec::from_slice(alloc, bytes(literal))?)
    }
}

impl sealed::Sealed for CString {}

impl FromLiteral for CString {
    ghost value_type = { c_string_type };

    ghost is_value = { λ _ d value. c_string_of d ≡ Some value };

    fn from_literal(
        alloc: Global,
        negative: bool,
        literal: &Literal<&str>,
    ) -> Result<CString, ValueError> {
        check(ValueType::CString, negative, literal)?;
        match literal {
            Literal::CString(lit) => Ok(lit.value().clone(alloc)?),
            _ => unreachable!(),
        }
    }
}

impl sealed::Sealed for f32 {}

impl FromLiteral for f32 {
    ghost value_type = { float_type F32 };

    ghost is_value = { λ negative d value. float_of binary32 negative d ≡ Some value };

    fn from_literal(
        alloc: Global,
        negative: bool,
        literal: &Literal<&str>,
    ) -> Result<f32, ValueError> {
        let value: f32 = number(alloc, FloatType::F32, negative, literal)?;
        if value.is_finite() {
            Ok(value)
        } else {
            let expected = ValueType::Float(FloatType::F32);
            Err(ValueError::OutOfRange { expected })
        }
    }
}

impl sealed::Sealed for f64 {}

impl FromLiteral for f64 {
    ghost value_type = { float_type F64 };

    ghost is_value = { λ negative d value. float_of binary64 negative d ≡ Some value };

    fn from_literal(
        alloc: Global,
        negative: bool,
        literal: &Literal<&str>,
    ) -> Result<f64, ValueError> {
        let value: f64 = number(alloc, FloatType::F64, negative, literal)?;
        if value.is_finite() {
            Ok(value)
        } else {
            let expected = ValueType::Float(FloatType::F64);
            Err(ValueError::OutOfRange { expected })
        }
    }
}

impl sealed::Sealed for u8 {}

impl FromLiteral for u8 {
    ghost value_type = { integer_type U8 };

    ghost is_value = { λ negative d value. number_of negative d ≡ Some (pos value) };

    fn from_literal(
        alloc: Global,
        negative: bool,
        literal: &Literal<&str>,
    ) -> Result<u8, ValueError> {
        let magnitude = integer(IntegerType::U8, negative, literal)?;
        Ok(magnitude as u8)
    }
}

impl sealed::Sealed for u16 {}

impl FromLiteral for u16 {
    ghost value_type = { integer_type U16 };

    ghost is_value = { λ negative d value. number_of negative d ≡ Some (pos value) };

    fn from_literal(
        alloc: Global,
        negative: bool,
        literal: &Literal<&str>,
    ) -> Result<u16, ValueError> {
        let magnitude = integer(IntegerType::U16, negative, literal)?;
        Ok(magnitude as u16)
    }
}

impl sealed::Sealed for u32 {}

impl FromLiteral for u32 {
    ghost value_type = { integer_type U32 };

    ghost is_value = { λ negative d value. number_of negative d ≡ Some (pos value) };

    fn from_literal(
        alloc: Global,
        negative: bool,
        literal: &Literal<&str>,
    ) -> Result<u32, ValueError> {
        let magnitude = integer(IntegerType::U32, negative, literal)?;
        Ok(magnitude as u32)
    }
}

impl sealed::Sealed for u64 {}

impl FromLiteral for u64 {
    ghost value_type = { integer_type U64 };

    ghost is_value = { λ negative d value. number_of negative d ≡ Some (pos value) };

    fn from_literal(
        alloc: Global,
        negative: bool,
        literal: &Literal<&str>,
    ) -> Result<u64, ValueError> {
        let magnitude = integer(IntegerType::U64, negative, literal)?;
        Ok(magnitude as u64)
    }
}

impl sealed::Sealed for u128 {}

impl FromLiteral for u128 {
    ghost value_type = { integer_type U128 };

    ghost is_value = { λ negative d value. number_of negative d ≡ Some (pos value) };

    fn from_literal(
        alloc: Global,
        negative: bool,
        literal: &Literal<&str>,
    ) -> Result<u128, ValueError> {
        let magnitude = integer(IntegerType::U128, negative, literal)?;
        Ok(magnitude)
    }
}

impl sealed::Sealed for usize {}

impl FromLiteral for usize {
    ghost value_type = { integer_type Usize };

    ghost is_value = { λ negative d value. number_of negative d ≡ Some (pos value) };

    fn from_literal(
        alloc: Global,
        negative: bool,
        literal: &Literal<&str>,
    ) -> Result<usize, ValueError> {
        let magnitude = integer(IntegerType::Usize, negative, literal)?;
        Ok(magnitude as usize)
    }
}

impl sealed::Sealed for i8 {}

impl FromLiteral for i8 {
    ghost value_type = { integer_type I8 };

    ghost is_value = { λ negative d value. number_of negative d ≡ Some value };

    fn from_literal(
        alloc: Global,
        negative: bool,
        literal: &Literal<&str>,
    ) -> Result<i8, ValueError> {
        let magnitude = integer(IntegerType::I8, negative, literal)?;
        Ok(signed(negative, magnitude) as i8)
    }
}

impl sealed::Sealed for i16 {}

impl FromLiteral for i16 {
    ghost value_type = { integer_type I16 };

    ghost is_value = { λ negative d value. number_of negative d ≡ Some value };

    fn from_literal(
        alloc: Global,
        negative: bool,
        literal: &Literal<&str>,
    ) -> Result<i16, ValueError> {
        let magnitude = integer(IntegerType::I16, negative, literal)?;
        Ok(signed(negative, magnitude) as i16)
    }
}

impl sealed::Sealed for i32 {}

impl FromLiteral for i32 {
    ghost value_type = { integer_type I32 };

    ghost is_value = { λ negative d value. number_of negative d ≡ Some value };

    fn from_literal(
        alloc: Global,
        negative: bool,
        literal: &Literal<&str>,
    ) -> Result<i32, ValueError> {
        let magnitude = integer(IntegerType::I32, negative, literal)?;
        Ok(signed(negative, magnitude) as i32)
    }
}

impl sealed::Sealed for i64 {}

impl FromLiteral for i64 {
    ghost value_type = { integer_type I64 };

    ghost is_value = { λ negative d value. number_of negative d ≡ Some value };

    fn from_literal(
        alloc: Global,
        negative: bool,
        literal: &Literal<&str>,
    ) -> Result<i64, ValueError> {
        let magnitude = integer(IntegerType::I64, negative, literal)?;
        Ok(signed(negative, magnitude) as i64)
    }
}

impl sealed::Sealed for i128 {}

impl FromLiteral for i128 {
    ghost value_type = { integer_type I128 };

    ghost is_value = { λ negative d value. number_of negative d ≡ Some value };

    fn from_literal(
        alloc: Global,
        negative: bool,
        literal: &Literal<&str>,
    ) -> Result<i128, ValueError> {
        let magnitude = integer(IntegerType::I128, negative, literal)?;
        Ok(signed(negative, magnitude))
    }
}

impl sealed::Sealed for isize {}

impl FromLiteral for isize {
    ghost value_type = { integer_type Isize };

    ghost is_value = { λ negative d value. number_of negative d ≡ Some value };

    fn from_literal(
        alloc: Global,
        negative: bool,
        literal: &Literal<&str>,
    ) -> Result<isize, ValueError> {
        let magnitude = integer(IntegerType::Isize, negative, literal)?;
        Ok(signed(negative, magnitude) as isize)
    }
}
