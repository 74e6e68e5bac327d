//! The types of floats.
ghost use Rattle.std.specs.Prelude.{◌≡◌, MatchOption};

use std::fmt;
use std::str::FromStr;

/// The two floating-point types that a suffix may name. See [the reference][ref].
///
/// [ref]: https://doc.rust-lang.org/reference/types/numeric.html#floating-point-types
#[derive(Clone, Copy, Debug, PartialEq, Eq)]
pub enum FloatType {
    /// `f32`: 32 bits, the format binary32 of IEEE 754.
    F32,
    /// `f64`: 64 bits, the format binary64 of IEEE 754.
    F64,
}

impl FloatType {
    ghost use Rattle.litrs_base.specs.FloatTypes.{float_type_name, NamesNoFloatType};

    /// Returns the type with the name `suffix`, for example `F32` for `f32`, or `None` if it is not
    /// the name of a floating-point type.
    pub fn from_suffix(suffix: &str) -> Option<FloatType>
        ensures { MatchOption result (NamesNoFloatType suffix.now)
            (λ t. float_type_name t ≡ suffix.now) }
    {
        match suffix {
            "f32" => Some(FloatType::F32),
            "f64" => Some(FloatType::F64),
            _ => None,
        }
    }

    /// Returns the name of this type, for example `f32` for `F32`.
    pub fn suffix(self) -> &'static str
        ensures { result.now ≡ float_type_name self }
    {
        match self {
            FloatType::F32 => "f32",
            FloatType::F64 => "f64",
        }
    }
}

impl FromStr for FloatType {
    type Err = ();

    ghost use Rattle.litrs_base.specs.FloatTypes.{float_type_name, NamesNoFloatType};
    ghost use Rattle.std.specs.Prelude.{MatchResult};

    ghost from_str_gives = { λ s r.
        MatchResult r (λ t. float_type_name t ≡ s) (λ _. NamesNoFloatType s) };

    fn from_str(s: &str) -> Result<FloatType, ()> {
        FloatType::from_suffix(s).ok_or(())
    }
}

impl fmt::Display for FloatType {
    ghost use Rattle.std.specs.Prelude.{Some};
    ghost use Rattle.litrs_base.specs.FloatTypes.{float_type_name};

    ghost output = { λ t. Some (float_type_name t) };

    fn fmt<W: fmt::Write>(&self, f: &mut fmt::Formatter<W>) -> fmt::Result {
        f.pad(self.suffix())
    }
}
