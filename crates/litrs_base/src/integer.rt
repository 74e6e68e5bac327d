//! The bases and the types of integers.
ghost use Rattle.std.specs.Prelude.{◌≡◌, MatchOption};
ghost use Rattle.litrs_base.specs.Base.{base_value};

use std::fmt;
use std::str::FromStr;

/// The bases of integers. See [the reference][ref].
///
/// [ref]: https://doc.rust-lang.org/reference/tokens.html#integer-literals
#[derive(Clone, Copy, Debug, PartialEq, Eq)]
pub enum IntegerBase {
    /// Two, with the prefix `0b`.
    Binary,
    /// Eight, with the prefix `0o`.
    Octal,
    /// Ten, without a prefix.
    Decimal,
    /// Sixteen, with the prefix `0x`.
    Hexadecimal,
}

impl IntegerBase {
    ghost use Rattle.litrs_base.specs.Base.{prefix};

    /// Returns the prefix of this base: `0b`, `0o`, the empty text or `0x`.
    pub fn prefix(self) -> &'static str
        ensures { result.now ≡ prefix self }
    {
        match self {
            IntegerBase::Binary => "0b",
            IntegerBase::Octal => "0o",
            IntegerBase::Decimal => "",
            IntegerBase::Hexadecimal => "0x",
        }
    }

    /// Returns this base as a number: 2, 8, 10 or 16.
    pub fn value(self) -> u8
        ensures { result ≡ base_value self }
    {
        match self {
            IntegerBase::Binary => 2,
            IntegerBase::Octal => 8,
            IntegerBase::Decimal => 10,
            IntegerBase::Hexadecimal => 16,
        }
    }
}

/// The twelve integer types that a suffix may name. See [the reference][ref].
///
/// [ref]: https://doc.rust-lang.org/reference/types/numeric.html#integer-types
#[derive(Clone, Copy, Debug, PartialEq, Eq)]
pub enum IntegerType {
    /// `u8`: 8 bits, without a sign.
    U8,
    /// `u16`: 16 bits, without a sign.
    U16,
    /// `u32`: 32 bits, without a sign.
    U32,
    /// `u64`: 64 bits, without a sign.
    U64,
    /// `u128`: 128 bits, without a sign.
    U128,
    /// `usize`: as many bits as an address, without a sign.
    Usize,
    /// `i8`: 8 bits, with a sign.
    I8,
    /// `i16`: 16 bits, with a sign.
    I16,
    /// `i32`: 32 bits, with a sign.
    I32,
    /// `i64`: 64 bits, with a sign.
    I64,
    /// `i128`: 128 bits, with a sign.
    I128,
    /// `isize`: as many bits as an address, with a sign.
    Isize,
}

impl IntegerType {
    ghost use Rattle.litrs_base.specs.IntegerTypes.{type_name, NamesNoType};

    /// Returns the type with the name `suffix`, for example `U8` for `u8`, or `None` if it is not
    /// the name of an integer type.
    pub fn from_suffix(suffix: &str) -> Option<IntegerType>
        ensures { MatchOption result (NamesNoType suffix.now) (λ t. type_name t ≡ suffix.now) }
    {
        match suffix {
            "u8" => Some(IntegerType::U8),
            "u16" => Some(IntegerType::U16),
            "u32" => Some(IntegerType::U32),
            "u64" => Some(IntegerType::U64),
            "u128" => Some(IntegerType::U128),
            "usize" => Some(IntegerType::Usize),
            "i8" => Some(IntegerType::I8),
            "i16" => Some(IntegerType::I16),
            "i32" => Some(IntegerType::I32),
            "i64" => Some(IntegerType::I64),
            "i128" => Some(IntegerType::I128),
            "isize" => Some(IntegerType::Isize),
            _ => None,
        }
    }

    /// Returns the name of this type, for example `u8` for `U8`.
    pub fn suffix(self) -> &'static str
        ensures { result.now ≡ type_name self }
    {
        match self {
            IntegerType::U8 => "u8",
            IntegerType::U16 => "u16",
            IntegerType::U32 => "u32",
            IntegerType::U64 => "u64",
            IntegerType::U128 => "u128",
            IntegerType::Usize => "usize",
            IntegerType::I8 => "i8",
            IntegerType::I16 => "i16",
            IntegerType::I32 => "i32",
            IntegerType::I64 => "i64",
            IntegerType::I128 => "i128",
            IntegerType::Isize => "isize",
        }
    }
}

impl FromStr for IntegerType {
    type Err = ();

    ghost use Rattle.litrs_base.specs.IntegerTypes.{type_name, NamesNoType};
    ghost use Rattle.std.specs.Prelude.{MatchResult};

    ghost from_str_gives = { λ s r. MatchResult r (λ t. type_name t ≡ s) (λ _. NamesNoType s) };

    fn from_str(s: &str) -> Result<IntegerType, ()> {
        IntegerType::from_suffix(s).ok_or(())
    }
}

impl fmt::Display for IntegerType {
    ghost use Rattle.std.specs.Prelude.{Some};
    ghost use Rattle.litrs_base.specs.IntegerTypes.{type_name};

    ghost output = { λ t. Some (type_name t) };

    fn fmt<W: fmt::Write>(&self, f: &mut fmt::Formatter<W>) -> fmt::Result {
        f.pad(self.suffix())
    }
}
