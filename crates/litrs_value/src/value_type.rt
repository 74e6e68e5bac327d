//! The types that a literal can be read as.
ghost use Rattle.std.specs.Prelude.{◌≡◌};
ghost use Rattle.litrs_value.specs.Kinds.{accepts};

use crate::kind::LiteralKind;
use litrs::{FloatType, IntegerType};
use std::fmt;

/// A type that a literal can be read as.
#[derive(Clone, Copy, Debug, PartialEq, Eq)]
pub enum ValueType {
    /// `bool`, the type of a bool.
    Bool,
    /// An integer type, for an integer; `u8` also for a byte.
    Integer(IntegerType),
    /// `f32` or `f64`, for a float or an integer.
    Float(FloatType),
    /// `char`, the type of a char.
    Char,
    /// `String`, for a string.
    String,
    /// `&str`, for a string: the type of [`read_str`](crate::read_str).
    Str,
    /// `Vec<u8>`, for a byte string or a C string.
    Bytes,
    /// `CString`, for a C string.
    CString,
}

impl ValueType {
    /// Returns `true` if a literal of `kind` can be read as this type.
    pub fn accepts(self, kind: LiteralKind) -> bool
        ensures { result ≡ accepts self kind }
    {
        match self {
            ValueType::Bool => matches!(kind, LiteralKind::Bool),
            ValueType::Integer(IntegerType::U8) => {
                matches!(kind, LiteralKind::Integer | LiteralKind::Byte)
            }
            ValueType::Integer(_) => matches!(kind, LiteralKind::Integer),
            ValueType::Float(_) => matches!(kind, LiteralKind::Integer | LiteralKind::Float),
            ValueType::Char => matches!(kind, LiteralKind::Char),
            ValueType::String | ValueType::Str => matches!(kind, LiteralKind::String),
            ValueType::Bytes => matches!(kind, LiteralKind::ByteString | LiteralKind::CString),
            ValueType::CString => matches!(kind, LiteralKind::CString),
        }
    }
}

impl fmt::Display for ValueType {
    ghost use Rattle.std.specs.Prelude.{Some};
    ghost use Rattle.litrs_value.specs.ErrorText.{value_type_text};

    ghost output = { λ ty. Some (value_type_text ty) };

    fn fmt<W: fmt::Write>(&self, f: &mut fmt::Formatter<W>) -> fmt::Result {
        match self {
            ValueType::Bool => f.write_str("bool"),
            ValueType::Integer(ty) => f.write_str(ty.suffix()),
            ValueType::Float(ty) => f.write_str(ty.suffix()),
            ValueType::Char => f.write_str("char"),
            ValueType::String => f.write_str("String"),
            ValueType::Str => f.write_str("&str"),
            ValueType::Bytes => f.write_str("Vec<u8>"),
            ValueType::CString => f.write_str("CString"),
        }
    }
}
