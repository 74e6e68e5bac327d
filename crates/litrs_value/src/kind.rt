//! The kinds of literals.
ghost use Rattle.std.specs.Prelude.{◌≡◌};
ghost use Rattle.litrs.specs.LiteralDerivation.{derivation};
ghost use Rattle.litrs_value.specs.Kinds.{kind_of_literal, is_number};

use litrs::{Literal, Text};
use std::fmt;

/// The kind of a literal. See [the reference][ref].
///
/// [ref]: https://doc.rust-lang.org/reference/tokens.html#literals
#[derive(Clone, Copy, Debug, PartialEq, Eq)]
pub enum LiteralKind {
    /// `true` or `false`.
    Bool,
    /// A number without a period and an exponent, such as `27`.
    Integer,
    /// A number with a period or an exponent, such as `1.5`.
    Float,
    /// A character, such as `'a'`.
    Char,
    /// A byte, such as `b'a'`.
    Byte,
    /// A string, such as `"a"` or `r"a"`.
    String,
    /// A byte string, such as `b"a"`.
    ByteString,
    /// A C string, such as `c"a"`.
    CString,
}

impl LiteralKind {
    /// Returns the kind of `literal`.
    pub fn of<B: Text>(literal: &Literal<B>) -> LiteralKind
        ensures { result ≡ kind_of_literal (derivation literal.now) }
    {
        match literal {
            Literal::Bool(_) => LiteralKind::Bool,
            Literal::Integer(_) => LiteralKind::Integer,
            Literal::Float(_) => LiteralKind::Float,
            Literal::Char(_) => LiteralKind::Char,
            Literal::Byte(_) => LiteralKind::Byte,
            Literal::String(_) => LiteralKind::String,
            Literal::ByteString(_) => LiteralKind::ByteString,
            Literal::CString(_) => LiteralKind::CString,
        }
    }

    /// Returns `true` for integers and floats, the kinds that may follow a minus sign.
    pub fn is_number(self) -> bool
        ensures { result ≡ is_number self }
    {
        matches!(self, LiteralKind::Integer | LiteralKind::Float)
    }
}

impl fmt::Display for LiteralKind {
    ghost use Rattle.std.specs.Prelude.{Some};
    ghost use Rattle.litrs_value.specs.ErrorText.{literal_kind_text};

    ghost output = { λ kind. Some (literal_kind_text kind) };

    fn fmt<W: fmt::Write>(&self, f: &mut fmt::Formatter<W>) -> fmt::Result {
        f.write_str(match self {
            LiteralKind::Bool => "a bool",
            LiteralKind::Integer => "an integer",
            LiteralKind::Float => "a float",
            LiteralKind::Char => "a char",
            LiteralKind::Byte => "a byte",
            LiteralKind::String => "a string",
            LiteralKind::ByteString => "a byte string",
            LiteralKind::CString => "a C string",
        })
    }
}
