//! The values of byte strings and C strings.
ghost use Rattle.std.specs.Prelude.{◌≡◌, Some, IsTrue};
ghost use Rattle.litrs.specs.LiteralDerivation.{derivation};
ghost use Rattle.litrs_value.specs.Kinds.{accepts, kind_of_literal};
ghost use Rattle.litrs_value.specs.Values.{bytes_of};

use crate::value_type::ValueType;
use litrs::Literal;

/// Returns the bytes of a byte string, or those of a C string without its closing zero.
pub(crate) fn bytes<'a>(literal: &'a Literal<&str>) -> &'a [u8]
    requires { IsTrue (accepts ValueType.Bytes (kind_of_literal (derivation literal.now))) }
    ensures { bytes_of (derivation literal.now) ≡ Some result.now }
{
    match literal {
        Literal::ByteString(lit) => lit.value(),
        Literal::CString(lit) => lit.value().to_bytes(),
        _ => unreachable!(),
    }
}
