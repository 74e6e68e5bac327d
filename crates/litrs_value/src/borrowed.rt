//! The values of strings, borrowed from their text.
ghost use Rattle.std.specs.Prelude.{◌≡◌, ◌↔◌, ◌⊎◌, Some, IsTrue, IfOk, IfErr};
ghost use Rattle.std.specs.Cow.{cow_str_bytes, IsOwnedStr};
ghost use Rattle.std.specs.Str.{chars};
ghost use Rattle.litrs.specs.Allocation.{allocates};
ghost use Rattle.litrs.specs.CharEnd.{IsCutBy};
ghost use Rattle.litrs.specs.Literal.{Derivation};
ghost use Rattle.litrs.specs.LiteralDerivation.{derivation};
ghost use Rattle.litrs_value.specs.Kinds.{accepts, kind_of_literal, Fits};
ghost use Rattle.litrs_value.specs.Reads.{is_negative, IsReadAs, IsValueError, marked};
ghost use Rattle.litrs_value.specs.Refuses.{HasValueOf, Refuses};
ghost use Rattle.litrs_value.specs.Values.{string_of};

use crate::error::ValueError;
use crate::reading::{cut_sign, refused};
use crate::type_check::check;
use crate::value_type::ValueType;
use litrs::{Buffer, Literal};
use std::alloc::Global;
use std::borrow::CowStr;

/// Reads a text that is one string. Returns its value, which is borrowed from `text` unless the
/// string is quoted and contains a backslash.
///
/// For example, `"a"` is the borrowed `a`, and `"a\n"` an owned text. It allocates only if the
/// parse does: for a quoted string or byte string with a backslash, and for a C string.
///
/// # Errors
///
/// Returns the errors of [`read`](crate::read) for a `String`, with [`Str`](ValueType::Str) as the
/// expected type.
pub fn read_str<'a>(alloc: Global, text: &'a str) -> Result<CowStr<'a>, ValueError>
    ensures value { IfOk result (λ value. (d : Derivation) × IsReadAs text.now d
        × HasValueOf ValueType.Str (is_negative text.now) d
        × (string_of d ≡ Some (cow_str_bytes value))
        × (IsOwnedStr value ↔ IsTrue (allocates d))) }
    ensures refused { IfErr result (IsValueError ValueType.Str text.now) }
    ensures marks { IfErr result (λ error.
        IsCutBy text.now (marked (chars text.now) error)) }
{
    let (negative, rest) = cut_sign(text);
    match Literal::parse(alloc, rest) {
        Ok(literal) => into_str(negative, literal),
        Err(error) => Err(refused(negative, rest, error)),
    }
}

/// Takes the value out of a string that is already parsed. Over `&str` it is borrowed from the text
/// unless the string is quoted and contains a backslash; over `String` it is owned. `negative` is
/// `true` if a minus sign precedes `literal`.
///
/// It does not allocate.
///
/// # Errors
///
/// Returns the first of `Kind`, `Sign` and `Suffix` that applies, with [`Str`](ValueType::Str) as
/// the expected type.
pub fn into_str<B: Buffer>(negative: bool, literal: Literal<B>) -> Result<B::Cow, ValueError>
    ensures value { IfOk result (λ value.
        string_of (derivation literal) ≡ Some (B.cow_bytes value)) }
    ensures owned { IfOk result (λ value.
        B.cow_owned value ↔ (IsTrue B.owns ⊎ IsTrue (allocates (derivation literal)))) }
    ensures fits { IfOk result (λ _. Fits ValueType.Str negative (derivation literal)) }
    ensures refused { IfErr result (Refuses ValueType.Str negative (derivation literal)) }
{
    check(ValueType::Str, negative, &literal)?;
    Ok(string_value(literal))
}

/// Takes the value out of a string.
fn string_value<B: Buffer>(literal: Literal<B>) -> B::Cow
    requires { IsTrue (accepts ValueType.Str (kind_of_literal (derivation literal))) }
    ensures value { string_of (derivation literal) ≡ Some (B.cow_bytes result) }
    ensures owned { B.cow_owned result ↔ (IsTrue B.owns ⊎ IsTrue (allocates (derivation literal))) }
{
    match literal {
        Literal::String(lit) => lit.into_value(),
        _ => unreachable!(),
    }
}
