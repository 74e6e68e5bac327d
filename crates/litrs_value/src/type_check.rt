//! Tests of whether a literal can be read as a type: by its kind, its sign and its suffix.
ghost use Rattle.std.specs.Prelude.{◌≡◌, ◌↔◌, IsTrue, IfOk, IfErr};
ghost use Rattle.litrs.specs.Literal.{suffix_of};
ghost use Rattle.litrs.specs.LiteralDerivation.{derivation};
ghost use Rattle.litrs.specs.Text.{byte_len};
ghost use Rattle.litrs_value.specs.Kinds.{is_decimal, suffix_for, HasSuffixFor, Fits};
ghost use Rattle.litrs_value.specs.Refuses.{Refuses};

use crate::error::ValueError;
use crate::kind::LiteralKind;
use crate::value_type::ValueType;
use litrs::{IntegerBase, Literal, Text};

/// Checks the kind, the sign and the suffix of a literal.
pub(crate) fn check<B: Text>(
    expected: ValueType,
    negative: bool,
    literal: &Literal<B>,
) -> Result<(), ValueError>
    ensures fits { IfOk result (λ _. Fits expected negative (derivation literal.now)) }
    ensures refused { IfErr result (Refuses expected negative (derivation literal.now)) }
{
    let found = LiteralKind::of(literal);
    if !expected.accepts(found) {
        return Err(ValueError::Kind { expected, found });
    }
    if negative && !found.is_number() {
        return Err(ValueError::Sign { found });
    }
    if !has_suffix_for(expected, literal) {
        let len = suffix_len(literal);
        return Err(ValueError::Suffix { expected, len });
    }
    Ok(())
}

/// Returns the length of the suffix, in bytes.
fn suffix_len<B: Text>(literal: &Literal<B>) -> usize
    ensures { result ≡ byte_len (suffix_of (derivation literal.now)) }
{
    let suffix = literal.suffix();
    suffix.len()
}

/// Returns `true` if the literal has no suffix, or one that names the type.
fn has_suffix_for<B: Text>(ty: ValueType, literal: &Literal<B>) -> bool
    ensures { IsTrue result ↔ HasSuffixFor ty (derivation literal.now) }
{
    let suffix = literal.suffix();
    suffix.is_empty() || suffix == suffix_for(ty, literal)
}

/// Returns the suffix that names the type, or `""` if a literal of it cannot have one.
fn suffix_for<B: Text>(ty: ValueType, literal: &Literal<B>) -> &'static str
    ensures { result.now ≡ suffix_for ty (derivation literal.now) }
{
    match (ty, literal) {
        (ValueType::Integer(ty), Literal::Integer(_)) => ty.suffix(),
        (ValueType::Float(ty), Literal::Float(_)) => ty.suffix(),
        (ValueType::Float(ty), Literal::Integer(lit)) if is_decimal(lit.base()) => ty.suffix(),
        _ => "",
    }
}

/// Returns `true` if the base is ten.
pub(crate) fn is_decimal(base: IntegerBase) -> bool
    ensures { result ≡ is_decimal base }
{
    matches!(base, IntegerBase::Decimal)
}
