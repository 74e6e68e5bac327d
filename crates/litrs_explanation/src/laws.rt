//! Laws of literals.
ghost use Rattle.litrs_explanation.specs.Laws.{SameNumbersHaveSameValue};

/// Proves that floats with the same parts, but for `_` and the case of the letter of the exponent,
/// have the same value in each format.
#[tactic(auto, using(crate::proofs::SameNumbers::same_values))]
pub fn same_numbers_have_same_value()
    ensures { SameNumbersHaveSameValue }
{}
