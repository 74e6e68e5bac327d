//! Laws of values.
ghost use Rattle.litrs_value.specs.Laws.{RefusedTextsHaveNoValue};

/// Proves that a text with an error other than `Memory` does not have a value of the type.
#[tactic(auto, using(crate::proofs::NoValue::refused_texts_have_no_value))]
pub fn refused_texts_have_no_value()
    ensures { RefusedTextsHaveNoValue }
{}
