//! Laws of equality, and of the names of types.
ghost use Rattle.litrs_grammar.specs.Laws.Name.{EqualityIsOfTexts, TypeNamesAreDistinct, FloatTypeNamesAreDistinct};

/// Proves that two literals are equal if and only if their texts are equal.
pub fn equality_is_of_texts()
    ensures { EqualityIsOfTexts }
{}

/// Proves that no two integer types have the same name.
#[tactic(auto, using(litrs_base::proofs::NameLemmas::same_type))]
pub fn type_names_are_distinct()
    ensures { TypeNamesAreDistinct }
{}

/// Proves that no two floating-point types have the same name.
#[tactic(auto, using(litrs_base::proofs::NameLemmas::same_float_type))]
pub fn float_type_names_are_distinct()
    ensures { FloatTypeNamesAreDistinct }
{}
