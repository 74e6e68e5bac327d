//! Laws that distinguish floats from integers.
ghost use Rattle.litrs_grammar.specs.Laws.Number.{FloatsBeginAsFloats, NoIntegerBeginsAsFloat, NoFloatIsInteger};

/// Proves that in a float the leading run of decimal digits and underscores is followed by a
/// period, `e` or `E`.
#[tactic(auto, using(crate::proofs::Laws::Number::float_begins))]
pub fn floats_begin_as_floats()
    ensures { FloatsBeginAsFloats }
{}

/// Proves that in an integer the leading run of decimal digits and underscores is not followed by a
/// period, `e` or `E`.
#[tactic(auto, using(crate::proofs::Laws::Number::integer_begins))]
pub fn no_integer_begins_as_float()
    ensures { NoIntegerBeginsAsFloat }
{}

/// Proves that no text is both a float and an integer.
#[tactic(auto, using(crate::proofs::Laws::Number::no_float_is_integer))]
pub fn no_float_is_integer()
    ensures { NoFloatIsInteger }
{}
