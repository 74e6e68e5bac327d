//! Laws of floating-point literals.
ghost use Rattle.litrs_grammar.specs.Laws.Float.{FloatsAreUnique, FloatsAreDecided, FloatSpansLieInText, NoFloatEndsWithLineFeed};

/// Proves that a text has at most one derivation as a float.
#[tactic(auto, using(crate::proofs::Laws::Float::only_float))]
pub fn floats_are_unique()
    ensures { FloatsAreUnique }
{}

/// Proves that a text is either a float or rejected by the table, and never both.
#[tactic(auto, using(crate::proofs::Laws::Float::floats_are_decided))]
pub fn floats_are_decided()
    ensures { FloatsAreDecided }
{}

/// Proves that the span of each error lies within the text and starts on a character boundary.
#[tactic(auto, using(crate::proofs::Spans::Float::float_refusal_within))]
pub fn float_spans_lie_in_text()
    ensures { FloatSpansLieInText }
{}

/// Proves that no float ends with LF.
#[tactic(auto, using(crate::proofs::Spans::Float::no_float_with_line_feed))]
pub fn no_float_ends_with_line_feed()
    ensures { NoFloatEndsWithLineFeed }
{}
