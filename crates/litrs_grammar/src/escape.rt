//! Laws of escapes.
ghost use Rattle.litrs_grammar.specs.Laws.Escape.{EscapesAreUnique, EscapesAreDecided, EscapeSpansLieInText};

/// Proves that a text has at most one escape at its front.
#[tactic(auto, using(crate::proofs::Laws::Escape::escapes_are_unique))]
pub fn escapes_are_unique()
    ensures { EscapesAreUnique }
{}

/// Proves that a text that starts with a backslash either has an escape at its front or is rejected
/// by the table, and never both.
#[tactic(auto, using(crate::proofs::Laws::Escape::escapes_are_decided))]
pub fn escapes_are_decided()
    ensures { EscapesAreDecided }
{}

/// Proves that the span of each error lies within the text and starts on a character boundary.
#[tactic(auto, using(crate::proofs::Spans::Escape::escape_spans_lie_in_text))]
pub fn escape_spans_lie_in_text()
    ensures { EscapeSpansLieInText }
{}
