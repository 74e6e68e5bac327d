//! Laws of literals of all kinds.
ghost use Rattle.litrs_grammar.specs.Laws.Literal.{LiteralsAreUnique, TextsAreDecided, LiteralsAreNotRefused, RefusalsAreUnique, RefusalSpansLieInText, NoRefusalIsOfMemory, NoLiteralEndsWithLineFeed};

/// Proves that a text has at most one derivation over all eight kinds, so no text is a literal of
/// two kinds.
#[tactic(auto, using(crate::proofs::Laws::Literal::literals_are_unique))]
pub fn literals_are_unique()
    ensures { LiteralsAreUnique }
{}

/// Proves that for each of the nine parses a text has a derivation or an error.
pub fn texts_are_decided()
    ensures { TextsAreDecided }
{}

/// Proves that no text has both a derivation and an error.
#[tactic(auto, using(crate::proofs::Laws::Literal::literals_are_not_refused))]
pub fn literals_are_not_refused()
    ensures { LiteralsAreNotRefused }
{}

/// Proves that a text is rejected with at most one pair of kind and span.
#[tactic(auto, using(crate::proofs::Laws::Literal::refusals_are_unique))]
pub fn refusals_are_unique()
    ensures { RefusalsAreUnique }
{}

/// Proves that the span of each error lies within the text and starts on a character boundary.
#[tactic(auto, using(crate::proofs::Spans::Literal::refusal_spans_lie_in_text))]
pub fn refusal_spans_lie_in_text()
    ensures { RefusalSpansLieInText }
{}

/// Proves that no error of a text is `OutOfMemory`.
#[tactic(auto, using(crate::proofs::RefusalKinds::no_refusal_is_of_memory))]
pub fn no_refusal_is_of_memory()
    ensures { NoRefusalIsOfMemory }
{}

/// Proves that no literal ends with LF.
#[tactic(auto, using(crate::proofs::Spans::Literal::no_literal_ends_with_line_feed))]
pub fn no_literal_ends_with_line_feed()
    ensures { NoLiteralEndsWithLineFeed }
{}
