//! Laws of chars and bytes.
ghost use Rattle.litrs_grammar.specs.Laws.CharByte.{CharsAreUnique, CharsAreDecided, CharSpansLieInText, NoCharEndsWithLineFeed};

/// Proves that a text has at most one derivation as a char or a byte, over both kinds together.
#[tactic(auto, using(crate::proofs::Laws::CharByte::chars_are_unique))]
pub fn chars_are_unique()
    ensures { CharsAreUnique }
{}

/// Proves that a text is either a literal of the kind (a char or a byte) or rejected by the table
/// of the kind, and never both.
#[tactic(auto, using(crate::proofs::Laws::CharByte::chars_are_decided))]
pub fn chars_are_decided()
    ensures { CharsAreDecided }
{}

/// Proves that the span of each error lies within the text and starts on a character boundary.
#[tactic(auto, using(crate::proofs::Spans::CharByte::char_spans_lie_in_text))]
pub fn char_spans_lie_in_text()
    ensures { CharSpansLieInText }
{}

/// Proves that no char and no byte ends with LF.
#[tactic(auto, using(crate::proofs::Laws::CharByte::no_char_ends_with_line_feed))]
pub fn no_char_ends_with_line_feed()
    ensures { NoCharEndsWithLineFeed }
{}
