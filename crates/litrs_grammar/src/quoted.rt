//! Laws of quoted strings, byte strings and C strings.
ghost use Rattle.litrs_grammar.specs.Laws.Quoted.{QuotedLiteralsAreUnique, QuotedTextsAreUnique, QuotedRefusalsAreUnique, QuotedTextsAreDecided, QuotedTextsAreNotRefused, QuotedSpansLieInText, NoQuotedTextEndsWithLineFeed, QuotedBodiesAreUnique, QuotedBodiesJoin, QuotedValuesFitBodies, NoNulInQuotedCStrings};

/// Proves that a text has at most one derivation as a quoted literal, over all three kinds
/// together.
#[tactic(auto, using(crate::proofs::Laws::Quoted::quoted_literals_are_unique))]
pub fn quoted_literals_are_unique()
    ensures { QuotedLiteralsAreUnique }
{}

/// Proves that a text has at most one derivation after the same front and under the same switches.
pub fn quoted_texts_are_unique()
    ensures { QuotedTextsAreUnique }
{}

/// Proves that a text is rejected with at most one pair of kind and span.
pub fn quoted_refusals_are_unique()
    ensures { QuotedRefusalsAreUnique }
{}

/// Proves that a text that starts with the front is a quoted literal or rejected.
pub fn quoted_texts_are_decided()
    ensures { QuotedTextsAreDecided }
{}

/// Proves that no text is both a quoted literal and rejected as one.
pub fn quoted_texts_are_not_refused()
    ensures { QuotedTextsAreNotRefused }
{}

/// Proves that the span of each error lies within the text and starts on a character boundary.
pub fn quoted_spans_lie_in_text()
    ensures { QuotedSpansLieInText }
{}

/// Proves that no quoted literal ends with LF.
#[tactic(auto, using(crate::proofs::Laws::Quoted::no_quoted_text_ends_with_line_feed))]
pub fn no_quoted_text_ends_with_line_feed()
    ensures { NoQuotedTextEndsWithLineFeed }
{}

/// Proves that a text is the text of at most one quoted body.
#[tactic(auto, using(crate::proofs::Laws::Quoted::quoted_bodies_are_unique))]
pub fn quoted_bodies_are_unique()
    ensures { QuotedBodiesAreUnique }
{}

/// Proves that two bodies are one body if the second does not start with a space, tab or LF. Its
/// value is both values, one after the other.
pub fn quoted_bodies_join()
    ensures { QuotedBodiesJoin }
{}

/// Proves that a value has at most as many bytes as its body, and exactly as many if and only if
/// the body has no backslash.
#[tactic(auto, using(crate::proofs::Laws::Quoted::quoted_values_fit_bodies))]
pub fn quoted_values_fit_bodies()
    ensures { QuotedValuesFitBodies }
{}

/// Proves that no byte of the value of a C string is zero.
#[tactic(auto, using(crate::proofs::Laws::Quoted::no_nul_in_quoted_c_strings))]
pub fn no_nul_in_quoted_c_strings()
    ensures { NoNulInQuotedCStrings }
{}
