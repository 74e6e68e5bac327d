//! Laws of raw strings.
ghost use Rattle.litrs_grammar.specs.Laws.Raw.{RawLiteralsAreUnique, RawLiteralsAreDecided, RawSpansLieInText, RawTextsAreUnique, RawTextsAreDecided, RawTextSpansLieInText, NoRawLiteralEndsWithLineFeed, NoNulInRawCStrings, RawValuesAreAsLongAsBodies, RawScansGoOn, RawRefusalsGoOn, RawBodiesEndAtClosings};
ghost use Rattle.litrs_grammar.specs.Laws.RawScan.{HashCountsStay, FirstClosingsStay, RawScansStay, StoppedBodiesAreRefused, FinalRawRefusalsStay, ClosingsBeginAtQuotes, ClosingsAreFound, QuotesArePassed};

/// Proves that a text has at most one derivation as a raw literal, over all three kinds together.
#[tactic(auto, using(crate::proofs::RawKinds::only_raw_literal))]
pub fn raw_literals_are_unique()
    ensures { RawLiteralsAreUnique }
{}

/// Proves that a text that starts with the front of a kind is either a raw literal of the kind or
/// rejected by the table, and never both.
pub fn raw_literals_are_decided()
    ensures { RawLiteralsAreDecided }
{}

/// Proves that the span of each error lies within the text and starts on a character boundary.
#[tactic(auto, using(crate::proofs::RawKinds::literal_refusal_within))]
pub fn raw_spans_lie_in_text()
    ensures { RawSpansLieInText }
{}

/// Proves that a text after a front has at most one derivation under the same switches.
#[tactic(auto, using(crate::proofs::Laws::Raw::only_raw))]
pub fn raw_texts_are_unique()
    ensures { RawTextsAreUnique }
{}

/// Proves that a text after a front is either a raw literal under the switches or rejected by the
/// table, and never both.
pub fn raw_texts_are_decided()
    ensures { RawTextsAreDecided }
{}

/// Proves that the spans of these errors, counted from the start of the text, lie within the text
/// and start on a character boundary.
#[tactic(auto, using(crate::proofs::Spans::Raw::raw_refusal_within))]
pub fn raw_text_spans_lie_in_text()
    ensures { RawTextSpansLieInText }
{}

/// Proves that no raw literal ends with LF.
#[tactic(auto, using(crate::proofs::RawKinds::no_literal_with_line_feed))]
pub fn no_raw_literal_ends_with_line_feed()
    ensures { NoRawLiteralEndsWithLineFeed }
{}

/// Proves that no byte of the value of a raw C string is zero.
#[tactic(auto, using(crate::proofs::RawKinds::c_string_no_nul))]
pub fn no_nul_in_raw_c_strings()
    ensures { NoNulInRawCStrings }
{}

/// Proves that the value of a raw literal has as many bytes as the body.
pub fn raw_values_are_as_long_as_bodies()
    ensures { RawValuesAreAsLongAsBodies }
{}

/// Proves that every longer text has the same number of hashes at its front, if any character
/// follows them.
#[tactic(auto, using(crate::proofs::RawClosings::hash_counts_stay))]
pub fn hash_counts_stay()
    ensures { HashCountsStay }
{}

/// Proves that every longer text has the same first closing.
#[tactic(auto, using(crate::proofs::RawClosings::first_closings_stay))]
pub fn first_closings_stay()
    ensures { FirstClosingsStay }
{}

/// Proves that every longer text has the same number of hashes, if any character follows them, and
/// the same first closing after the hashes and the quote.
#[tactic(auto, using(crate::proofs::RawClosings::raw_scans_stay))]
pub fn raw_scans_stay()
    ensures { RawScansStay }
{}

/// Proves that the first character that is not allowed in a body is rejected, whatever follows it.
#[tactic(auto, using(crate::proofs::LongerTexts::Raw::stopped_at))]
pub fn stopped_bodies_are_refused()
    ensures { StoppedBodiesAreRefused }
{}

/// Proves that a text rejected with a final kind is rejected with the same kind and span whatever
/// is appended.
pub fn final_raw_refusals_stay()
    ensures { FinalRawRefusalsStay }
{}

/// Proves that the search for the first closing skips characters that are not `"`.
pub fn closings_begin_at_quotes()
    ensures { ClosingsBeginAtQuotes }
{}

/// Proves that the first closing is at a `"` that is followed by as many hashes.
#[tactic(auto, using(crate::proofs::RawClosings::closings_are_found))]
pub fn closings_are_found()
    ensures { ClosingsAreFound }
{}

/// Proves that the search for the first closing skips a `"` that is followed by fewer hashes.
#[tactic(auto, using(crate::proofs::RawClosings::quotes_are_passed))]
pub fn quotes_are_passed()
    ensures { QuotesArePassed }
{}

/// Proves that after a part in which no closing begins, the rest decides whether there is a closing
/// and where the first one is.
pub fn raw_scans_go_on()
    ensures { RawScansGoOn }
{}

/// Proves that after such a part, if its characters are allowed in a body, the error is that of
/// the rest, moved by the length of the part in bytes.
#[tactic(auto, using(crate::proofs::RawScans::raw_refusals_go_on))]
pub fn raw_refusals_go_on()
    ensures { RawRefusalsGoOn }
{}

/// Proves that such a part is a body if a closing follows it.
pub fn raw_bodies_end_at_closings()
    ensures { RawBodiesEndAtClosings }
{}
