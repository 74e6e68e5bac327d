//! Laws of rejected texts that are continued, and of the texts of literals.
ghost use Rattle.litrs_grammar.specs.Laws.LongerTexts.{FinalRefusalsStay, OpenRefusalsClose, LineEndsAreDecided, RefusedTextsGoOn, OtherKindsMayGoOn, FinalEscapeRefusalsStay, RefusedEscapesGoOn, QuotedItemsStay, FinalQuotedRefusalsStay, LiteralsAreWritten, LiteralsParseBack, JoinedBodiesAreQuoted};

/// Proves that after a final error the same parse rejects every longer text.
#[tactic(auto, using(crate::proofs::LongerTexts::Literal::final_refusals_stay))]
pub fn final_refusals_stay()
    ensures { FinalRefusalsStay }
{}

/// Proves that after an open error the closing text makes the text a string literal without a
/// suffix, whose body is all of the text after the opening.
#[tactic(auto, using(crate::proofs::LongerTexts::Literal::open_refusals_close))]
pub fn open_refusals_close()
    ensures { OpenRefusalsClose }
{}

/// Proves that a rejected text that ends with LF begins a literal if and only if its error is
/// open.
#[tactic(auto, using(crate::proofs::LongerTexts::Literal::line_ends_are_decided))]
pub fn line_ends_are_decided()
    ensures { LineEndsAreDecided }
{}

/// Proves that a rejected text begins a literal if and only if the parts that the table cuts out of
/// it can be continued.
#[tactic(auto, using(crate::proofs::LongerTexts::Literal::refused_texts_go_on))]
pub fn refused_texts_go_on()
    ensures { RefusedTextsGoOn }
{}

/// Proves that each kind that is not final, except `OutOfMemory`, is the error of some text that
/// begins a literal.
#[tactic(auto, using(crate::proofs::LongerTexts::OtherKinds::other_kinds_may_go_on))]
pub fn other_kinds_may_go_on()
    ensures { OtherKindsMayGoOn }
{}

/// Proves that an escape rejected with a final kind is rejected with the same kind and span
/// whatever is appended.
#[tactic(auto, using(crate::proofs::LongerTexts::Escape::final_escape_refusals_stay))]
pub fn final_escape_refusals_stay()
    ensures { FinalEscapeRefusalsStay }
{}

/// Proves that a rejected escape begins an escape if and only if the text after the backslash can
/// be continued.
#[tactic(auto, using(crate::proofs::LongerTexts::Escape::refused_escapes_go_on))]
pub fn refused_escapes_go_on()
    ensures { RefusedEscapesGoOn }
{}

/// Proves that the items that are taken before a rest are taken before every longer rest.
#[tactic(auto, using(crate::proofs::LongerTexts::Quoted::quoted_items_stay))]
pub fn quoted_items_stay()
    ensures { QuotedItemsStay }
{}

/// Proves that a quoted text rejected with a final kind is rejected with the same kind and span
/// whatever is appended.
#[tactic(auto, using(crate::proofs::LongerTexts::Quoted::final_quoted_refusals_stay))]
pub fn final_quoted_refusals_stay()
    ensures { FinalQuotedRefusalsStay }
{}

/// Proves that a text is a literal with a derivation if and only if it is the text of the
/// derivation and the parts are those of a literal.
#[tactic(auto, using(crate::proofs::LiteralTexts::literals_are_written))]
pub fn literals_are_written()
    ensures { LiteralsAreWritten }
{}

/// Proves that the parts of a literal are the only parts that its text has.
#[tactic(auto, using(crate::proofs::LiteralTexts::literals_parse_back))]
pub fn literals_parse_back()
    ensures { LiteralsParseBack }
{}

/// Proves that two bodies between a front and a quote with a suffix are a quoted literal with the
/// items of both. The exception: the second starts with white space that a continuation at the end
/// of the first would skip.
pub fn joined_bodies_are_quoted()
    ensures { JoinedBodiesAreQuoted }
{}
