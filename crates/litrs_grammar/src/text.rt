//! Laws of places and spans in texts.
ghost use Rattle.litrs_grammar.specs.Laws.Text.{CharEndsAreUnique, SpansStartOnBoundaries};

/// Proves that a place has only one end in whole characters.
#[tactic(auto, using(crate::proofs::Laws::Text::char_ends_are_unique))]
pub fn char_ends_are_unique()
    ensures { CharEndsAreUnique }
{}

/// Proves that a span in a text starts on a character boundary, and lies within the text.
#[tactic(auto, using(crate::proofs::Laws::Text::spans_start_on_boundaries))]
pub fn spans_start_on_boundaries()
    ensures { SpansStartOnBoundaries }
{}
