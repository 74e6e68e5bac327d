//! Laws of the literal at the front of a text.
ghost use Rattle.litrs_prefix.specs.Words.{LiteralsAreTheirPrefix, PrefixesStay, PrefixesAreUnique, PrefixesOpen, MalformedAreUnique, MalformedStay};

/// Proves that a text that is a literal has that literal at its front, with an empty rest.
#[tactic(auto, using(crate::proofs::LongerTexts::whole))]
pub fn literals_are_their_prefix()
    ensures { LiteralsAreTheirPrefix }
{}

/// Proves that every longer text has the same literal at its front, if the rest is not empty.
#[tactic(auto, using(crate::proofs::LongerTexts::stays))]
pub fn prefixes_stay()
    ensures { PrefixesStay }
{}

/// Proves that a text has at most one literal at its front.
pub fn prefixes_are_unique()
    ensures { PrefixesAreUnique }
{}

/// Proves that a literal begins at the front of a text that has a literal there.
pub fn prefixes_open()
    ensures { PrefixesOpen }
{}

/// Proves that a malformed prefix has one length and one error.
pub fn malformed_are_unique()
    ensures { MalformedAreUnique }
{}

/// Proves that every longer text has the same malformed prefix, if `prefix_may_change` returns
/// `false` for the text.
#[tactic(auto, using(crate::proofs::MayChange::malformed_stay))]
pub fn malformed_stay()
    ensures { MalformedStay }
{}
