//! Laws of tokens: each is the contract of a function.
ghost use Rattle.litrs_token.specs.StringToken.{WrittenTextsAreStrings};

/// Proves that a value written between quotes, with escapes, is a quoted string of that value
/// without a suffix, and no other literal.
pub fn written_texts_are_strings()
    ensures { WrittenTextsAreStrings }
{}
