//! Laws of tokens.
ghost use Rattle.litrs_lexer.specs.Laws.{TokensAreUnique, MalformedPrefixesAreTokens, SettledTokensStay};

/// Proves that a text has at most one token at its front.
pub fn tokens_are_unique()
    ensures { TokensAreUnique }
{}

/// Proves that a malformed literal that `litrs_prefix` reports is the token at the front of the
/// text, unless the text starts with a bool. For example, `true"a"` is a prefix and a string.
pub fn malformed_prefixes_are_tokens()
    ensures { MalformedPrefixesAreTokens }
{}

/// Proves that tokens for which [`token_may_change`](crate::token_may_change) returns `false` are
/// the first tokens of every longer text, with the same kinds and texts.
#[tactic(auto, using(crate::proofs::MayChange::settled_stay))]
pub fn settled_tokens_stay()
    ensures { SettledTokensStay }
{}
