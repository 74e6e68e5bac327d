//! The tokens of a text, one after the other.
ghost use Rattle.std.specs.Prelude.{◌≡◌, ◌≤◌, ℕ, List, [], length, IfOk, IfSome, IfNone};
ghost use Rattle.std.specs.Iterator.{at_most};
ghost use Rattle.litrs_lexer.specs.Tokens.{IsFirstToken, GivesToken, AreTokens, spelled};

use crate::cut::cut_token;
use crate::token::Token;
use std::alloc::{AllocError, Global};
use std::iter::FusedIterator;

/// An iterator over the tokens of a text. Created by [`tokenize`]. Copy it to look ahead.
#[derive(Clone, Copy, Debug, Drop)]
pub struct Tokens<'a> {
    /// The whole text.
    pub source: &'a str,
    /// The end of the text that is not yet cut into tokens.
    pub rest: &'a str,
    ghost within: { length rest.now ≤ length source.now },
}

/// Cuts `text` into tokens. Joined, their texts are `text`. The walk does not allocate, and takes
/// time in proportion to the length of `text`.
pub fn tokenize(text: &str) -> Tokens<'_>
    ensures source { result.source.now ≡ text.now }
    ensures rest { result.rest.now ≡ text.now }
{
    Tokens {
        source: text,
        rest: text,
    }
}

impl<'a> Iterator for Tokens<'a> {
    type Item = Token<'a>;

    ghost next_gives = { λ s r t. (t.source.now ≡ s.source.now)
        × GivesToken s.source.now s.rest.now r t.rest.now };

    ghost remaining = { λ s. at_most (length s.rest.now) };

    #[inline(always)]
    fn next(&mut self) -> Option<Token<'a>> {
        let (kind, after) = cut_token(self.rest)?;
        let (text, _) = self.rest.split_at(self.rest.len() - after.len());
        let start = self.source.len() - self.rest.len();
        self.rest = after;
        Some(Token { kind, start, text })
    }
}

/// Returns the token at the front of `text`, or `None` if `text` is empty.
pub fn first_token(text: &str) -> Option<Token<'_>>
    ensures some { IfSome result (λ token. (rest : List ℕ)
        × IsFirstToken text.now text.now token rest) }
    ensures none { IfNone result (text.now ≡ []) }
{
    tokenize(text).next()
}

/// Returns all tokens of `text`.
///
/// # Errors
///
/// Returns `AllocError` if an allocation fails.
pub fn all_tokens(alloc: Global, text: &str) -> Result<Vec<Token<'_>>, AllocError>
    ensures tokens { IfOk result (λ found. AreTokens text.now text.now found.items []) }
    ensures spells { IfOk result (λ found. spelled found.items ≡ text.now) }
{
    let mut found = Vec::new(alloc);
    let mut left = tokenize(text);
    loop {
        match left.next() {
            Some(token) => found.push(token)?,
            None => return Ok(found),
        }
    }
}

impl FusedIterator for Tokens<'_> {}
