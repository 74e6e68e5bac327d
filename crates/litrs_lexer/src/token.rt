//! A token of a text.
ghost use Rattle.std.specs.Prelude.{◌≡◌, ◌+◌, ◌<◌, ◌^◌, length, IfOk, IfErr, IfSome, IfNone, IsTrue, IsFalse};
ghost use Rattle.std.specs.Str.{chars};
ghost use Rattle.litrs.specs.Literal.{IsLiteral};
ghost use Rattle.litrs.specs.LiteralDerivation.{derivation};
ghost use Rattle.litrs_lexer.specs.Comment.{doc_style};
ghost use Rattle.litrs_lexer.specs.Literal.{IsRefusedAt};
ghost use Rattle.litrs_lexer.specs.Token.{begins_literal};

use crate::comment::doc_style;
use crate::kind::{DocStyle, TokenKind};
use litrs::{Literal, ParseError};
use std::alloc::Global;
use std::ops::Range;

/// A token and its place in the source.
#[derive(Clone, Copy, Debug)]
pub struct Token<'a> {
    /// The kind of the token.
    pub kind: TokenKind,
    /// The offset of the token in the source, in bytes.
    pub start: usize,
    /// The text of the token.
    pub text: &'a str,
    ghost fits: { start + length text.now < 2 ^ 64 },
}

impl<'a> Token<'a> {
    /// Returns the range of the token in the source, in bytes.
    pub fn range(&self) -> Range<usize>
        ensures start { result.start ≡ self.now.start }
        ensures end { result.end ≡ self.now.start + length self.now.text.now }
    {
        self.start..self.start + self.text.len()
    }

    /// Returns what the token documents, or `None` if it is not a documentation comment. `///` and
    /// `/**` begin one, but `////`, `/***` and `/**/` do not. See [the reference][ref].
    ///
    /// [ref]: https://doc.rust-lang.org/reference/comments.html#doc-comments
    pub fn doc_style(&self) -> Option<DocStyle>
        ensures { result ≡ doc_style self.now.kind (chars self.now.text.now) }
    {
        doc_style(self.kind, self.text)
    }

    /// Parses the literal of a token of the kind `Literal`. Returns `None` if the kind is neither
    /// `Literal` nor `MalformedLiteral`. It allocates like [`Literal::parse`].
    ///
    /// # Errors
    ///
    /// Returns the error of [`Literal::parse`] for the text of a `MalformedLiteral`. The spans
    /// count from the start of the source. Returns `OutOfMemory` if an allocation fails.
    pub fn literal(&self, alloc: Global) -> Result<Option<Literal<&'a str>>, ParseError>
        ensures found { IfOk result (λ found. IfSome found (λ literal.
            IsTrue (begins_literal self.now.kind)
            × IsLiteral (chars self.now.text.now) (derivation literal))) }
        ensures none { IfOk result (λ found. IfNone found
            (IsFalse (begins_literal self.now.kind))) }
        ensures refused { IfErr result (λ error. IsTrue (begins_literal self.now.kind)
            × IsRefusedAt self.now.start (chars self.now.text.now) error) }
    {
        if begins_literal(self.kind) {
            Ok(Some(parse_at(alloc, self.text, self.start)?))
        } else {
            Ok(None)
        }
    }
}

/// Returns `true` if tokens of the kind are literals, valid or malformed.
fn begins_literal(kind: TokenKind) -> bool
    ensures { result ≡ begins_literal kind }
{
    match kind {
        TokenKind::Literal => true,
        TokenKind::MalformedLiteral => true,
        _ => false,
    }
}

/// Parses the literal `text`, which starts `start` bytes into a source.
fn parse_at(alloc: Global, text: &str, start: usize) -> Result<Literal<&str>, ParseError>
    requires { start + length text.now < 2 ^ 64 }
    ensures found { IfOk result (λ literal. IsLiteral (chars text.now) (derivation literal)) }
    ensures refused { IfErr result (IsRefusedAt start (chars text.now)) }
{
    match Literal::parse(alloc, text) {
        Ok(literal) => Ok(literal),
        Err(error) => Err(error.offset_span(start)),
    }
}
