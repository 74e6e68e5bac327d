//! Literals at the front of a text, valid or malformed.
ghost use Rattle.std.specs.Prelude.{IsTrue};
ghost use Rattle.std.specs.Str.{chars, IsUtf8};
ghost use Rattle.litrs_lexer.specs.Cut.{IsCut};
ghost use Rattle.litrs_lexer.specs.Literal.{opens_quoted};

use crate::kind::TokenKind;
use litrs_prefix::opened_extent;

/// Cuts the literal, valid or malformed, from the front of `text`.
#[inline(never)]
pub fn cut_literal(text: &str) -> (TokenKind, &str)
    requires { IsTrue (opens_quoted (chars text.now)) }
    ensures cut { IsCut text.now result.0 result.1.now }
    ensures utf8 { IsUtf8 result.1.now }
{
    match opened_extent(text) {
        Ok(len) => (TokenKind::Literal, text.split_at(len).1),
        Err(len) => (TokenKind::MalformedLiteral, text.split_at(len).1),
    }
}
