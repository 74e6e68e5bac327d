//! The tokens of a text that is checked once.
ghost use Rattle.std.specs.Prelude.{◌≡◌, ◌↔◌, [], drop, IsTrue, IsFalse, IfSome, IfNone};
ghost use Rattle.std.specs.Str.{IsUtf8, IsCharBoundary};
ghost use Rattle.std.proofs.Props.{props};
ghost use Rattle.litrs_prefix.specs.Ends.{IsEndOf};
ghost use Rattle.litrs_c.specs.Codes.{token_code, doc_code};
ghost use Rattle.litrs_c.specs.Tokens.{IsTokenFields, IsTokenAt, HasNoTokenAt};

use crate::Place;
use litrs_lexer::{DocStyle, Token, TokenKind, Tokens};
use std::str;

/// A text in UTF-8 and a place in it. Created by [`litrs_check`].
#[repr(C)]
#[derive(Clone, Copy)]
pub struct Cursor<'a> {
    /// The text, which the caller must leave unchanged.
    pub text: &'a [u8],
    /// The place, in bytes from the start of the text. The caller may set it to any number.
    pub at: usize,
    ghost utf8: { IsUtf8 text.now } by { Prim.hlevel props },
}

/// A token.
#[repr(C)]
#[derive(Clone, Copy)]
pub struct TokenFields {
    /// `enum litrs_token_kind`.
    pub kind: u32,
    /// `enum litrs_doc_style`, for a documentation comment.
    pub doc_style: u32,
    /// `true` for white space and comments.
    pub is_trivia: bool,
    /// The place of the token in the text.
    pub place: Place,
}

/// Returns `true` if `text` is UTF-8, and sets `cursor` to its start. Otherwise sets `cursor` to
/// the empty text.
#[unsafe(no_mangle)]
pub extern "C" fn litrs_check<'a>(text: &'a [u8], cursor: &mut Cursor<'a>) -> bool
    ensures utf8 { IsTrue result ↔ IsUtf8 text.now }
    ensures text { IsTrue result → cursor.new.text.now ≡ text.now }
    ensures no_text { IsFalse result → cursor.new.text.now ≡ [] }
    ensures start { cursor.new.at ≡ 0 }
{
    match str::from_utf8(text) {
        Ok(text) => {
            *cursor = cursor_at_start(text);
            true
        }
        Err(_) => {
            *cursor = cursor_at_start("");
            false
        }
    }
}

fn cursor_at_start(text: &str) -> Cursor<'_>
    ensures text { result.text.now ≡ text.now }
    ensures start { result.at ≡ 0 }
{
    Cursor {
        text: text.as_bytes(),
        at: 0,
    }
}

/// Writes the token at the place of `cursor` to `token`, moves `cursor` to the end of the token,
/// and returns `true`. Writes nothing and returns `false` at the end of the text, and if no
/// character begins at the place.
#[unsafe(no_mangle)]
pub extern "C" fn litrs_next_token(cursor: &mut Cursor<'_>, token: &mut TokenFields) -> bool
    ensures token { IsTrue result → IsTokenAt cursor.old.text.now cursor.old.at token.new }
    ensures moved { IsTrue result → cursor.new.at ≡ token.new.place.end }
    ensures place { IsTrue result → IsCharBoundary cursor.old.text.now cursor.new.at }
    ensures none { IsFalse result → HasNoTokenAt cursor.old.text.now cursor.old.at }
    ensures stays { IsFalse result → cursor.new.at ≡ cursor.old.at }
    ensures kept { IsFalse result → token.new ≡ token.old }
    ensures text { cursor.new.text.now ≡ cursor.old.text.now }
{
    let Some(mut left) = tokens_at(cursor) else {
        return false;
    };
    match left.next() {
        Some(found) => {
            *token = token_fields(&found);
            cursor.at = start_of(cursor.text, left.rest);
            true
        }
        None => false,
    }
}

/// Returns the tokens from the place of `cursor` on, or `None` if the place is past the text or
/// inside a character.
#[inline(always)]
pub(crate) fn tokens_at<'a>(cursor: &Cursor<'a>) -> Option<Tokens<'a>>
    ensures source { IfSome result (λ left. left.source.now ≡ cursor.now.text.now) }
    ensures rest { IfSome result (λ left.
        left.rest.now ≡ drop cursor.now.at cursor.now.text.now) }
    ensures place { IfSome result (λ _. IsCharBoundary cursor.now.text.now cursor.now.at) }
    ensures none { IfNone result (IsCharBoundary cursor.now.text.now cursor.now.at → ⊥) }
{
    let source = unsafe { str::from_utf8_unchecked(cursor.text) };
    match source.split_at_checked(cursor.at) {
        Some((_, rest)) => Some(Tokens { source, rest }),
        None => None,
    }
}

/// Returns the place at which `rest`, the end of `text`, begins.
#[inline(always)]
fn start_of(text: &[u8], rest: &str) -> usize
    requires { IsEndOf text.now rest.now }
    ensures place { IsCharBoundary text.now result }
    ensures rest { drop result text.now ≡ rest.now }
{
    text.len() - rest.len()
}

#[inline(always)]
fn token_fields(token: &Token<'_>) -> TokenFields
    ensures { IsTokenFields token.now result }
{
    let range = token.range();
    TokenFields {
        kind: token_code(token.kind),
        doc_style: doc_code(token.doc_style()),
        is_trivia: token.kind.is_trivia(),
        place: Place {
            start: range.start,
            end: range.end,
        },
    }
}

/// Returns the number of the kind in `enum litrs_token_kind`.
fn token_code(kind: TokenKind) -> u32
    ensures { result ≡ token_code kind }
{
    match kind {
        TokenKind::Whitespace => 1,
        TokenKind::LineComment => 2,
        TokenKind::BlockComment => 3,
        TokenKind::UnterminatedBlockComment => 4,
        TokenKind::Ident => 5,
        TokenKind::RawIdent => 6,
        TokenKind::UnknownPrefix => 7,
        TokenKind::Lifetime => 8,
        TokenKind::RawLifetime => 9,
        TokenKind::UnknownPrefixLifetime => 10,
        TokenKind::Literal => 11,
        TokenKind::MalformedLiteral => 12,
        TokenKind::Punctuation => 13,
        TokenKind::Unknown => 14,
    }
}

/// Returns the number of the style in `enum litrs_doc_style`.
fn doc_code(style: Option<DocStyle>) -> u32
    ensures { result ≡ doc_code style }
{
    match style {
        None => 0,
        Some(DocStyle::Inner) => 1,
        Some(DocStyle::Outer) => 2,
    }
}
