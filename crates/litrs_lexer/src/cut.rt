//! The dispatch over the kinds of tokens, by the first characters.
//!
//! A kind and a rest that a call returns are taken apart before they are handed on, so that the
//! bytes between them, which mean nothing, are not copied.
ghost use Rattle.std.specs.Prelude.{◌≡◌, ◌<◌, ◌==◌, ◌||◌, length, [], IfSome, IfNone, IsTrue, IsFalse};
ghost use Rattle.std.specs.Char.{is_ascii_alphabetic};
ghost use Rattle.std.specs.Str.{chars, IsUtf8};
ghost use Rattle.litrs_base.specs.Text.{first_passes};
ghost use Rattle.litrs_grammar.specs.Suffix.{starts_identifier};
ghost use Rattle.litrs_prefix.specs.Ends.{IsEndOf};
ghost use Rattle.litrs_prefix.specs.Opens.{after_name};
ghost use Rattle.litrs_prefix.specs.Prefix.{is_quote_or_hash};
ghost use Rattle.litrs_lexer.specs.Cut.{is_other_mark, IsCut, IsFirstChar};
ghost use Rattle.litrs_lexer.specs.Punctuation.{is_punctuation, is_unknown};
ghost use Rattle.litrs_lexer.specs.Whitespace.{is_white_space};

use crate::ascii::split_ascii;
use crate::comment::{after_block, after_line};
use crate::kind::TokenKind;
use crate::literal::cut_literal;
use crate::name::{
    after_raw_mark, after_run, begins_byte, opens_prefixed, raw_name, starts_with_bool,
    starts_with_hash, starts_with_name, starts_with_quote_or_hash, starts_with_single_quote,
};
use crate::whitespace::{after_white_space, is_white_space};
use litrs_base::split_first_char;
use litrs_prefix::{after_name, begins_name};

/// Returns the kind of the token at the front of `text` and the part of `text` after the token, or
/// `None` if `text` is empty.
#[inline(always)]
pub fn cut_token(text: &str) -> Option<(TokenKind, &str)>
    ensures some { IfSome result (λ cut. IsCut text.now cut.0 cut.1.now) }
    ensures utf8 { IfSome result (λ cut. IsUtf8 cut.1.now) }
    ensures whole { IsUtf8 text.now }
    ensures none { IfNone result (text.now ≡ []) }
{
    match split_ascii(text) {
        Some((c, after)) => {
            let (kind, rest) = cut_from(text, c, after);
            Some((kind, rest))
        }
        None => cut_any(text),
    }
}

/// Like [`cut_token`], for a text that does not start with an ASCII character.
#[inline(never)]
fn cut_any(text: &str) -> Option<(TokenKind, &str)>
    ensures some { IfSome result (λ cut. IsCut text.now cut.0 cut.1.now) }
    ensures utf8 { IfSome result (λ cut. IsUtf8 cut.1.now) }
    ensures none { IfNone result (text.now ≡ []) }
{
    match split_first_char(text) {
        Some((c, after)) => {
            let (kind, rest) = cut_from(text, c, after);
            Some((kind, rest))
        }
        None => None,
    }
}

/// Cuts the token from the front of `text`, which is `c` and `after`.
#[inline(always)]
fn cut_from<'a>(text: &'a str, c: char, after: &'a str) -> (TokenKind, &'a str)
    requires { IsFirstChar text.now c after.now }
    ensures cut { IsCut text.now result.0 result.1.now }
    ensures utf8 { IsUtf8 result.1.now }
{
    if begins_ascii_name(c) {
        let (kind, rest) = cut_name(text, c, after);
        (kind, rest)
    } else if is_white_space(c) {
        (TokenKind::Whitespace, after_white_space(after))
    } else if c == '/' {
        let (kind, rest) = cut_slash(text, after);
        (kind, rest)
    } else if is_punctuation(c) {
        (TokenKind::Punctuation, after)
    } else {
        let (kind, rest) = cut_other(text, c, after);
        (kind, rest)
    }
}

/// Like [`cut_from`], for a text that does not start with an ASCII name, white space and
/// punctuation.
#[inline(always)]
fn cut_other<'a>(text: &'a str, c: char, after: &'a str) -> (TokenKind, &'a str)
    requires first { IsFirstChar text.now c after.now }
    requires white { IsFalse (is_white_space c) }
    requires punctuation { IsFalse (is_punctuation c) }
    ensures cut { IsCut text.now result.0 result.1.now }
    ensures utf8 { IsUtf8 result.1.now }
{
    if c.is_ascii_digit() {
        let (kind, rest) = cut_literal(text);
        (kind, rest)
    } else if c == '"' {
        let (kind, rest) = cut_literal(text);
        (kind, rest)
    } else if c == '\'' {
        let (kind, rest) = cut_quote(text, after);
        (kind, rest)
    } else {
        let (kind, rest) = cut_rare(text, c, after);
        (kind, rest)
    }
}

/// Like [`cut_other`], for a text that does not start with a digit and a quote either.
#[inline(never)]
fn cut_rare<'a>(text: &'a str, c: char, after: &'a str) -> (TokenKind, &'a str)
    requires first { IsFirstChar text.now c after.now }
    requires unknown { IsFalse (starts_identifier c) → IsTrue (is_unknown c) }
    ensures cut { IsCut text.now result.0 result.1.now }
    ensures utf8 { IsUtf8 result.1.now }
{
    if begins_name(c) {
        let (kind, rest) = cut_name(text, c, after);
        (kind, rest)
    } else {
        (TokenKind::Unknown, after)
    }
}

/// Returns `true` if the character is an ASCII letter or an underscore.
#[inline(always)]
fn begins_ascii_name(c: char) -> bool
    ensures { result ≡ (is_ascii_alphabetic c || (c == 95)) }
{
    c.is_ascii_alphabetic() || c == '_'
}

#[inline(always)]
fn is_punctuation(c: char) -> bool
    ensures { result ≡ is_punctuation c }
{
    c.is_ascii_graphic() && !c.is_ascii_alphanumeric() && !is_other_mark(c)
}

/// Returns `true` if the character is a mark of ASCII that is not punctuation.
#[inline(always)]
fn is_other_mark(c: char) -> bool
    ensures { result ≡ is_other_mark c }
{
    c == '"' || c == '\'' || c == '\\' || c == '_' || c == '`'
}

/// Cuts the token from the front of a text that starts with a name. A byte is cut first, so that
/// its `b` is not cut as a name.
#[inline(always)]
fn cut_name<'a>(text: &'a str, c: char, after: &'a str) -> (TokenKind, &'a str)
    requires first { IsFirstChar text.now c after.now }
    requires name { IsTrue (starts_identifier c) }
    ensures cut { IsCut text.now result.0 result.1.now }
    ensures utf8 { IsUtf8 result.1.now }
{
    if begins_byte(c, after) {
        let (kind, rest) = cut_literal(text);
        (kind, rest)
    } else {
        let (kind, rest) = cut_word(text, c, after);
        (kind, rest)
    }
}

/// Like [`cut_name`], for every token that starts with a name.
#[inline(always)]
fn cut_word<'a>(text: &'a str, c: char, after: &'a str) -> (TokenKind, &'a str)
    requires first { IsFirstChar text.now c after.now }
    requires name { IsTrue (starts_identifier c) }
    ensures cut { IsCut text.now result.0 result.1.now }
    ensures utf8 { IsUtf8 result.1.now }
{
    let rest = after_run(after);
    if starts_with_quote_or_hash(rest) {
        let (kind, rest) = cut_prefix(text, c, after, rest);
        (kind, rest)
    } else if starts_with_bool(text, c, after, rest) {
        (TokenKind::Literal, rest)
    } else {
        (TokenKind::Ident, rest)
    }
}

/// Cuts the token from the front of a text that starts with a name before `"`, `'` or `#`.
#[inline(never)]
fn cut_prefix<'a>(text: &'a str, c: char, after: &str, rest: &'a str) -> (TokenKind, &'a str)
    requires first { IsFirstChar text.now c after.now }
    requires name { IsTrue (starts_identifier c) }
    requires rest { chars rest.now ≡ after_name (chars text.now) }
    requires end { IsEndOf text.now rest.now }
    requires shorter { length rest.now < length text.now }
    requires mark { IsTrue (first_passes is_quote_or_hash (chars rest.now)) }
    ensures cut { IsCut text.now result.0 result.1.now }
    ensures utf8 { IsUtf8 result.1.now }
{
    match raw_name(text, c, after) {
        Some(name) => (TokenKind::RawIdent, after_name(name)),
        None => if opens_prefixed(text, c, after) {
            let (kind, rest) = cut_literal(text);
            (kind, rest)
        } else {
            (TokenKind::UnknownPrefix, rest)
        },
    }
}

/// Cuts the token from the front of a text that starts with `'`.
#[inline(never)]
fn cut_quote<'a>(text: &'a str, after: &'a str) -> (TokenKind, &'a str)
    requires { IsFirstChar text.now 39 after.now }
    ensures cut { IsCut text.now result.0 result.1.now }
    ensures utf8 { IsUtf8 result.1.now }
{
    if !starts_with_name(after) {
        return cut_literal(text);
    }
    let rest = after_name(after);
    if starts_with_single_quote(rest) {
        cut_literal(text)
    } else if starts_with_hash(rest) {
        match after_raw_mark(after) {
            Some(name) => (TokenKind::RawLifetime, after_name(name)),
            None => (TokenKind::UnknownPrefixLifetime, rest),
        }
    } else {
        (TokenKind::Lifetime, rest)
    }
}

/// Cuts the token from the front of a text that starts with `/`.
#[inline(never)]
fn cut_slash<'a>(text: &'a str, after: &'a str) -> (TokenKind, &'a str)
    requires { IsFirstChar text.now 47 after.now }
    ensures cut { IsCut text.now result.0 result.1.now }
    ensures utf8 { IsUtf8 result.1.now }
{
    match split_first_char(after) {
        Some((c, body)) if c == '/' => (TokenKind::LineComment, after_line(body)),
        Some((c, body)) if c == '*' => match after_block(body) {
            Some(rest) => (TokenKind::BlockComment, rest),
            None => (
                TokenKind::UnterminatedBlockComment,
                body.split_at(body.len()).1,
            ),
        },
        _ => (TokenKind::Punctuation, after),
    }
}
