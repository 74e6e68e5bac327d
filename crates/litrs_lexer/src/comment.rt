//! Comments at the front of a text.
ghost use Rattle.std.specs.Prelude.{◌≡◌, ℕ, List, drop, IfSome, IfNone};
ghost use Rattle.std.specs.List.{prefix_len};
ghost use Rattle.std.specs.Str.{chars};
ghost use Rattle.litrs_base.specs.Text.{first_passes};
ghost use Rattle.litrs_prefix.specs.Ends.{IsEndOf};
ghost use Rattle.litrs_lexer.specs.Comment.{is_of_line, is_slash, is_star_or_slash, after_line, opens_comment, closes_comment, IsBody, line_doc, block_doc, doc_style};
ghost use Rattle.litrs_lexer.specs.Cut.{is_of_comment};
ghost use Rattle.litrs_lexer.specs.Whitespace.{after_while};

use crate::kind::{DocStyle, TokenKind};
use litrs_base::split_first_char;
use memchr::{memchr, memchr2};

/// Returns the part of `text` from its first line feed on.
pub fn after_line(text: &str) -> &str
    ensures rest { chars result.now ≡ after_line (chars text.now) }
    ensures end { IsEndOf text.now result.now }
{
    text.split_at(line_len(text.as_bytes())).1
}

/// Returns the number of bytes before the first line feed.
fn line_len(bytes: &[u8]) -> usize
    ensures { result ≡ prefix_len is_of_line bytes.now }
{
    match memchr(b'\n', bytes) {
        Some(len) => len,
        None => bytes.len(),
    }
}

/// Returns the part of `text` after the `*/` that closes a block comment, or `None` if there is
/// none. `text` is the text after the `/*` that opens it.
pub fn after_block(text: &str) -> Option<&str>
    ensures some { IfSome result (λ rest. IsBody (chars text.now) (chars rest.now)) }
    ensures none { IfNone result ((rest : List ℕ) → IsBody (chars text.now) rest → ⊥) }
    ensures end { IfSome result (λ rest. IsEndOf text.now rest.now) }
{
    let mut rest = text;
    let mut depth: usize = 0;
    loop {
        let Some((c, after)) = split_first_char(after_plain(rest)) else {
            return None;
        };
        let Some((d, next)) = split_first_char(after) else {
            return None;
        };
        if opens_comment(c, d) {
            depth += 1;
            rest = next;
        } else if closes_comment(c, d) {
            if depth == 0 {
                return Some(next);
            }
            depth -= 1;
            rest = next;
        } else {
            rest = after;
        }
    }
}

/// Returns the part of `text` from its first `*` or `/` on.
fn after_plain(text: &str) -> &str
    ensures rest { chars result.now ≡ after_while is_of_comment (chars text.now) }
    ensures end { IsEndOf text.now result.now }
{
    text.split_at(plain_len(text.as_bytes())).1
}

/// Returns the number of bytes before the first `*` or `/`.
fn plain_len(bytes: &[u8]) -> usize
    ensures { result ≡ prefix_len is_of_comment bytes.now }
{
    match memchr2(b'*', b'/', bytes) {
        Some(len) => len,
        None => bytes.len(),
    }
}

/// Returns `true` if the two characters are `/*`.
fn opens_comment(c: char, d: char) -> bool
    ensures { result ≡ opens_comment c d }
{
    c == '/' && d == '*'
}

/// Returns `true` if the two characters are `*/`.
fn closes_comment(c: char, d: char) -> bool
    ensures { result ≡ closes_comment c d }
{
    c == '*' && d == '/'
}

/// Returns `text` without its first two characters, which are `//` or `/*` in a comment.
fn after_mark(text: &str) -> &str
    ensures { chars result.now ≡ drop 2 (chars text.now) }
{
    after_first(after_first(text))
}

/// Returns `text` without its first character.
fn after_first(text: &str) -> &str
    ensures { chars result.now ≡ drop 1 (chars text.now) }
{
    match split_first_char(text) {
        Some((_, rest)) => rest,
        None => text,
    }
}

/// Returns what the comment of this kind at the front of `text` documents.
pub fn doc_style(kind: TokenKind, text: &str) -> Option<DocStyle>
    ensures { result ≡ doc_style kind (chars text.now) }
{
    match kind {
        TokenKind::LineComment => line_doc(after_mark(text)),
        TokenKind::BlockComment => block_doc(after_mark(text)),
        TokenKind::UnterminatedBlockComment => block_doc(after_mark(text)),
        _ => None,
    }
}

/// Returns what a line comment documents, by its text after `//`.
fn line_doc(text: &str) -> Option<DocStyle>
    ensures { result ≡ line_doc (chars text.now) }
{
    match split_first_char(text) {
        Some((c, rest)) => if c == '!' {
            Some(DocStyle::Inner)
        } else if c == '/' && !starts_with_slash(rest) {
            Some(DocStyle::Outer)
        } else {
            None
        },
        None => None,
    }
}

/// Returns what a block comment documents, by its text after `/*`.
fn block_doc(text: &str) -> Option<DocStyle>
    ensures { result ≡ block_doc (chars text.now) }
{
    match split_first_char(text) {
        Some((c, rest)) => if c == '!' {
            Some(DocStyle::Inner)
        } else if c == '*' && !starts_with_star_or_slash(rest) {
            Some(DocStyle::Outer)
        } else {
            None
        },
        None => None,
    }
}

fn starts_with_slash(text: &str) -> bool
    ensures { result ≡ first_passes is_slash (chars text.now) }
{
    match split_first_char(text) {
        Some((c, _)) => c == '/',
        None => false,
    }
}

fn starts_with_star_or_slash(text: &str) -> bool
    ensures { result ≡ first_passes is_star_or_slash (chars text.now) }
{
    match split_first_char(text) {
        Some((c, _)) => c == '*' || c == '/',
        None => false,
    }
}
