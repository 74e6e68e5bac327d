//! The texts whose first token more text can change.
ghost use Rattle.std.specs.Prelude.{◌≡◌, [], codes, IsTrue, IsFalse};
ghost use Rattle.std.specs.Str.{chars};
ghost use Rattle.litrs_base.specs.Text.{is_empty, is_text};
ghost use Rattle.litrs_lexer.specs.MayChange.{TokenStays, TokenChanges, is_malformed, is_open};
ghost use Rattle.litrs_lexer.specs.Token.{IsToken};

use crate::cut::cut_token;
use crate::kind::TokenKind;
use litrs_prefix::{is_open_front, prefix_may_change};

/// Returns `true` if some longer text has another token at its front than `text`, or if `text` is
/// empty.
///
/// If the result is `false`, the token is at the front of every longer text, with the same kind and
/// text. So a reader of pieces takes it, and an editor keeps it while the text before the edit
/// stays. A token at the end of the text may change, unless it is a closed block comment, `Unknown`
/// or punctuation other than `/`. Another token may change in three cases:
///
/// - `r`, `br` or `cr` before hashes up to the end of the text;
/// - `'r` before `#` at the end;
/// - `'` or `b'` before a line feed at the end.
///
/// The call does not allocate.
pub fn token_may_change(text: &str) -> bool
    ensures empty { text.now ≡ [] → IsTrue result }
    ensures stays { IsFalse result → TokenStays (chars text.now) }
    ensures changes { IsTrue result → TokenChanges (chars text.now) }
{
    match cut_token(text) {
        Some((kind, rest)) => cut_may_change(text, kind, rest),
        None => true,
    }
}

/// Returns `true` if more text can change the token of this kind at the front of `text`, up to
/// `rest`.
fn cut_may_change(text: &str, kind: TokenKind, rest: &str) -> bool
    requires { IsToken kind (chars text.now) (chars rest.now) }
    ensures stays { IsFalse result → TokenStays (chars text.now) }
    ensures changes { IsTrue result → TokenChanges (chars text.now) }
{
    if is_malformed(kind) {
        prefix_may_change(text)
    } else {
        is_open(kind, text, rest)
    }
}

/// Returns `true` if the kind is that of malformed literals.
fn is_malformed(kind: TokenKind) -> bool
    ensures { result ≡ is_malformed kind }
{
    match kind {
        TokenKind::MalformedLiteral => true,
        _ => false,
    }
}

/// Like [`token_may_change`], for a token of this kind, which is not a malformed literal.
fn is_open(kind: TokenKind, text: &str, rest: &str) -> bool
    ensures { result ≡ is_open kind (chars text.now) (chars rest.now) }
{
    match kind {
        TokenKind::BlockComment => false,
        TokenKind::Unknown => false,
        TokenKind::Punctuation => is_slash(text),
        TokenKind::UnknownPrefix => is_open_front(text),
        TokenKind::UnknownPrefixLifetime => is_raw_lifetime_front(text),
        _ => is_empty(rest),
    }
}

fn is_slash(text: &str) -> bool
    ensures { result ≡ is_text (codes "/") (chars text.now) }
{
    text == "/"
}

/// Returns `true` if `text` is `'r#`.
fn is_raw_lifetime_front(text: &str) -> bool
    ensures { result ≡ is_text (codes "'r#") (chars text.now) }
{
    text == "'r#"
}

fn is_empty(text: &str) -> bool
    ensures { result ≡ is_empty (chars text.now) }
{
    text.is_empty()
}
