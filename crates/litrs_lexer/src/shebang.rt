//! The byte order mark and the shebang, which precede the tokens of a file.
ghost use Rattle.std.specs.Prelude.{◌≡◌, ◌∷◌, IsTrue, IsFalse, IfSome, IfNone, List, ℕ};
ghost use Rattle.std.specs.Str.{chars};
ghost use Rattle.litrs_base.specs.Characters.{hash};
ghost use Rattle.litrs_base.specs.Text.{first_passes};
ghost use Rattle.litrs_prefix.specs.Ends.{IsEndOf};
ghost use Rattle.litrs_lexer.specs.Comment.{exclamation, after_line, doc_style};
ghost use Rattle.litrs_lexer.specs.Shebang.{is_bracket, after_byte_order_mark, OpensAttribute, HasShebang};
ghost use Rattle.litrs_lexer.specs.Token.{is_trivia};

use crate::comment::{after_line, doc_style};
use crate::cut::cut_token;
use crate::kind::TokenKind;
use litrs_base::split_first_char;

/// Returns the text of a file without a byte order mark and a shebang, such as
/// `#!/usr/bin/env rustx`, at its front: the text that [`tokenize`](crate::tokenize) cuts into
/// tokens. The line feed after the shebang remains. `#!` is not a shebang if `[` follows it, after
/// white space and comments that are not documentation: then an attribute begins there. See
/// [the reference][ref].
///
/// [ref]: https://doc.rust-lang.org/reference/input-format.html
pub fn strip_shebang(text: &str) -> &str
    ensures end { IsEndOf text.now result.now }
    ensures shebang { HasShebang (after_byte_order_mark (chars text.now)) →
        chars result.now ≡ after_line (after_byte_order_mark (chars text.now)) }
    ensures none { (HasShebang (after_byte_order_mark (chars text.now)) → ⊥) →
        chars result.now ≡ after_byte_order_mark (chars text.now) }
{
    let text = without_byte_order_mark(text);
    match after_shebang_mark(text) {
        Some(line) => if opens_attribute(line) {
            text
        } else {
            after_line(text)
        },
        None => text,
    }
}

fn without_byte_order_mark(text: &str) -> &str
    ensures rest { chars result.now ≡ after_byte_order_mark (chars text.now) }
    ensures end { IsEndOf text.now result.now }
{
    match split_first_char(text) {
        Some((c, rest)) => if c == '\u{FEFF}' { rest } else { text },
        None => text,
    }
}

/// Returns the part of `text` after `#!`, or `None` if `text` does not start with `#!`.
fn after_shebang_mark(text: &str) -> Option<&str>
    ensures some { IfSome result (λ line.
        chars text.now ≡ hash ∷ exclamation ∷ chars line.now) }
    ensures none { IfNone result ((line : List ℕ) →
        chars text.now ≡ hash ∷ exclamation ∷ line → ⊥) }
{
    match split_first_char(text) {
        Some((c, after)) => match split_first_char(after) {
            Some((d, line)) => if c == '#' && d == '!' {
                Some(line)
            } else {
                None
            },
            None => None,
        },
        None => None,
    }
}

/// Returns `true` if `#!` before `text` begins an attribute.
fn opens_attribute(text: &str) -> bool
    ensures yes { IsTrue result → OpensAttribute (chars text.now) }
    ensures no { IsFalse result → OpensAttribute (chars text.now) → ⊥ }
{
    let mut rest = text;
    loop {
        match cut_token(rest) {
            Some((kind, after)) => if is_skipped(kind, rest) {
                rest = after;
            } else {
                return starts_with_bracket(rest);
            },
            None => return false,
        }
    }
}

/// Returns `true` if the token of this kind at the front of `text` is white space, or a comment
/// that is not documentation.
fn is_skipped(kind: TokenKind, text: &str) -> bool
    ensures yes { IsTrue result →
        IsTrue (is_trivia kind) × (doc_style kind (chars text.now) ≡ None) }
    ensures no { IsFalse result → IsTrue (is_trivia kind) →
        doc_style kind (chars text.now) ≡ None → ⊥ }
{
    kind.is_trivia() && doc_style(kind, text).is_none()
}

fn starts_with_bracket(text: &str) -> bool
    ensures { result ≡ first_passes is_bracket (chars text.now) }
{
    match split_first_char(text) {
        Some((c, _)) => c == '[',
        None => false,
    }
}
