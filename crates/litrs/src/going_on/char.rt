//! Chars and bytes.
ghost use Rattle.std.specs.Prelude.{◌≡◌, ◌↔◌, ◌++◌, ◌==◌, codes, IsTrue};
ghost use Rattle.std.specs.Str.{chars};
ghost use Rattle.litrs_base.specs.Characters.{backslash};
ghost use Rattle.litrs_base.specs.Text.{begins_with, first_passes};
ghost use Rattle.litrs_base.specs.Quotes.{char_front};
ghost use Rattle.litrs_grammar.specs.CharByte.{plain_char, is_char_item, IsCharLiteral};
ghost use Rattle.litrs_grammar.specs.LongerTexts.{BeginsBy};
ghost use Rattle.litrs_grammar.specs.Literal.{kind_parse, char_literal, byte_literal, Begins};
ghost use Rattle.litrs.specs.Begins.{BeginsClosing};

use crate::going_on::suffix::suffix_goes_on;
use litrs_lex::escape_end::refused_escape_goes_on;
use litrs_lex::{CharKind, unescape_with};

/// Returns `true` if `text`, which begins with `'`, begins a char.
#[inline(never)]
pub(crate) fn char_goes_on(text: &str) -> bool
    requires { IsTrue (begins_with (codes "'") text.now) }
    ensures { IsTrue result ↔ Begins (kind_parse char_literal) (chars text.now) }
{
    item_goes_on(&text[1..], CharKind::Char)
}

/// Returns `true` if `text`, which begins with `b'`, begins a byte.
#[inline(never)]
pub(crate) fn byte_goes_on(text: &str) -> bool
    requires { IsTrue (begins_with (codes "b'") text.now) }
    ensures { IsTrue result ↔ Begins (kind_parse byte_literal) (chars text.now) }
{
    item_goes_on(&text[2..], CharKind::Byte)
}

/// Returns `true` if the front of `kind` and `rest` begin a literal of `kind`.
fn item_goes_on(rest: &str, kind: CharKind) -> bool
    ensures { IsTrue result ↔ BeginsBy (IsCharLiteral kind)
        (char_front kind ++ chars rest.now) }
{
    let mut chars = rest.chars();
    match chars.next() {
        None => true,
        Some('\\') => escaped_goes_on(rest, kind),
        Some(c) => is_plain(c, kind) && closing_goes_on(chars.as_str()),
    }
}

/// Like [`item_goes_on`], for a rest that begins with a backslash.
fn escaped_goes_on(rest: &str, kind: CharKind) -> bool
    requires { IsTrue (first_passes (λ c. c == backslash) rest.now) }
    ensures { IsTrue result ↔ BeginsBy (IsCharLiteral kind)
        (char_front kind ++ chars rest.now) }
{
    let allowed = kind.switches();
    match unescape_with(rest, allowed) {
        Ok((_, len)) => closing_goes_on(&rest[len..]),
        Err(_) => refused_escape_goes_on(&rest.as_bytes()[1..], allowed),
    }
}

/// Returns `true` if `c` may be the character of a literal of `kind` without an escape.
fn is_plain(c: char, kind: CharKind) -> bool
    ensures { result ≡ is_char_item kind (plain_char c) }
{
    !matches!(c, '\'' | '\\' | '\n' | '\t' | '\r')
        && (matches!(kind, CharKind::Char) || c.is_ascii())
}

/// Returns `true` if `after` begins the closing quote and a suffix.
fn closing_goes_on(after: &str) -> bool
    ensures { IsTrue result ↔ BeginsClosing (chars after.now) }
{
    let mut chars = after.chars();
    match chars.next() {
        None => true,
        Some('\'') => suffix_goes_on(chars.as_str()),
        Some(_) => false,
    }
}
