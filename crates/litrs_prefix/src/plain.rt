//! Literals that are read once: those without a suffix, before an ASCII character that no name has.
//! Most literals of a source are such.
ghost use Rattle.std.specs.Prelude.{◌≡◌, ◌++◌};
ghost use Rattle.litrs_prefix.specs.Words.{⊤, length, IsTrue, IsFalse, IfSome, is_ascii_digit, chars, is_xid_continue, begins_with, first_passes, char_front, quoted_front, raw_front, switches_of, is_char_item, plain_char, literal_raw, derivation, IsItemsEnd, IsItemBefore, IsPlainEnd, HasPrefix};

use crate::Prefix;
use crate::follow::{ends_bool, gives_period};
use crate::malformed::{after_digits, after_fraction};
use crate::opening::{begins_with, bool_len};
use litrs::{Literal, StringLit};
use litrs_base::{CharKind, begins_with_digit, split_first_char};
use litrs_lex::quoted::{items_end, plain_body_end};
use litrs_lex::raw::{body_end, open_raw};
use litrs_lex::{InByteString, InCString, InString, StringKind, unescape_with};

/// Returns the part of `text` after the literal at its front, which has no suffix. The literal ends
/// there if [`ends_name`] returns `true` for that part. Returns `None` if the literal is malformed,
/// and for a C string.
pub fn after_plain(text: &str) -> Option<&str>
    ensures { IfSome result (λ rest. IsPlainEnd text.now rest.now) }
{
    if begins_with_digit(text) {
        return Some(after_decimal(text));
    }
    match text.as_bytes() {
        [b'"', ..] => after_quoted(text, StringKind::String),
        [b'\'', ..] => after_char(text, 1, CharKind::Char),
        [b'r', ..] => after_raw(text, StringKind::String),
        [b'b', b'\'', ..] => after_char(text, 2, CharKind::Byte),
        [b'b', b'"', ..] => after_quoted(text, StringKind::ByteString),
        [b'b', b'r', ..] => after_raw(text, StringKind::ByteString),
        _ => after_bool(text),
    }
}

/// Like [`after_plain`], for a number. Returns the part after its digits and its fraction.
fn after_decimal(text: &str) -> &str
    requires { IsTrue (first_passes is_ascii_digit (chars text.now)) }
    ensures { IsPlainEnd text.now result.now }
{
    let rest = after_digits(text);
    if gives_period(rest) {
        after_fraction(rest)
    } else {
        rest
    }
}

/// Like [`after_plain`], for a text that starts with the front of a char or a byte, which ends at
/// `start`.
fn after_char(text: &str, start: usize, kind: CharKind) -> Option<&str>
    requires begins { IsTrue (begins_with (char_front kind) text.now) }
    requires start { start ≡ length (char_front kind) }
    ensures { IfSome result (λ rest. IsPlainEnd text.now rest.now) }
{
    let closing = after_item(&text[start..], kind)?;
    match split_first_char(closing) {
        Some((quote, rest)) if quote == '\'' => Some(rest),
        _ => None,
    }
}

/// Like [`after_plain`], for a text that starts with the front of a quoted string.
#[inline(never)]
fn after_quoted(text: &str, kind: StringKind) -> Option<&str>
    requires { IsTrue (begins_with (quoted_front kind) text.now) }
    ensures { IfSome result (λ rest. IsPlainEnd text.now rest.now) }
{
    let body = &text[kind.front_len()..];
    match split_first_char(&body[items_len(body, kind)..]) {
        Some((quote, rest)) if quote == '"' => Some(rest),
        _ => None,
    }
}

/// Like [`after_plain`], for a text that starts with the front of a raw string.
#[inline(never)]
fn after_raw(text: &str, kind: StringKind) -> Option<&str>
    requires { IsTrue (begins_with (raw_front kind) text.now) }
    ensures { IfSome result (λ rest. IsPlainEnd text.now rest.now) }
{
    let body = &text[kind.front_len()..];
    let Ok((hashes, start)) = open_raw(body, 0) else {
        return None;
    };
    let end = body_end(body.as_bytes(), start, hashes, kind.switches());
    if begins_with(&body[end..], '"') {
        Some(&body[end + 1 + hashes..])
    } else {
        None
    }
}

/// Like [`after_plain`], for a bool.
fn after_bool(text: &str) -> Option<&str>
    ensures { IfSome result (λ rest. IsPlainEnd text.now rest.now) }
{
    let rest = &text[bool_len(text)?..];
    if ends_bool(rest) { Some(rest) } else { None }
}

/// Parses the string at the front of `text`, or returns `None` if it is not plain. The body of a
/// plain string has neither a backslash nor a CR. It has no suffix, and ends the text or precedes
/// an ASCII character that no name has.
#[inline(always)]
pub fn plain_string(text: &str) -> Option<Prefix<'_>>
    ensures spells { IfSome result (λ prefix.
        literal_raw prefix.literal ++ prefix.rest.now ≡ text.now) }
    ensures found { IfSome result (λ prefix.
        HasPrefix (chars text.now) (derivation prefix.literal) (chars prefix.rest.now)) }
{
    if !begins_with(text, '"') {
        return None;
    }
    let quote = plain_body_end(text, 1, InString)?;
    let (front, rest) = text.split_at(quote + 1);
    if !ends_name(rest) {
        return None;
    }
    let literal = Literal::String(StringLit::plain(front));
    Some(Prefix { literal, rest })
}

/// Returns `true` if `text` is empty or starts with an ASCII character that no name has.
#[tactic(auto, using(crate::proofs::PlainLiterals::name_end))]
pub fn ends_name(text: &str) -> bool
    ensures { IsTrue result → IsFalse (first_passes is_xid_continue (chars text.now)) }
{
    match split_first_char(text) {
        Some((c, _)) => c.is_ascii() && !(c.is_ascii_alphanumeric() || c == '_'),
        None => true,
    }
}

/// Returns the part of `body` after the character or the escape at its front, or `None` if no char
/// or byte of the kind `kind` has it.
fn after_item(body: &str, kind: CharKind) -> Option<&str>
    ensures { IfSome result (λ rest. IsItemBefore kind body.now rest.now) }
{
    match split_first_char(body) {
        Some((c, _)) if c == '\\' => match unescape_with(body, kind.switches()) {
            Ok((_, len)) => Some(&body[len..]),
            Err(_) => None,
        },
        Some((c, after)) if is_plain_char(c, kind) => Some(after),
        _ => None,
    }
}

/// Returns `true` if `c` is a plain character in a char or a byte.
fn is_plain_char(c: char, kind: CharKind) -> bool
    ensures { result ≡ is_char_item kind (plain_char c) }
{
    let fits = matches!(kind, CharKind::Char) || c.is_ascii();
    c != '\'' && c != '\\' && c != '\n' && c != '\t' && c != '\r' && fits
}

/// Returns where the items of `body` end.
fn items_len(body: &str, kind: StringKind) -> usize
    ensures { IsItemsEnd (switches_of kind) body.now 0 (λ _. ⊤) result }
{
    match kind {
        StringKind::String => items_end(body, 0, InString),
        StringKind::ByteString => items_end(body, 0, InByteString),
        StringKind::CString => items_end(body, 0, InCString),
    }
}
