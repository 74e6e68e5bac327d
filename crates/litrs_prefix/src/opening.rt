//! Tests whether a literal begins at the front of a text, and the names there.
ghost use Rattle.std.specs.Prelude.{◌≡◌, ◌==◌};
ghost use Rattle.litrs_prefix.specs.Words.{Bool, length, IsTrue, IsFalse, IfSome, IfNone, chars, begins_with, first_passes, bool_text, is_bool, first_name, begins_with_lifetime, opens_raw, opens_c_string, opens_bytes, opens, is_xid_continue, is_empty, starts_identifier, IsEndOf, after_run, after_name, after_hashes};

use litrs_base::split_first_char;
use litrs_lex::hashes::hash_len;
use litrs_lex::{Run, run_end};
use unicode_ident::{is_xid_continue, is_xid_start};

/// Returns `true` if a literal begins at the front of `text`, by its first characters. It does in
/// `12abc`, `0b12`, `"a`, `b'`, `r#"` and `true`, but not in `abc`, `r#a`, `'a, 'b`, `trueish` and
/// ` 1`.
pub fn opens(text: &str) -> bool
    ensures { result ≡ opens (chars text.now) }
{
    match split_first_char(text) {
        Some((c, rest)) => {
            c.is_ascii_digit()
                || c == '"'
                || (c == '\'' && !begins_with_lifetime(rest))
                || (c == 'r' && opens_raw(rest))
                || (c == 'b' && opens_bytes(rest))
                || (c == 'c' && opens_c_string(rest))
                || opens_bool(text)
        }
        None => false,
    }
}

/// Returns `true` if `text` starts with a name before no `'`, as after the `'` of a lifetime.
fn begins_with_lifetime(text: &str) -> bool
    ensures { result ≡ begins_with_lifetime (chars text.now) }
{
    matches!(split_first_char(text), Some((c, _)) if begins_name(c))
        && !begins_with(after_name(text), '\'')
}

/// Returns `true` if `text` starts with `c`.
pub fn begins_with(text: &str, c: char) -> bool
    ensures { result ≡ first_passes (λ first. first == c) (chars text.now) }
{
    matches!(split_first_char(text), Some((first, _)) if first == c)
}

/// Returns `true` if `text` starts with hashes and `"`, as after the `r` of a raw string.
pub fn opens_raw(text: &str) -> bool
    ensures { result ≡ opens_raw (chars text.now) }
{
    begins_with(after_hashes(text), '"')
}

/// Returns `true` if `b` and `text` begin a byte or a byte string.
pub fn opens_bytes(text: &str) -> bool
    ensures { result ≡ opens_bytes (chars text.now) }
{
    begins_with(text, '\'') || opens_c_string(text)
}

/// Returns `true` if `c` and `text` begin a C string.
pub fn opens_c_string(text: &str) -> bool
    ensures { result ≡ opens_c_string (chars text.now) }
{
    matches!(split_first_char(text), Some((c, rest)) if c == '"' || (c == 'r' && opens_raw(rest)))
}

/// Returns `true` if the name at the front of `text` is a bool.
fn opens_bool(text: &str) -> bool
    ensures { result ≡ is_bool (first_name (chars text.now)) }
{
    match bool_len(text) {
        Some(len) => !continues_name(&text[len..]),
        None => false,
    }
}

/// Returns the length in bytes of the bool that `text` starts with, or `None` if there is none. The
/// name that it begins may be longer.
pub fn bool_len(text: &str) -> Option<usize>
    ensures some { IfSome result (λ len. (b : Bool)
        × IsTrue (begins_with (bool_text b) text.now)
        × (len ≡ length (bool_text b))) }
    ensures none { IfNone result ((b : Bool) → IsFalse (begins_with (bool_text b) text.now)) }
{
    match text.as_bytes() {
        [b't', b'r', b'u', b'e', ..] => Some(4),
        [b'f', b'a', b'l', b's', b'e', ..] => Some(5),
        _ => None,
    }
}

/// Returns `true` if a name may begin with `c`.
pub fn begins_name(c: char) -> bool
    ensures { result ≡ starts_identifier c }
{
    c == '_' || is_xid_start(c)
}

/// Returns `true` if `text` starts with a character that can continue a name.
pub fn continues_name(text: &str) -> bool
    ensures { result ≡ first_passes is_xid_continue (chars text.now) }
{
    matches!(split_first_char(text), Some((c, _)) if is_xid_continue(c))
}

/// Returns `true` if `text` is empty.
pub fn is_empty(text: &str) -> bool
    ensures { result ≡ is_empty (chars text.now) }
{
    text.is_empty()
}

/// Returns the part of `text` after the name at its front, or all of `text` if no name is there.
pub fn after_name(text: &str) -> &str
    ensures rest { chars result.now ≡ after_name (chars text.now) }
    ensures end { IsEndOf text.now result.now }
{
    match split_first_char(text) {
        Some((c, after)) if begins_name(c) => after_run(after),
        _ => text,
    }
}

/// Returns the part of `text` after the characters at its front that can continue a name. ASCII
/// characters are passed by their bytes.
pub fn after_run(text: &str) -> &str
    ensures rest { chars result.now ≡ after_run (chars text.now) }
    ensures end { IsEndOf text.now result.now }
{
    let mut rest = &text[run_end(text.as_bytes(), Run::Identifier)..];
    loop {
        match split_first_char(rest) {
            Some((c, after)) if is_xid_continue(c) => rest = after,
            _ => return rest,
        }
    }
}

/// Returns the part of `text` after the hashes at its front.
pub fn after_hashes(text: &str) -> &str
    ensures { chars result.now ≡ after_hashes (chars text.now) }
{
    &text[hash_len(text.as_bytes())..]
}
