//! Names at the front of a text.
ghost use Rattle.std.specs.Prelude.{◌≡◌, ◌<◌, ◌==◌, ◌&&◌, length, ◌∷◌, IsTrue, IsFalse, IfSome, IfNone};
ghost use Rattle.std.specs.Str.{chars};
ghost use Rattle.litrs_base.specs.Characters.{letter_b, letter_r, hash};
ghost use Rattle.litrs_base.specs.Text.{first_passes};
ghost use Rattle.litrs_grammar.specs.Bool.{is_bool};
ghost use Rattle.litrs_grammar.specs.Suffix.{starts_identifier};
ghost use Rattle.litrs_prefix.specs.Ends.{IsEndOf};
ghost use Rattle.litrs_prefix.specs.Prefix.{is_quote_or_hash};
ghost use Rattle.litrs_prefix.specs.Opens.{is_single_quote, first_name, after_run, after_name};
ghost use Rattle.litrs_lexer.specs.Cut.{begins_bool, begins_prefix, IsFirstChar};
ghost use Rattle.litrs_lexer.specs.Identifier.{begins_name, begins_raw_name};
ghost use Rattle.litrs_lexer.specs.Lifetime.{is_hash};
ghost use Rattle.litrs_lexer.specs.Literal.{opens_quoted};

use crate::ascii::{Class, class_len, starts_beyond_ascii};
use litrs_base::split_first_char;
use litrs_lex::cut_bool;
use litrs_prefix::{after_name, begins_name, opens};

/// Returns the part of `text` after the characters at its front that can continue a name.
#[inline(always)]
pub fn after_run(text: &str) -> &str
    ensures rest { chars result.now ≡ after_run (chars text.now) }
    ensures end { IsEndOf text.now result.now }
{
    let (_, rest) = text.split_at(class_len(text.as_bytes(), Class::Word));
    if starts_beyond_ascii(rest) {
        litrs_prefix::after_run(rest)
    } else {
        rest
    }
}

/// Returns the name at the front of `text`. `rest` is the part of `text` after it.
#[inline(always)]
pub fn name_before<'a>(text: &'a str, rest: &str) -> &'a str
    requires name { chars rest.now ≡ after_name (chars text.now) }
    requires end { IsEndOf text.now rest.now }
    ensures { chars result.now ≡ first_name (chars text.now) }
{
    text.split_at(text.len() - rest.len()).0
}

/// Returns `true` if `name` is `true` or `false`.
#[inline(always)]
fn is_bool(name: &str) -> bool
    ensures { result ≡ is_bool (chars name.now) }
{
    match cut_bool(name) {
        Some(_) => true,
        None => false,
    }
}

/// Returns `true` if the name at the front of `text`, which is `c` and `after`, is `true` or
/// `false`. `rest` is the part of `text` after the name.
#[inline(always)]
pub fn starts_with_bool(text: &str, c: char, after: &str, rest: &str) -> bool
    requires first { IsFirstChar text.now c after.now }
    requires name { chars rest.now ≡ after_name (chars text.now) }
    requires end { IsEndOf text.now rest.now }
    ensures { result ≡ is_bool (first_name (chars text.now)) }
{
    if begins_bool(c) {
        is_bool(name_before(text, rest))
    } else {
        false
    }
}

/// Returns `true` if `true` or `false` starts with the character.
#[inline(always)]
fn begins_bool(c: char) -> bool
    ensures { result ≡ begins_bool c }
{
    c == 't' || c == 'f'
}

/// Returns `true` if `text` starts with a name.
pub fn starts_with_name(text: &str) -> bool
    ensures { result ≡ begins_name (chars text.now) }
{
    match split_first_char(text) {
        Some((c, _)) => begins_name(c),
        None => false,
    }
}

/// Returns `true` if `text` starts with `"`, `'` or `#`.
#[inline(always)]
pub fn starts_with_quote_or_hash(text: &str) -> bool
    ensures { result ≡ first_passes is_quote_or_hash (chars text.now) }
{
    match text.as_bytes() {
        [first, ..] => is_quote_or_hash(*first),
        _ => false,
    }
}

#[inline(always)]
fn is_quote_or_hash(b: u8) -> bool
    ensures { result ≡ is_quote_or_hash b }
{
    b == b'"' || b == b'\'' || b == b'#'
}

/// Returns `true` if `text` starts with `'`.
#[inline(always)]
pub fn starts_with_single_quote(text: &str) -> bool
    ensures { result ≡ first_passes is_single_quote (chars text.now) }
{
    match text.as_bytes() {
        [first, ..] => *first == b'\'',
        _ => false,
    }
}

/// Returns `true` if `text` starts with `#`.
pub fn starts_with_hash(text: &str) -> bool
    ensures { result ≡ first_passes is_hash (chars text.now) }
{
    match split_first_char(text) {
        Some((c, _)) => c == '#',
        None => false,
    }
}

/// Returns the part of `text` after `r#`, or `None` if `text` does not start with `r#` and a name.
pub fn after_raw_mark(text: &str) -> Option<&str>
    ensures some { IfSome result (λ name.
        (chars text.now ≡ letter_r ∷ hash ∷ chars name.now)
        × IsTrue (begins_name (chars name.now))) }
    ensures end { IfSome result (λ name. IsEndOf text.now name.now) }
    ensures shorter { IfSome result (λ name. length name.now < length text.now) }
    ensures none { IfNone result (IsFalse (begins_raw_name (chars text.now))) }
{
    match split_first_char(text) {
        Some((c, after)) => match split_first_char(after) {
            Some((d, name)) => {
                if c == 'r' && d == '#' && starts_with_name(name) {
                    Some(name)
                } else {
                    None
                }
            }
            None => None,
        },
        None => None,
    }
}

/// Like [`after_raw_mark`], for a text that is `c` and `after`.
#[inline(always)]
pub fn raw_name<'a>(text: &'a str, c: char, after: &str) -> Option<&'a str>
    requires { IsFirstChar text.now c after.now }
    ensures some { IfSome result (λ name.
        (chars text.now ≡ letter_r ∷ hash ∷ chars name.now)
        × IsTrue (begins_name (chars name.now))) }
    ensures end { IfSome result (λ name. IsEndOf text.now name.now) }
    ensures shorter { IfSome result (λ name. length name.now < length text.now) }
    ensures none { IfNone result (IsFalse (begins_raw_name (chars text.now))) }
{
    if c == 'r' { after_raw_mark(text) } else { None }
}

/// Returns `true` if a literal that is not a bool begins at the front of `text`, which starts with
/// a name and is `c` and `after`.
pub fn opens_prefixed(text: &str, c: char, after: &str) -> bool
    requires first { IsFirstChar text.now c after.now }
    requires name { IsTrue (starts_identifier c) }
    ensures { result ≡ opens_quoted (chars text.now) }
{
    if begins_prefix(c) { opens(text) } else { false }
}

/// Returns `true` if the prefix of a literal starts with the character.
#[inline(always)]
fn begins_prefix(c: char) -> bool
    ensures { result ≡ begins_prefix c }
{
    c == 'b' || c == 'c' || c == 'r'
}

/// Returns `true` if `c` and `after` begin a byte.
#[inline(always)]
pub fn begins_byte(c: char, after: &str) -> bool
    ensures { result ≡ ((c == letter_b) && first_passes is_single_quote (chars after.now)) }
{
    c == 'b' && starts_with_single_quote(after)
}
