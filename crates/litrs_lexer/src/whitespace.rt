//! White space at the front of a text.
ghost use Rattle.std.specs.Prelude.{◌≡◌, ◌||◌};
ghost use Rattle.std.specs.Str.{chars};
ghost use Rattle.litrs_prefix.specs.Ends.{IsEndOf};
ghost use Rattle.litrs_base.specs.Text.{first_passes};
ghost use Rattle.litrs_lexer.specs.Cut.{is_ascii_white_space, is_wide};
ghost use Rattle.litrs_lexer.specs.Whitespace.{is_white_space, after_white_space};

use crate::ascii::{Class, class_len, is_of_class, starts_beyond_ascii};
use litrs_base::split_first_char;

/// Returns `true` if the character has the Unicode property Pattern_White_Space.
#[inline(always)]
pub fn is_white_space(c: char) -> bool
    ensures { result ≡ is_white_space c }
{
    c == ' '
        || ('\t' <= c && c <= '\r')
        || c == '\u{85}'
        || c == '\u{200E}'
        || c == '\u{200F}'
        || c == '\u{2028}'
        || c == '\u{2029}'
}

/// Returns the part of `text` after the white space at its front.
#[inline(always)]
pub fn after_white_space(text: &str) -> &str
    ensures rest { chars result.now ≡ after_white_space (chars text.now) }
    ensures end { IsEndOf text.now result.now }
{
    if may_start_with_white_space(text) {
        after_run_of_white_space(text)
    } else {
        text
    }
}

/// Returns `true` if `text` starts with white space of ASCII or a character that is not ASCII.
#[inline(always)]
fn may_start_with_white_space(text: &str) -> bool
    ensures { result
        ≡ (first_passes is_ascii_white_space text.now || first_passes is_wide text.now) }
{
    match text.as_bytes() {
        [first, ..] => is_of_class(*first, Class::Space) || *first >= 128,
        _ => false,
    }
}

/// Like [`after_white_space`], without the test of the first byte.
#[inline(always)]
fn after_run_of_white_space(text: &str) -> &str
    ensures rest { chars result.now ≡ after_white_space (chars text.now) }
    ensures end { IsEndOf text.now result.now }
{
    let (_, rest) = text.split_at(class_len(text.as_bytes(), Class::Space));
    if starts_beyond_ascii(rest) {
        after_any_white_space(rest)
    } else {
        rest
    }
}

/// Like [`after_white_space`], but reads character by character.
#[inline(never)]
fn after_any_white_space(text: &str) -> &str
    ensures rest { chars result.now ≡ after_white_space (chars text.now) }
    ensures end { IsEndOf text.now result.now }
{
    let mut rest = text;
    loop {
        match split_first_char(rest) {
            Some((c, after)) if is_white_space(c) => rest = after,
            _ => return rest,
        }
    }
}
