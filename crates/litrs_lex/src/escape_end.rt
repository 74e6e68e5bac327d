//! The beginnings of escapes.
ghost use Rattle.std.specs.Prelude.{◌≡◌, ◌&&◌, IsTrue, count_by};
ghost use Rattle.std.specs.Char.{is_ascii_hexdigit};
ghost use Rattle.litrs_base.specs.Characters.{is_scalar, nul_is_allowed};
ghost use Rattle.litrs_grammar.specs.GoesOn.Escape.{escape_goes_on, inner_goes_on};

use crate::escape::hex_digits;
use crate::{Switches, hex_digit_value};

/// Returns `true` if some text after an invalid escape makes it valid, by the bytes `after` its
/// backslash. `allowed` is that of [`unescape_with`](crate::unescape_with).
pub fn refused_escape_goes_on(after: &[u8], allowed: Switches) -> bool
    ensures { result ≡ escape_goes_on allowed after.now }
{
    match after {
        [] | [b'x'] => true,
        // A digit is at most 7 unless `\x80` to `\xff` are allowed.
        [b'x', high] => match hex_digit_value(*high) {
            Some(high) => allowed.byte_escapes || high < 8,
            None => false,
        },
        [b'u'] => allowed.unicode,
        [b'u', b'{', inner @ ..] => allowed.unicode && inner_goes_on(inner, allowed),
        _ => false,
    }
}

/// Returns `true` if `\u{` and `inner` begin an escape: `inner` is empty, or a hex digit with hex
/// digits and underscores after it. With at most five digits one more digit can always make the
/// value valid; six digits must have an allowed value.
fn inner_goes_on(inner: &[u8], allowed: Switches) -> bool
    requires { IsTrue allowed.unicode }
    ensures { result ≡ inner_goes_on allowed inner.now }
{
    match inner {
        [] => true,
        [first, ..] if first.is_ascii_hexdigit() => {
            let digits = hex_digits(inner);
            let is_all = digits.len == inner.len();
            is_all && (hex_digit_count(inner) < 6 || is_value(digits.value, allowed.allow_nul))
        }
        _ => false,
    }
}

/// Returns the number of hex digits in `bytes`.
fn hex_digit_count(bytes: &[u8]) -> usize
    ensures { result ≡ count_by is_ascii_hexdigit bytes.now }
{
    bytes.iter().filter(|b| b.is_ascii_hexdigit()).count()
}

/// Returns `true` if a `\u{..}` may have this value.
fn is_value(value: u32, allow_nul: bool) -> bool
    ensures { result ≡ (nul_is_allowed allow_nul value && is_scalar value) }
{
    (allow_nul || value != 0) && char::from_u32(value).is_some()
}
