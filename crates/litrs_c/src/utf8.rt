//! The bytes of a caller as a text.
ghost use Rattle.std.specs.Prelude.{◌≡◌, MatchResult};
ghost use Rattle.std.specs.Str.{IsUtf8};

use std::str;
use std::str::Utf8Error;

/// Converts bytes to a text, like [`str::from_utf8`].
///
/// # Errors
///
/// Returns the error of [`str::from_utf8`] if `bytes` is not UTF-8.
// ASCII is tested first, since for up to 64 bytes of it that needs neither a loop nor a call.
#[inline(always)]
pub(crate) fn from_utf8(bytes: &[u8]) -> Result<&str, Utf8Error>
    ensures { MatchResult result (λ text. text.now ≡ bytes.now) (λ _. IsUtf8 bytes.now → ⊥) }
{
    if bytes.is_ascii() {
        Ok(unsafe { str::from_utf8_unchecked(bytes) })
    } else {
        str::from_utf8(bytes)
    }
}
