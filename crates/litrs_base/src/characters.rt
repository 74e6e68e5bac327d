//! The characters at the front of a text.
ghost use Rattle.std.specs.Prelude.{◌≡◌, ◌<◌, ◌++◌, ◌∷◌, [], length, IfSome, IfNone};
ghost use Rattle.std.specs.Char.{encode_utf8, is_ascii_digit};
ghost use Rattle.std.specs.Str.{chars, IsUtf8};
ghost use Rattle.litrs_base.specs.Text.{first_passes};

/// Returns the first character of `text` and the text after it, or `None` if `text` is empty.
#[inline(always)]
pub fn split_first_char(text: &str) -> Option<(char, &str)>
    ensures empty { IfNone result (chars text.now ≡ []) }
    ensures parts { IfSome result (λ parts. chars text.now ≡ parts.0 ∷ chars parts.1.now) }
    ensures bytes { IfSome result (λ parts. text.now ≡ encode_utf8 parts.0 ++ parts.1.now) }
    ensures rest { IfSome result (λ parts. IsUtf8 parts.1.now) }
    ensures shorter { IfSome result (λ parts. length parts.1.now < length text.now) }
{
    let mut chars = text.chars();
    let first = chars.next()?;
    Some((first, chars.as_str()))
}

/// Returns `true` if `text` starts with a decimal digit.
#[inline(always)]
pub fn begins_with_digit(text: &str) -> bool
    ensures { result ≡ first_passes is_ascii_digit (chars text.now) }
{
    matches!(text.as_bytes().first(), Some(first) if first.is_ascii_digit())
}
