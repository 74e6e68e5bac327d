//! Escapes.
ghost use Rattle.std.specs.Prelude.{◌≡◌, ◌≢◌, [], ◌∷◌, ◌+◌, Bool, true, ◌&&◌, ◌||◌, ◌==◌, codes, drop, IfOk, IfErr, IsTrue, IsFalse, SomeIff, chars};
ghost use Rattle.std.specs.Char.{is_ascii_hexdigit};
ghost use Rattle.litrs_base.specs.Characters.{backslash, letter_x, letter_u, underscore, close_brace, nul_is_allowed};
ghost use Rattle.litrs_base.specs.Text.{first_passes, is_empty, begins_with};
ghost use Rattle.litrs_grammar.specs.Escape.{is_simple, simple_value, pair_value};
ghost use Rattle.litrs_lex.specs.Unescaped.{switches, IsUnescaped, IsEscapeRefused, HasEscapeRefusal, IsHexDigits};

use crate::allowed::switches;
use crate::parse::{begins_with_byte, has_byte, hex_digit_value};
use litrs_base::{ParseError, ParseErrorKind, Switches, Unescape};

/// Parses the escape at the front of `input`, which is empty or starts with a backslash. Returns
/// its value and its length in bytes: for `\n12` these are the byte 10 and 2. See [the
/// reference][ref].
///
/// `unicode` allows `\u{..}`, `byte_escapes` allows `\x80` to `\xff`, and `allow_nul` allows
/// escapes with the value 0.
///
/// # Errors
///
/// The spans count from the backslash.
/// - `UnterminatedEscape` at 0..1 if `input` has fewer than two characters, even if it is empty. It
///   is over all of `input` if that begins with `\x` and byte 4 is not a character boundary of it:
///   for `\x1`, and for `\xaé`.
/// - `DisallowedNulEscape` over the escape if its value is 0 and that is not allowed.
/// - `InvalidXEscape` if `\x` is not followed by two hex digits, and `NonAsciiXEscape` if their
///   value is above 7F and that is not allowed, both at 0..4.
/// - `UnicodeEscapeInByteLiteral` if `\u` is not allowed, and `UnicodeEscapeWithoutBrace` if it is
///   not followed by `{`, both at 0..2.
/// - `UnterminatedUnicodeEscape` over all of `input` if no `}` follows. The next errors are about
///   the text before the first `}`.
/// - `InvalidStartOfUnicodeEscape` at 3..4 if it is empty or starts with `_`.
/// - `NonHexDigitInUnicodeEscape` at the first character that is neither a hex digit nor `_`, or
///   `TooManyDigitInUnicodeEscape` at the seventh digit, whichever comes first, over its first
///   byte.
/// - `InvalidUnicodeEscapeChar` over the escape if the value is not a character.
/// - `UnknownEscape` at 0..2 if another character follows the backslash.
///
/// [ref]: https://doc.rust-lang.org/reference/tokens.html#character-escapes
#[inline(always)]
pub fn unescape(
    input: &str,
    unicode: bool,
    byte_escapes: bool,
    allow_nul: bool,
) -> Result<(Unescape, usize), ParseError>
    requires { IsTrue (is_empty (chars input.now)
        || first_passes (λ c. c == backslash) (chars input.now)) }
    ensures ok { IfOk result (λ read.
        IsUnescaped (switches unicode byte_escapes allow_nul) input.now read.0 read.1) }
    ensures refused { IfErr result
        (IsEscapeRefused (switches unicode byte_escapes allow_nul) (chars input.now)) }
{
    unescape_with(input, switches(unicode, byte_escapes, allow_nul))
}

/// Like [`unescape`], with the switches in one value.
///
/// # Errors
///
/// Returns the errors of [`unescape`].
#[inline(always)]
pub fn unescape_with(input: &str, allowed: Switches) -> Result<(Unescape, usize), ParseError>
    requires { IsTrue (is_empty (chars input.now)
        || first_passes (λ c. c == backslash) (chars input.now)) }
    ensures ok { IfOk result (λ read. IsUnescaped allowed input.now read.0 read.1) }
    ensures refused { IfErr result (IsEscapeRefused allowed (chars input.now)) }
{
    let Some(letter) = input.as_bytes().get(1) else {
        return Err(ParseError::in_text(input, Some(0..1), ParseErrorKind::UnterminatedEscape));
    };
    match *letter {
        b'x' => unescape_hex(input, allowed),
        b'u' => if allowed.unicode {
            unescape_unicode(input, allowed)
        } else {
            let kind = ParseErrorKind::UnicodeEscapeInByteLiteral;
            Err(ParseError::in_text(input, Some(0..2), kind))
        },
        letter => unescape_simple(input, letter, allowed),
    }
}

/// The value of an escape and its length in bytes, or the error.
type Parsed = Result<(Unescape, usize), ParseError>;

/// Parses the escape of `input`, which starts with a backslash and `letter`, neither `x` nor `u`.
#[inline(always)]
fn unescape_simple(input: &str, letter: u8, allowed: Switches) -> Parsed
    requires begins { IsTrue (begins_with (backslash ∷ letter ∷ []) input.now) }
    requires no_hex { letter ≢ letter_x }
    requires no_unicode { letter ≢ letter_u }
    ensures ok { IfOk result (λ read. IsUnescaped allowed input.now read.0 read.1) }
    ensures refused { IfErr result (HasEscapeRefusal allowed (chars input.now)) }
{
    let Some(value) = simple_value(letter) else {
        return Err(ParseError::in_text(input, Some(0..2), ParseErrorKind::UnknownEscape));
    };
    if !allows_value(allowed, u32::from(value)) {
        return Err(ParseError::in_text(input, Some(0..2), ParseErrorKind::DisallowedNulEscape));
    }
    Ok((Unescape::Byte(value), 2))
}

/// The value of each letter after a backslash, or `-` if they are not an escape.
static SIMPLE_VALUES: [u8; 256] = *b"\
    ----------------------------------\"----'--------\0---------------\
    ----------------------------\\-----------------\n---\r-\t-----------\
    ----------------------------------------------------------------\
    ----------------------------------------------------------------";

/// Returns the value of a backslash and `letter`, or `None` if they are not an escape.
#[inline(always)]
pub(crate) fn simple_value(letter: u8) -> Option<u8>
    ensures { SomeIff result (IsTrue (is_simple letter)) (simple_value letter) }
{
    let value = SIMPLE_VALUES[letter as usize];
    if value != b'-' { Some(value) } else { None }
}

/// Parses the escape of `input`, which starts with `\x`.
#[inline(always)]
fn unescape_hex(input: &str, allowed: Switches) -> Parsed
    requires { IsTrue (begins_with (codes "\\x") input.now) }
    ensures ok { IfOk result (λ read. IsUnescaped allowed input.now read.0 read.1) }
    ensures refused { IfErr result (HasEscapeRefusal allowed (chars input.now)) }
{
    if !input.is_char_boundary(4) {
        let end = input.len();
        return Err(ParseError::in_text(input, Some(0..end), ParseErrorKind::UnterminatedEscape));
    }
    let bytes = input.as_bytes();
    let Some(value) = pair_value(bytes[2], bytes[3]) else {
        return Err(ParseError::in_text(input, Some(0..4), ParseErrorKind::InvalidXEscape));
    };
    if !allowed.byte_escapes && value >= 128 {
        return Err(ParseError::in_text(input, Some(0..4), ParseErrorKind::NonAsciiXEscape));
    }
    if !allows_value(allowed, u32::from(value)) {
        return Err(ParseError::in_text(input, Some(0..4), ParseErrorKind::DisallowedNulEscape));
    }
    Ok((Unescape::Byte(value), 4))
}

/// Returns `true` if an escape may have the value `value`.
#[inline(always)]
pub(crate) fn allows_value(allowed: Switches, value: u32) -> bool
    ensures { result ≡ nul_is_allowed allowed.allow_nul value }
{
    allowed.allow_nul || value != 0
}

/// Returns the value of two hex digits, or `None` if one of them is not a hex digit.
#[inline(always)]
fn pair_value(high: u8, low: u8) -> Option<u8>
    ensures { SomeIff result (IsTrue (is_ascii_hexdigit high && is_ascii_hexdigit low))
        (pair_value high low) }
{
    let high = hex_digit_value(high)?;
    let low = hex_digit_value(low)?;
    Some(16 * high + low)
}

/// Parses the escape of `input`, which starts with `\u`. Such escapes are allowed.
#[inline(always)]
fn unescape_unicode(input: &str, allowed: Switches) -> Parsed
    requires begins { IsTrue (begins_with (codes "\\u") input.now) }
    requires unicode { IsTrue allowed.unicode }
    ensures ok { IfOk result (λ read. IsUnescaped allowed input.now read.0 read.1) }
    ensures refused { IfErr result (HasEscapeRefusal allowed (chars input.now)) }
{
    let bytes = input.as_bytes();
    if !begins_with_byte(&bytes[2..], b'{') {
        let kind = ParseErrorKind::UnicodeEscapeWithoutBrace;
        return Err(ParseError::in_text(input, Some(0..2), kind));
    }
    let inner = &bytes[3..];
    let digits = hex_digits(inner);
    if begins_with_hex_digit(inner) && begins_with_byte(&inner[digits.len..], b'}') {
        unescape_digits(input, digits, allowed)
    } else {
        Err(unicode_escape_refusal(input, digits))
    }
}

fn begins_with_hex_digit(bytes: &[u8]) -> bool
    ensures { result ≡ first_passes is_ascii_hexdigit bytes.now }
{
    matches!(bytes.first(), Some(first) if first.is_ascii_hexdigit())
}

/// A run of hex digits, at most six, and underscores.
#[derive(Clone, Copy, Debug, PartialEq, Eq)]
pub struct HexDigits {
    /// The length in bytes.
    pub len: usize,
    /// The number that the digits write.
    pub value: u32,
}

/// Returns the hex digits and underscores at the front of `bytes`, up to the seventh digit: for
/// `1_F6}` they have 4 bytes and the number 502.
#[inline(always)]
pub fn hex_digits(bytes: &[u8]) -> HexDigits
    ensures { IsHexDigits bytes.now result }
{
    let mut len = 0;
    let mut count: usize = 0;
    let mut value = 0;
    while len < bytes.len() {
        let byte = bytes[len];
        // A run of underscores is skipped by four, in a loop with few jumps.
        if byte == b'_' && bytes[len..].starts_with(b"____") {
            len += 4;
            continue;
        }
        if byte != b'_' {
            match hex_digit_value(byte) {
                Some(digit) if count < 6 => {
                    count += 1;
                    value = 16 * value + u32::from(digit);
                }
                _ => break,
            }
        }
        len += 1;
    }
    HexDigits { len, value }
}

/// Parses the escape of `input`, which starts with `\u{`, `digits` and `}`.
#[inline(always)]
fn unescape_digits(input: &str, digits: HexDigits, allowed: Switches) -> Parsed
    requires begins { IsTrue (begins_with (codes "\\u{") input.now) }
    requires digits { IsHexDigits (drop 3 input.now) digits }
    requires closed { IsTrue (first_passes is_ascii_hexdigit (drop 3 input.now)
        && first_passes (λ c. c == close_brace) (drop digits.len (drop 3 input.now))) }
    requires unicode { IsTrue allowed.unicode }
    ensures ok { IfOk result (λ read. IsUnescaped allowed input.now read.0 read.1) }
    ensures refused { IfErr result (HasEscapeRefusal allowed (chars input.now)) }
{
    let end = 4 + digits.len;
    if !allows_value(allowed, digits.value) {
        let kind = ParseErrorKind::DisallowedNulEscape;
        return Err(ParseError::in_text(input, Some(0..end), kind));
    }
    match char::from_u32(digits.value) {
        Some(value) => Ok((Unescape::Unicode(value), end)),
        None => {
            let kind = ParseErrorKind::InvalidUnicodeEscapeChar;
            Err(ParseError::in_text(input, Some(0..end), kind))
        }
    }
}

/// Returns the error of `input`, which starts with `\u{` and has no hex digit after it, or no `}`
/// after `digits`.
fn unicode_escape_refusal(input: &str, digits: HexDigits) -> ParseError
    requires begins { IsTrue (begins_with (codes "\\u{") input.now) }
    requires digits { IsHexDigits (drop 3 input.now) digits }
    requires open { IsFalse (first_passes is_ascii_hexdigit (drop 3 input.now)
        && first_passes (λ c. c == close_brace) (drop digits.len (drop 3 input.now))) }
    ensures { (byte_escapes allow_nul : Bool) →
        HasEscapeRefusal (switches true byte_escapes allow_nul) (chars input.now) result }
{
    let inner = &input.as_bytes()[3..];
    let after = &inner[digits.len..];
    let place = 3 + digits.len;
    if !has_byte(after, b'}') {
        let kind = ParseErrorKind::UnterminatedUnicodeEscape;
        ParseError::in_text(input, Some(0..input.len()), kind)
    } else if begins_wrongly(inner) {
        let kind = ParseErrorKind::InvalidStartOfUnicodeEscape;
        ParseError::in_text(input, Some(3..4), kind)
    } else if begins_with_hex_digit(after) {
        let kind = ParseErrorKind::TooManyDigitInUnicodeEscape;
        ParseError::in_text(input, Some(place..place + 1), kind)
    } else {
        let kind = ParseErrorKind::NonHexDigitInUnicodeEscape;
        ParseError::in_text(input, Some(place..place + 1), kind)
    }
}

/// Returns `true` if `bytes` starts with `}` or `_`.
fn begins_wrongly(bytes: &[u8]) -> bool
    ensures { result ≡ first_passes (λ c. (c == close_brace) || (c == underscore)) bytes.now }
{
    matches!(bytes.first(), Some(b'}' | b'_'))
}
