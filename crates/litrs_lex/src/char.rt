//! Chars and bytes.
ghost use Rattle.std.specs.Prelude.{◌≡◌, ◌≢◌, ◌+◌, ◌∷◌, [], codes, drop, IsTrue, IfOk, IfErr, None, Some, if◌then◌else◌, chars, IsCharBoundary};
ghost use Rattle.litrs_base.specs.Characters.{single_quote, backslash};
ghost use Rattle.litrs_base.specs.Derivations.{IsOnlyDerivation};
ghost use Rattle.litrs_base.specs.Refusal.{refusal_of, HasCharSpan};
ghost use Rattle.litrs_base.specs.Text.{begins_with};
ghost use Rattle.litrs_base.specs.declared.quotes.CharKind.TheVariants.{Char as char_kind, Byte as byte_kind};
ghost use Rattle.litrs_grammar.specs.CharByte.{char_value, IsCharLiteral, is_special_whitespace, unterminated_kind, overlong_kind, closing_refusal};
ghost use Rattle.litrs_grammar.specs.Literal.{kind_parse, char_literal, byte_literal};
ghost use Rattle.litrs_grammar.specs.Refused.{IsRefused};
ghost use Rattle.litrs_lex.specs.CharCut.{char_parts_at, IsItemRead, IsItemRefused, IsCutAfter};

use crate::escape::unescape_with;
use crate::parse::{begins_with_byte, check_suffix, has_byte};
use litrs_base::{CharKind, ParseError, ParseErrorKind, Unescape, split_first_char};

/// Cuts `input`, which starts with `'`, as a char. Returns its value and the place of its suffix,
/// in bytes: for `'\n'u8` these are LF and 4. See [the reference][ref].
///
/// # Errors
///
/// - `UnterminatedCharLiteral` if nothing follows the first quote, or no quote closes the literal.
/// - `UnescapedSingleQuote` for `'''`, at 1..2, and `EmptyCharLiteral` for another `''`.
/// - `UnescapedSpecialWhitespace` for LF, tab or CR, at 1..2.
/// - The error of [`unescape`](crate::unescape), with both spans moved by one byte.
/// - `OverlongCharLiteral` if a quote follows, but not directly.
/// - The error of [`check_suffix`], at the first byte of the suffix.
///
/// [ref]: https://doc.rust-lang.org/reference/tokens.html#character-literals
// This is not inlined, so `parse` is small enough to be. Each of the two kinds has a function,
// so that neither tests the kind.
#[inline(never)]
pub fn cut_char(input: &str) -> Result<(char, usize), ParseError>
    requires { IsTrue (begins_with (codes "'") input.now) }
    ensures ok { IfOk result (λ cut.
        IsOnlyDerivation (IsCharLiteral char_kind (chars input.now))
        (char_parts_at char_kind cut.1 input.now)) }
    ensures value { IfOk result (λ cut.
        char_value (char_parts_at char_kind cut.1 input.now).item ≡ cut.0) }
    ensures place { IfOk result (λ cut. IsCharBoundary input.now cut.1) }
    ensures refused { IfErr result (IsRefused (kind_parse char_literal) (chars input.now)) }
{
    match cut_after(&input[1..], CharKind::Char) {
        Ok((value, start)) => Ok((value.unwrap_char(), 1 + start)),
        Err(e) => Err(e.offset_span(1)),
    }
}

/// Cuts `input`, which starts with `b'`, as a byte. Returns its value and the place of its suffix,
/// in bytes: for `b'\xff'` these are 255 and 7. See [the reference][ref].
///
/// # Errors
///
/// - `UnterminatedByteLiteral` if nothing follows the first quote, or no quote closes the literal.
/// - `UnescapedSingleQuote` for `b'''`, at 2..3, and `EmptyByteLiteral` for another `b''`.
/// - `UnescapedSpecialWhitespace` for LF, tab or CR, and `NonAsciiInByteLiteral` for a character
///   that is not ASCII, at its first byte.
/// - The error of [`unescape`](crate::unescape), with both spans moved by two bytes.
/// - `OverlongByteLiteral` if a quote follows, but not directly.
/// - The error of [`check_suffix`], at the first byte of the suffix.
///
/// [ref]: https://doc.rust-lang.org/reference/tokens.html#byte-literals
// This is not inlined, so `parse` is small enough to be.
#[inline(never)]
pub fn cut_byte(input: &str) -> Result<(u8, usize), ParseError>
    requires { IsTrue (begins_with (codes "b'") input.now) }
    ensures ok { IfOk result (λ cut.
        IsOnlyDerivation (IsCharLiteral byte_kind (chars input.now))
        (char_parts_at byte_kind cut.1 input.now)) }
    ensures value { IfOk result (λ cut.
        char_value (char_parts_at byte_kind cut.1 input.now).item ≡ cut.0) }
    ensures place { IfOk result (λ cut. IsCharBoundary input.now cut.1) }
    ensures refused { IfErr result (IsRefused (kind_parse byte_literal) (chars input.now)) }
{
    match cut_after(&input[2..], CharKind::Byte) {
        Ok((value, start)) => Ok((value.unwrap_byte(), 2 + start)),
        Err(e) => Err(e.offset_span(2)),
    }
}

/// Returns the value of a literal and the place of its suffix, by `rest`, the text after the front.
#[inline(always)]
fn cut_after(rest: &str, kind: CharKind) -> Result<(Unescape, usize), ParseError>
    ensures ok { IfOk result (λ cut. IsCutAfter kind rest.now cut.0 cut.1) }
    ensures refused { IfErr result (IsItemRefused kind (chars rest.now)) }
{
    let (value, len) = read_item(rest, kind)?;
    let start = check_closing(rest, len, kind)?;
    Ok((value, start))
}

/// Returns the character or escape at the front of `rest`, and its length in bytes.
#[inline(always)]
fn read_item(rest: &str, kind: CharKind) -> Result<(Unescape, usize), ParseError>
    ensures ok { IfOk result (λ read. IsItemRead kind rest.now read.0 read.1) }
    ensures refused { IfErr result (IsItemRefused kind (chars rest.now)) }
{
    let Some(first) = rest.as_bytes().first() else {
        return Err(ParseError::new(None, unclosed_kind(kind, false)));
    };
    match *first {
        b'\'' => Err(quote_refusal(rest, kind)),
        b'\\' => unescape_with(rest, kind.switches()),
        first => read_plain(rest, first, kind),
    }
}

/// Returns the error of `rest`, which starts with `'`.
fn quote_refusal(rest: &str, kind: CharKind) -> ParseError
    requires { IsTrue (begins_with (single_quote ∷ []) rest.now) }
    ensures { IsItemRefused kind (chars rest.now) result }
{
    if begins_with_byte(&rest.as_bytes()[1..], b'\'') {
        return ParseError::in_text(rest, Some(0..1), ParseErrorKind::UnescapedSingleQuote);
    }
    match kind {
        CharKind::Char => ParseError::new(None, ParseErrorKind::EmptyCharLiteral),
        CharKind::Byte => ParseError::new(None, ParseErrorKind::EmptyByteLiteral),
    }
}

/// Returns the character at the front of `rest`, and its length in bytes. Its first byte is
/// `first`, which is neither `'` nor a backslash.
fn read_plain(rest: &str, first: u8, kind: CharKind) -> Result<(Unescape, usize), ParseError>
    requires begins { IsTrue (begins_with (first ∷ []) rest.now) }
    requires no_quote { first ≢ single_quote }
    requires no_backslash { first ≢ backslash }
    ensures ok { IfOk result (λ read. IsItemRead kind rest.now read.0 read.1) }
    ensures refused { IfErr result (IsItemRefused kind (chars rest.now)) }
{
    if is_special_whitespace(first) {
        let refusal = ParseErrorKind::UnescapedSpecialWhitespace;
        return Err(ParseError::in_text(rest, Some(0..1), refusal));
    }
    if first < 128 {
        return Ok((Unescape::Byte(first), 1));
    }
    match kind {
        CharKind::Byte => {
            Err(ParseError::in_text(rest, Some(0..1), ParseErrorKind::NonAsciiInByteLiteral))
        }
        CharKind::Char => match split_first_char(rest) {
            Some((c, _)) => Ok((Unescape::Unicode(c), c.len_utf8())),
            None => unreachable!(),
        },
    }
}

/// Returns the place of the suffix if the closing quote and a suffix follow the first `len` bytes.
#[inline(always)]
fn check_closing(rest: &str, len: usize, kind: CharKind) -> Result<usize, ParseError>
    requires { IsCharBoundary rest.now len }
    ensures ok { IfOk result (λ start.
        (closing_refusal kind len (chars (drop len rest.now)) ≡ None)
        × (start ≡ len + 1)) }
    ensures table { IfErr result (λ e.
        closing_refusal kind len (chars (drop len rest.now)) ≡ Some (refusal_of e)) }
    ensures char_span { IfErr result (HasCharSpan (chars rest.now)) }
{
    let after = &rest[len..];
    if !begins_with_byte(after.as_bytes(), b'\'') {
        let refusal = unclosed_kind(kind, has_byte(after.as_bytes(), b'\''));
        return Err(ParseError::new(None, refusal));
    }
    match check_suffix(&after[1..]) {
        Ok(()) => Ok(len + 1),
        Err(refusal) => Err(ParseError::in_text(rest, Some(len + 1..len + 2), refusal)),
    }
}

/// Returns `true` if `byte` is LF, tab or CR.
fn is_special_whitespace(byte: u8) -> bool
    ensures { result ≡ is_special_whitespace byte }
{
    matches!(byte, b'\n' | b'\t' | b'\r')
}

/// Returns the error kind of a literal that is not closed. `has_quote` is set if a quote follows,
/// but not directly.
fn unclosed_kind(kind: CharKind, has_quote: bool) -> ParseErrorKind
    ensures { result ≡ if has_quote then (overlong_kind kind) else (unterminated_kind kind) }
{
    match kind {
        CharKind::Char if has_quote => ParseErrorKind::OverlongCharLiteral,
        CharKind::Char => ParseErrorKind::UnterminatedCharLiteral,
        CharKind::Byte if has_quote => ParseErrorKind::OverlongByteLiteral,
        CharKind::Byte => ParseErrorKind::UnterminatedByteLiteral,
    }
}
