//! Raw strings of the three kinds.
ghost use Rattle.std.specs.Prelude.{◌≡◌, ◌≤◌, ℕ, Bool, length, drop, IsTrue, IsFalse, IsErr, IfOk, IfErr, Some, chars, IsUtf8, IsCharBoundary};
ghost use Rattle.litrs_base.specs.Finality.{is_open};
ghost use Rattle.litrs_base.specs.Refusal.{refusal};
ghost use Rattle.litrs_base.specs.Text.{first_passes, begins_with};
ghost use Rattle.litrs_grammar.specs.Raw.{is_quote, raw_closing, raw_char_kind, raw_body_refusal, raw_refusal};
ghost use Rattle.litrs_lex.specs.RawCut.{IsRawCut, IsRawRefused, IsRawOpening, IsStop, IsBodyCut};

use crate::allowed::switches;
use crate::hashes::{MAX_HASHES, hash_len, is_inner_quote};
use crate::search::{Mask, next_special_masked};
use crate::{Special, Switches, check_suffix, next_special};
use litrs_base::{ParseError, ParseErrorKind};
use std::ops::Range;

/// The span and the kind of an error.
type Refusal = (Option<Range<usize>>, ParseErrorKind);

/// Cuts the rest of a raw literal, from after its `r` on, into hashes, body and suffix.
///
/// The `r` ends at `offset`, a character boundary of `input`. Returns the number of hashes, at most
/// 255, and where the suffix begins, in bytes of `input`: `(2, 11)` for `r##"a"#b"##c` from 1 on.
/// `unicode` allows characters beyond ASCII in the body, and `allow_nul` NUL. See
/// [the reference][ref].
///
/// # Errors
///
/// - `InvalidLiteral` if the hashes end the text, or there are at most 255 and a character other
///   than `"` follows them;
/// - `TooManyHashes` over the hashes if there are more than 255, and they do not end the text;
/// - `CarriageReturn`, `NulByte` or `NonAsciiInByteLiteral` at the first character that the body
///   may not contain;
/// - `UnterminatedRawString` if the body is not closed;
/// - the error of [`check_suffix`] if no suffix follows the closing, at the first byte after it.
///
/// All spans count from the start of `input`.
///
/// [ref]: https://doc.rust-lang.org/reference/tokens.html#raw-string-literals
#[inline(always)]
pub fn scan_raw_string(
    input: &str,
    offset: usize,
    unicode: bool,
    allow_nul: bool,
) -> Result<(u8, usize), ParseError>
    requires { IsCharBoundary input.now offset }
    ensures ok { IfOk result (IsRawCut unicode allow_nul offset input.now) }
    ensures refused { IfErr result (IsRawRefused unicode allow_nul offset input.now) }
{
    match cut_raw(input, offset, switches(unicode, true, allow_nul)) {
        Ok(cut) => Ok(cut),
        Err((span, kind)) => Err(ParseError::in_text(input, span, kind)),
    }
}

/// Like [`scan_raw_string`], with the kind and the span of an error alone.
#[inline(always)]
fn cut_raw(input: &str, offset: usize, allowed: Switches) -> Result<(u8, usize), Refusal>
    requires { IsCharBoundary input.now offset }
    ensures ok { IfOk result (IsRawCut allowed.unicode allowed.allow_nul offset input.now) }
    ensures refused { IfErr result (λ r.
        raw_refusal allowed.unicode allowed.allow_nul offset (chars (drop offset input.now))
        ≡ Some (refusal r.0 r.1)) }
{
    let (hashes, start) = open_raw(input, offset)?;
    let place = cut_body(input, start, hashes, allowed)?;
    Ok((hashes as u8, place))
}

/// Reads the hashes of a raw literal, from after its `r` on, and the quote that opens its body.
///
/// The `r` ends at `offset`, a character boundary of `input`. Returns the number of hashes, at most
/// 255, and where the body begins, in bytes: `(2, 4)` for `r##"a"##` from 1 on. See
/// [the reference][ref].
///
/// # Errors
///
/// Returns the kind and the span of [`scan_raw_string`], which is not open, in three cases:
///
/// - The hashes end the text.
/// - There are more than 255.
/// - A character other than `"` follows at most 255.
///
/// [ref]: https://doc.rust-lang.org/reference/tokens.html#raw-string-literals
#[inline(always)]
pub fn open_raw(
    input: &str,
    offset: usize,
) -> Result<(usize, usize), (Option<Range<usize>>, ParseErrorKind)>
    requires { IsCharBoundary input.now offset }
    ensures ok { IfOk result (IsRawOpening offset input.now) }
    ensures refused { IfErr result (λ r. (unicode allow_nul : Bool) →
        raw_refusal unicode allow_nul offset (chars (drop offset input.now))
        ≡ Some (refusal r.0 r.1)) }
    ensures shut { IfErr result (λ r. IsFalse (is_open r.1)) }
    ensures none { IsErr result → (opening : ℕ × ℕ) → IsRawOpening offset input.now opening → ⊥ }
{
    let bytes = input.as_bytes();
    let hashes = hash_len(&bytes[offset..]);
    let opening = offset + hashes;
    if opening == bytes.len() {
        return Err((None, ParseErrorKind::InvalidLiteral));
    }
    if hashes > MAX_HASHES {
        return Err((Some(offset..opening), ParseErrorKind::TooManyHashes));
    }
    if bytes[opening] != b'"' {
        return Err((None, ParseErrorKind::InvalidLiteral));
    }
    Ok((hashes, opening + 1))
}

/// Returns where the suffix begins after a body from `start` on and its closing with `hashes`
/// hashes, or the kind and the span of the error.
#[inline(always)]
fn cut_body(input: &str, start: usize, hashes: usize, allowed: Switches) -> Result<usize, Refusal>
    requires { IsCharBoundary input.now start }
    ensures ok { IfOk result (IsBodyCut allowed.unicode allowed.allow_nul hashes start input.now) }
    ensures refused { IfErr result (λ r.
        raw_body_refusal allowed.unicode allowed.allow_nul hashes start
        (chars (drop start input.now))
        ≡ Some (refusal r.0 r.1)) }
{
    let bytes = input.as_bytes();
    let end = body_end(bytes, start, hashes, allowed);
    if end == bytes.len() {
        return Err((None, ParseErrorKind::UnterminatedRawString));
    }
    let byte = bytes[end];
    if byte != b'"' {
        return Err((Some(end..end + 1), char_refusal(byte)));
    }
    let place = end + 1 + hashes;
    let (_, suffix) = input.split_at(place);
    match check_suffix(suffix) {
        Ok(()) => Ok(place),
        Err(kind) => Err((Some(place..place + 1), kind)),
    }
}

/// Returns the first place from `start` on at which a raw body is closed by a quote and `hashes`
/// hashes, or contains a byte that it may not contain. If there is none, returns the end of the
/// text. In `a"b"#` from 0 on with one hash that is 3.
#[inline(always)]
pub fn body_end(bytes: &[u8], start: usize, hashes: usize, allowed: Switches) -> usize
    requires { (start ≤ length bytes.now) × IsUtf8 (drop start bytes.now) }
    ensures stop { IsStop allowed.unicode allowed.allow_nul hashes start bytes.now result }
    ensures closing { IsTrue (first_passes is_quote (drop result bytes.now))
        → IsTrue (begins_with (raw_closing hashes) (drop result bytes.now)) }
{
    let what = Special {
        backslash: false,
        nul: !allowed.allow_nul,
        non_ascii: !allowed.unicode,
    };
    let mut place = next_special(bytes, start, what);
    let mut mask = Mask::empty_at(place);
    while is_inner_quote(&bytes[place..], hashes) {
        (place, mask) = next_special_masked(bytes, place + 1, what, mask);
    }
    place
}

/// Returns the error kind of a character that a body may not contain, by its first byte.
pub(crate) fn char_refusal(byte: u8) -> ParseErrorKind
    ensures { result ≡ raw_char_kind byte }
{
    match byte {
        b'\r' => ParseErrorKind::CarriageReturn,
        0 => ParseErrorKind::NulByte,
        _ => ParseErrorKind::NonAsciiInByteLiteral,
    }
}
