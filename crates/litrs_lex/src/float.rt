//! Floats.
ghost use Rattle.std.specs.Prelude.{◌≡◌, ◌≤◌, drop, length, IsTrue, IsFalse, IfOk, IfErr, option_map, chars};
ghost use Rattle.std.specs.Char.{is_ascii_digit};
ghost use Rattle.std.specs.List.{prefix_len};
ghost use Rattle.litrs_base.specs.Refusal.{refusal};
ghost use Rattle.litrs_base.specs.Derivations.{IsOnlyDerivation};
ghost use Rattle.litrs_base.specs.Text.{first_passes};
ghost use Rattle.litrs_grammar.specs.Float.{IsFloatOf, fraction_text, fraction_of, exponent_of, sign_len, is_decimal_char, has_wrong_fraction, float_cut, float_cut_refusal};
ghost use Rattle.litrs_grammar.specs.Literal.{kind_parse, float_literal};
ghost use Rattle.litrs_grammar.specs.Refused.{IsRefused};
ghost use Rattle.litrs_lex.specs.FloatCut.{float_parts_at, IsFloatWithin, IsPartsCut};

use crate::parse::{check_suffix, end_dec_digits};
use litrs_base::{ParseError, ParseErrorKind};
use std::ops::Range;

/// The places at which a float is cut, in bytes.
#[derive(Clone, Copy, Debug, PartialEq, Eq)]
pub struct FloatCut {
    /// The end of the integer part, which starts at 0.
    pub end_integer: usize,
    /// The end of the period and the fraction, or of the integer part if there is no period.
    pub end_fraction: usize,
    /// The end of the exponent, or of the fraction if there is none. The suffix starts here.
    pub end_number: usize,
}

/// Cuts `input`, which starts with a decimal digit, as a float, into integer part, fraction,
/// exponent and suffix. `147.3_33__E3f64` is cut at 3, 10 and 12. See [the reference][ref].
///
/// # Errors
///
/// - `UnexpectedChar` if the period is followed by another character than a decimal digit, at the
///   first byte of the character.
/// - `NoExponentDigits` over the exponent if it has no digit.
/// - The error of [`check_suffix`] over the rest of `input` if that is not a suffix.
/// - `UnexpectedIntegerLit` if there is neither a period nor an exponent.
///
/// [ref]: https://doc.rust-lang.org/reference/tokens.html#floating-point-literals
pub fn cut_float(input: &str) -> Result<FloatCut, ParseError>
    requires { IsTrue (first_passes is_ascii_digit input.now) }
    ensures ok { IfOk result (λ cut.
        IsOnlyDerivation (IsFloatOf (chars input.now)) (float_parts_at cut input.now)) }
    ensures places { IfOk result (λ cut. IsFloatWithin cut input.now) }
    ensures refused { IfErr result (IsRefused (kind_parse float_literal) (chars input.now)) }
{
    cut_float_at(input, end_dec_digits(input.as_bytes()))
}

/// Like [`cut_float`], for an input whose integer part ends at `end_integer`.
#[inline(always)]
pub(crate) fn cut_float_at(input: &str, end_integer: usize) -> Result<FloatCut, ParseError>
    requires digit { IsTrue (first_passes is_ascii_digit input.now) }
    requires integer { end_integer ≡ prefix_len is_decimal_char input.now }
    requires within { end_integer ≤ length input.now }
    ensures ok { IfOk result (λ cut.
        IsOnlyDerivation (IsFloatOf (chars input.now)) (float_parts_at cut input.now)) }
    ensures places { IfOk result (λ cut. IsFloatWithin cut input.now) }
    ensures refused { IfErr result (IsRefused (kind_parse float_literal) (chars input.now)) }
{
    if has_wrong_fraction(&input.as_bytes()[end_integer..]) {
        let place = end_integer + 1;
        let kind = ParseErrorKind::UnexpectedChar;
        return Err(ParseError::in_text(input, Some(place..place + 1), kind));
    }
    let cut = cut_parts(input, end_integer);
    match cut_refusal(&cut, input) {
        None => Ok(cut),
        Some((span, kind)) => Err(ParseError::in_text(input, span, kind)),
    }
}

/// Cuts `input` after the integer part, which ends at `end_integer`, the fraction and the exponent,
/// each of which takes all that belongs to it.
fn cut_parts(input: &str, end_integer: usize) -> FloatCut
    requires integer { end_integer ≡ prefix_len is_decimal_char input.now }
    requires within { end_integer ≤ length input.now }
    ensures { IsPartsCut result input.now }
{
    let bytes = input.as_bytes();
    let end_fraction = end_integer + fraction_len(&bytes[end_integer..]);
    let end_number = end_fraction + exponent_len(&bytes[end_fraction..]);
    FloatCut {
        end_integer,
        end_fraction,
        end_number,
    }
}

/// Returns the error of `input`, which is cut at `cut` and has a digit or nothing after the period,
/// or `None` if it is a float.
fn cut_refusal(cut: &FloatCut, input: &str) -> Option<(Option<Range<usize>>, ParseErrorKind)>
    requires parts { IsPartsCut cut.now input.now }
    requires fraction { IsFalse (has_wrong_fraction (drop cut.now.end_integer input.now)) }
    ensures { option_map (λ r. refusal r.0 r.1) result
        ≡ float_cut_refusal (float_cut (chars input.now)) }
{
    let end_number = cut.end_number;
    let exponent = &input.as_bytes()[cut.end_fraction..end_number];
    if !exponent.is_empty() && !exponent.iter().any(|b| b.is_ascii_digit()) {
        let span = cut.end_fraction..end_number;
        return Some((Some(span), ParseErrorKind::NoExponentDigits));
    }
    let (_, suffix) = input.split_at(end_number);
    if let Err(kind) = check_suffix(suffix) {
        return Some((Some(end_number..input.len()), kind));
    }
    if cut.end_integer == end_number {
        return Some((None, ParseErrorKind::UnexpectedIntegerLit));
    }
    None
}

/// Returns the length in bytes of the period and the fraction, or 0 if `bytes` does not start with
/// a period.
fn fraction_len(bytes: &[u8]) -> usize
    ensures len { result ≡ length (fraction_text (fraction_of bytes.now)) }
    ensures within { result ≤ length bytes.now }
{
    match bytes {
        [b'.', digits @ ..] => 1 + end_dec_digits(digits),
        _ => 0,
    }
}

/// Returns the length in bytes of the exponent, or 0 if `bytes` starts with neither `e` nor `E`.
fn exponent_len(bytes: &[u8]) -> usize
    ensures len { result ≡ length (exponent_of bytes.now) }
    ensures within { result ≤ length bytes.now }
{
    match bytes {
        [b'e' | b'E', number @ ..] => {
            let sign = sign_len(number);
            1 + sign + end_dec_digits(&number[sign..])
        }
        _ => 0,
    }
}

/// Returns the length in bytes of the sign at the front of `bytes`, or 0 if there is none.
fn sign_len(bytes: &[u8]) -> usize
    ensures len { result ≡ sign_len bytes.now }
    ensures within { result ≤ length bytes.now }
{
    usize::from(matches!(bytes, [b'+' | b'-', ..]))
}

/// Returns `true` if `bytes` starts with a period that another character than a decimal digit
/// follows.
fn has_wrong_fraction(bytes: &[u8]) -> bool
    ensures { result ≡ has_wrong_fraction bytes.now }
{
    matches!(bytes, [b'.', next, ..] if !next.is_ascii_digit())
}
