//! Integers.
ghost use Rattle.std.specs.Prelude.{◌≡◌, IsTrue, IfOk, IfErr, option_map, Some, chars};
ghost use Rattle.std.specs.Char.{is_ascii_digit};
ghost use Rattle.litrs_base.specs.Refusal.{refusal};
ghost use Rattle.litrs_base.specs.Derivations.{IsOnlyDerivation};
ghost use Rattle.litrs_base.specs.Text.{first_passes};
ghost use Rattle.litrs_grammar.specs.Integer.{IsIntegerOf, integer_cut_refusal, integer_cut, is_e, base_of};
ghost use Rattle.litrs_grammar.specs.Literal.{kind_parse, integer_literal};
ghost use Rattle.litrs_grammar.specs.Refused.{IsRefused};
ghost use Rattle.litrs_lex.specs.IntegerCut.{integer_parts_at, IsIntegerWithin, IsDigitsCut};

use crate::parse::check_suffix;
use crate::{Run, run_end};
use litrs_base::IntegerBase::{Binary, Decimal, Hexadecimal, Octal};
use litrs_base::{IntegerBase, ParseError, ParseErrorKind, begins_with_digit};
use std::ops::Range;

/// The places at which an integer is cut, in bytes.
#[derive(Clone, Copy, Debug, PartialEq, Eq)]
pub struct IntegerCut {
    /// The start of the main part, after the prefix.
    pub start_main: usize,
    /// The end of the main part. The suffix starts here.
    pub end_main: usize,
    /// The base, which the prefix decides.
    pub base: IntegerBase,
}

/// Cuts `input`, which starts with a decimal digit, as an integer, into prefix, main part and
/// suffix. The main part of `0x_7fu8` is at 2..5. See [the reference][ref].
///
/// # Errors
///
/// - `InvalidDigit` at the digit if a decimal digit follows the main part.
/// - The error of [`check_suffix`] over the rest of `input` if that is not a suffix.
/// - `IntegerSuffixStartingWithE` at the first byte of the suffix if that is `e` or `E`.
/// - `NoDigits` over the main part if it has no digit.
///
/// [ref]: https://doc.rust-lang.org/reference/tokens.html#integer-literals
pub fn cut_integer(input: &str) -> Result<IntegerCut, ParseError>
    requires { IsTrue (first_passes is_ascii_digit input.now) }
    ensures ok { IfOk result (λ cut.
        IsOnlyDerivation (IsIntegerOf (chars input.now)) (integer_parts_at cut input.now)) }
    ensures places { IfOk result (λ cut. IsIntegerWithin cut input.now) }
    ensures refused { IfErr result (IsRefused (kind_parse integer_literal) (chars input.now)) }
{
    cut_integer_at(input, cut_digits(input))
}

/// Like [`cut_integer`], for an input with the digits `cut`.
#[inline(always)]
pub(crate) fn cut_integer_at(input: &str, cut: IntegerCut) -> Result<IntegerCut, ParseError>
    requires digit { IsTrue (first_passes is_ascii_digit input.now) }
    requires cut { IsDigitsCut cut input.now }
    ensures ok { IfOk result (λ cut.
        IsOnlyDerivation (IsIntegerOf (chars input.now)) (integer_parts_at cut input.now)) }
    ensures places { IfOk result (λ cut. IsIntegerWithin cut input.now) }
    ensures refused { IfErr result (IsRefused (kind_parse integer_literal) (chars input.now)) }
{
    match cut_refusal(&cut, input) {
        None => Ok(cut),
        Some((span, kind)) => Err(ParseError::in_text(input, Some(span), kind)),
    }
}

/// Cuts `input` after the prefix and after all digits of the base and underscores.
// This is inlined, because a base that is stored as a byte is loaded as a word.
#[inline(always)]
pub(crate) fn cut_digits(input: &str) -> IntegerCut
    ensures { IsDigitsCut result input.now }
{
    let bytes = input.as_bytes();
    let base = base_of(bytes);
    let start_main = base.prefix().len();
    let end_main = start_main + run_end(&bytes[start_main..], Run::Digits(base));
    IntegerCut {
        start_main,
        end_main,
        base,
    }
}

/// Returns the error of `input`, which has the digits `cut`, or `None` if it is an integer.
fn cut_refusal(cut: &IntegerCut, input: &str) -> Option<(Range<usize>, ParseErrorKind)>
    requires { IsDigitsCut cut.now input.now }
    ensures { option_map (λ r. refusal (Some r.0) r.1) result
        ≡ integer_cut_refusal (integer_cut (chars input.now)) }
{
    let end_main = cut.end_main;
    let (number, suffix) = input.split_at(end_main);
    // Tested first, because no suffix starts with a digit.
    if begins_with_digit(suffix) {
        return Some((end_main..end_main + 1, ParseErrorKind::InvalidDigit));
    }
    if let Err(kind) = check_suffix(suffix) {
        return Some((end_main..input.len(), kind));
    }
    if begins_with_e(suffix.as_bytes()) {
        let span = end_main..end_main + 1;
        return Some((span, ParseErrorKind::IntegerSuffixStartingWithE));
    }
    // The main part has digits and underscores.
    let main = &number.as_bytes()[cut.start_main..];
    if main.iter().any(|b| *b != b'_') {
        None
    } else {
        Some((cut.start_main..end_main, ParseErrorKind::NoDigits))
    }
}

/// Returns `true` if `bytes` starts with `e` or `E`.
pub fn begins_with_e(bytes: &[u8]) -> bool
    ensures { result ≡ first_passes is_e bytes.now }
{
    matches!(bytes, [b'e' | b'E', ..])
}

/// Returns the base by the front of a text: `0b`, `0o` and `0x` are always a prefix, and every
/// other text is decimal.
fn base_of(bytes: &[u8]) -> IntegerBase
    ensures { result ≡ base_of bytes.now }
{
    match bytes {
        [b'0', b'b', ..] => Binary,
        [b'0', b'o', ..] => Octal,
        [b'0', b'x', ..] => Hexadecimal,
        _ => Decimal,
    }
}
