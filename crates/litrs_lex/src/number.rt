//! Numbers.
ghost use Rattle.std.specs.Prelude.{◌≡◌, IsTrue, IfOk, IfErr, chars};
ghost use Rattle.std.specs.Char.{is_ascii_digit};
ghost use Rattle.litrs_base.specs.Text.{first_passes};
ghost use Rattle.litrs_grammar.specs.Literal.{kind_parse};
ghost use Rattle.litrs_grammar.specs.LiteralRefusals.{begins_with_float};
ghost use Rattle.litrs_grammar.specs.Refused.{IsRefused};
ghost use Rattle.litrs_lex.specs.IntegerCut.{IsDigitsCut};
ghost use Rattle.litrs_lex.specs.NumberCut.{number_kind, IsNumberCut};

use crate::float::{FloatCut, cut_float_at};
use crate::integer::{IntegerCut, cut_digits, cut_integer_at};
use litrs_base::{IntegerBase, ParseError, are_few_digits};

/// The kind of a number, and the places at which it is cut.
#[derive(Clone, Copy, Debug, PartialEq, Eq)]
pub enum NumberCut {
    /// The number is an integer.
    Integer(IntegerCut),
    /// The number is a float.
    Float(FloatCut),
}

/// Cuts `input`, which starts with a decimal digit, as a number. It is a float if a period, `e` or
/// `E` follows the decimal digits and underscores at its front, for example `1e3`. Otherwise, it is
/// an integer, for example `0b1`. See [the reference][ref].
///
/// # Errors
///
/// Returns the error of [`cut_float`](crate::cut_float) or [`cut_integer`](crate::cut_integer).
///
/// [ref]: https://doc.rust-lang.org/reference/tokens.html#number-literals
// Only the cut of one to eight decimal digits is inlined. They are half of the literals of most
// sources.
#[inline(always)]
pub fn cut_number(input: &str) -> Result<NumberCut, ParseError>
    requires { IsTrue (first_passes is_ascii_digit input.now) }
    ensures ok { IfOk result (λ cut. IsNumberCut cut input.now) }
    ensures refused { IfErr result
        (IsRefused (kind_parse (number_kind (chars input.now))) (chars input.now)) }
{
    if are_few_digits(input.as_bytes(), IntegerBase::Decimal) {
        return Ok(NumberCut::Integer(IntegerCut {
            start_main: 0,
            end_main: input.len(),
            base: IntegerBase::Decimal,
        }));
    }
    // This is moved, so the base of an integer of few decimal digits is not stored there as a byte,
    // and loaded as a word.
    Ok(cut_any_number(input)?)
}

/// Like [`cut_number`], without the test for few decimal digits.
// This is not inlined, so the parse of a literal is small enough to be.
#[inline(never)]
fn cut_any_number(input: &str) -> Result<NumberCut, ParseError>
    requires { IsTrue (first_passes is_ascii_digit input.now) }
    ensures ok { IfOk result (λ cut. IsNumberCut cut input.now) }
    ensures refused { IfErr result
        (IsRefused (kind_parse (number_kind (chars input.now))) (chars input.now)) }
{
    let bytes = input.as_bytes();
    if let [b'0', b'x', digits @ ..] = bytes
        && are_few_digits(digits, IntegerBase::Hexadecimal)
    {
        return Ok(NumberCut::Integer(IntegerCut {
            start_main: 2,
            end_main: input.len(),
            base: IntegerBase::Hexadecimal,
        }));
    }
    let cut = cut_digits(input);
    if begins_with_float(&cut, bytes) {
        Ok(NumberCut::Float(cut_float_at(input, cut.end_main)?))
    } else {
        Ok(NumberCut::Integer(cut_integer_at(input, cut)?))
    }
}

/// Returns `true` if a text is parsed as a float: a period, `e` or `E` follows the decimal digits
/// and underscores at its front.
fn begins_with_float(cut: &IntegerCut, bytes: &[u8]) -> bool
    requires { IsDigitsCut cut.now bytes.now }
    ensures { result ≡ begins_with_float bytes.now }
{
    match cut.base {
        IntegerBase::Decimal => matches!(&bytes[cut.end_main..], [b'.' | b'e' | b'E', ..]),
        _ => false,
    }
}
