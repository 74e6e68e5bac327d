//! Integers and floats.
ghost use Rattle.std.specs.Prelude.{◌≡◌, ◌↔◌, IsTrue};
ghost use Rattle.std.specs.Char.{is_ascii_digit};
ghost use Rattle.std.specs.Str.{chars};
ghost use Rattle.litrs_base.specs.Refusal.{refusal_of};
ghost use Rattle.litrs_base.specs.Text.{first_passes};
ghost use Rattle.litrs_grammar.specs.Literal.{kind_parse, Begins};
ghost use Rattle.litrs_lex.specs.NumberCut.{number_kind};
ghost use Rattle.litrs.specs.MayGainDigits.{may_gain_digits};

use litrs_lex::{ParseError, ParseErrorKind, cut_number};

/// Returns `true` if `text`, which starts with a decimal digit, begins a number of the kind as
/// which it is parsed.
#[inline(never)]
pub(crate) fn number_goes_on(text: &str) -> bool
    requires { IsTrue (first_passes is_ascii_digit text.now) }
    ensures { IsTrue result
        ↔ Begins (kind_parse (number_kind (chars text.now))) (chars text.now) }
{
    match cut_number(text) {
        Ok(_) => true,
        Err(e) => may_gain_digits(&e, text.len()),
    }
}

/// Returns `true` if only a digit is missing at the end of an invalid number of `len` bytes: for
/// `0x` and `1e+_`, but not for `0xg`.
fn may_gain_digits(refusal: &ParseError, len: usize) -> bool
    ensures { result ≡ may_gain_digits (refusal_of refusal.now) len }
{
    match refusal.kind() {
        ParseErrorKind::NoDigits | ParseErrorKind::NoExponentDigits => {
            matches!(refusal.span(), Some(span) if span.end == len)
        }
        _ => false,
    }
}
