//! Float literals.
ghost use Rattle.std.specs.Prelude.{◌≡◌, ◌++◌, false, IsOk, IfOk, IfErr, IfSome, Some, option_map, nat_eq, ⊤};
ghost use Rattle.std.specs.Cmp.{on_per, on_equiv, partial_equiv_from_equiv};
ghost use Rattle.std.specs.Cmp.Lexicographic.{pointwise, nat_list_eq_equiv};
ghost use Rattle.std.specs.Str.{chars, IsUtf8};
ghost use Rattle.litrs_base.specs.Derivations.{IsOnlyDerivation};
ghost use Rattle.litrs_grammar.specs.Float.{IsFloatOf, number_part};
ghost use Rattle.litrs_grammar.specs.Literal.{kind_parse, float_literal};
ghost use Rattle.litrs_grammar.specs.Refused.{IsRefused};
ghost use Rattle.litrs_lex.specs.FloatCut.{float_parts_at, IsFloatWithin, IsFloatAt};
ghost use Rattle.litrs.specs.FloatLiteral.{FloatLiteral, float_parts};

use litrs_lex::{FloatCut, ParseError, ParseErrorKind, Text, cut_float, first_byte_or_empty};
use std::alloc::{AllocError, Global};
use std::fmt;
use std::marker::Model;

/// A float literal, for example `3.14`, `9.`, `27e-3` or `147.3_33__E3f64`.
///
/// It consists of an integer part, a period with a fractional part, an exponent, and a suffix. The
/// period or the exponent may be missing, but not both. A period without a fractional part ends the
/// literal. The suffix may be empty. There is no sign.
/// See [the reference][ref].
///
/// [ref]: https://doc.rust-lang.org/reference/tokens.html#floating-point-literals
pub struct FloatLit<B: Text> {
    cut: FloatCut,
    // Keep last: CONTRIBUTING.md says why.
    raw: B,
}

impl<B: Text> Model for FloatLit<B> {
    ghost Value = { FloatLiteral B };

    ghost view = { λ s. record { buffer = s.raw; raw = B.bytes s.raw; cut = s.cut } };

    ghost inverse = { λ lit. record { raw = lit.buffer; cut = lit.cut } };

    ghost invariant = { λ s. IsFloatAt s.cut (B.bytes s.raw) };
}

impl<B: Text> FloatLit<B> {
    /// Creates the literal with the text `raw` and the parts `cut`, which
    /// [`cut_float`](litrs_lex::cut_float) or [`cut_number`](litrs_lex::cut_number) returned for
    /// this text.
    #[inline(always)]
    pub(crate) fn new(raw: B, cut: FloatCut) -> FloatLit<B>
        requires { IsFloatAt cut (B.bytes raw) }
        ensures buffer { result.buffer ≡ raw }
        ensures raw { result.raw ≡ B.bytes raw }
        ensures literal { IsFloatOf (chars result.raw) (float_parts result) }
    {
        FloatLit { raw, cut }
    }

    /// Parses `input` as a float. Does not allocate.
    ///
    /// For example, `3.14f33` has the integer part `3`, the fractional part `14`, no exponent and
    /// the suffix `f33`.
    ///
    /// # Errors
    ///
    /// Returns `Empty`, `DoesNotStartWithDigit` at the first byte, or the error of [`cut_float`]:
    /// for `1.e4` that is `UnexpectedChar` at 2..3, and for `27` `UnexpectedIntegerLit`.
    #[inline(always)]
    pub fn parse(input: B) -> Result<FloatLit<B>, ParseError>
        ensures buffer { IfOk result (λ lit. lit.buffer ≡ input) }
        ensures raw { IfOk result (λ lit. lit.raw ≡ B.bytes input) }
        ensures ok { IfOk result (λ lit.
            IsOnlyDerivation (IsFloatOf (chars (B.bytes input))) (float_parts lit)) }
        ensures refused { IfErr result
            (IsRefused (kind_parse float_literal) (chars (B.bytes input))) }
    {
        let cut = cut(input.as_str())?;
        Ok(FloatLit { raw: input, cut })
    }

    /// Returns the text without the suffix. For `147.3_33__E3f64` that is `147.3_33__E3`.
    pub fn number_part(&self) -> &str
        ensures { chars result.now ≡ number_part (float_parts self.now) }
    {
        &self.raw.as_str()[..self.cut.end_number]
    }

    /// Returns the digits and underscores before the period or the exponent. For
    /// `147.3_33__E3f64` that is `147`.
    pub fn integer_part(&self) -> &str
        ensures { chars result.now ≡ (float_parts self.now).integer }
    {
        &self.raw.as_str()[..self.cut.end_integer]
    }

    /// Returns the digits and underscores after the period, or `None` if there is no period. For
    /// `147.3_33__E3f64` that is `3_33__`, for `9.` it is `""`, and for `1e3` it is `None`.
    pub fn fractional_part(&self) -> Option<&str>
        ensures part { option_map (λ text. chars text.now) result
            ≡ (float_parts self.now).fraction }
        ensures utf8 { IfSome result (λ text. IsUtf8 text.now) }
    {
        let FloatCut {
            end_integer,
            end_fraction,
            ..
        } = self.cut;
        if end_integer == end_fraction {
            None
        } else {
            Some(&self.raw.as_str()[end_integer + 1..end_fraction])
        }
    }

    /// Returns the exponent with its letter and sign, or `""` if there is none. For
    /// `147.3_33__E3f64` that is `E3`.
    pub fn exponent_part(&self) -> &str
        ensures { chars result.now ≡ (float_parts self.now).exponent }
    {
        &self.raw.as_str()[self.cut.end_fraction..self.cut.end_number]
    }

    /// Returns the suffix, or `""` if there is none. For `147.3_33__E3f64` that is `f64`.
    pub fn suffix(&self) -> &str
        ensures { chars result.now ≡ (float_parts self.now).suffix }
    {
        &self.raw.as_str()[self.cut.end_number..]
    }

    /// Returns the text that was parsed, for example `3.14f33`.
    pub fn raw_input(&self) -> &str
        ensures raw { result.now ≡ self.now.raw }
        ensures literal { IsFloatOf (chars result.now) (float_parts self.now) }
        ensures number_and_suffix { chars result.now
            ≡ number_part (float_parts self.now) ++ (float_parts self.now).suffix }
    {
        self.raw.as_str()
    }

    /// Clones the literal. Over `&str` this does not allocate and always succeeds.
    ///
    /// # Errors
    ///
    /// Returns `AllocError` if the allocation of the text fails.
    pub fn clone(&self, alloc: Global) -> Result<FloatLit<B>, AllocError>
        ensures raw { IfOk result (λ copy. copy.raw ≡ self.now.raw) }
        ensures parts { IfOk result (λ copy. float_parts copy ≡ float_parts self.now) }
        ensures succeeds { B.owns ≡ false → IsOk result }
    {
        let raw = self.raw.copy(alloc)?;
        Ok(FloatLit { raw, cut: self.cut })
    }

    /// Returns the text that was parsed, in its buffer, without copying it.
    pub fn into_raw_input(self) -> B
        ensures buffer { result ≡ self.buffer }
        ensures text { B.bytes result ≡ self.raw }
    {
        let FloatLit { raw, cut: _ } = self;
        raw
    }
}

impl<B: Text + Copy> FloatLit<B> {
    /// Copies the literal. Its buffer is `Copy`.
    pub fn copied(&self) -> Self
        ensures { result ≡ self.now }
    {
        *self
    }
}

impl FloatLit<&str> {
    /// Creates a literal with an owned copy of the text.
    ///
    /// # Errors
    ///
    /// Returns `AllocError` if the allocation of the text fails.
    pub fn to_owned(&self, alloc: Global) -> Result<FloatLit<String>, AllocError>
        ensures raw { IfOk result (λ owned. owned.raw ≡ self.now.raw) }
        ensures parts { IfOk result (λ owned. float_parts owned ≡ float_parts self.now) }
    {
        let raw = String::from_str(alloc, self.raw)?;
        Ok(FloatLit { raw, cut: self.cut })
    }
}

/// Returns the parts of the float `input`.
// This is not inlined, so `parse` is small enough to be.
#[inline(never)]
fn cut(input: &str) -> Result<FloatCut, ParseError>
    ensures ok { IfOk result (λ cut.
        IsOnlyDerivation (IsFloatOf (chars input.now)) (float_parts_at cut input.now)) }
    ensures places { IfOk result (λ cut. IsFloatWithin cut input.now) }
    ensures refused { IfErr result (IsRefused (kind_parse float_literal) (chars input.now)) }
{
    let first = first_byte_or_empty(input)?;
    if first.is_ascii_digit() {
        cut_float(input)
    } else {
        Err(ParseError::in_text(input, Some(0..1), ParseErrorKind::DoesNotStartWithDigit))
    }
}

impl<B: Text> PartialEq for FloatLit<B> {
    ghost eq = { λ x y. pointwise nat_eq x.raw y.raw };

    ghost laws = { on_per (λ lit. lit.raw) (partial_equiv_from_equiv nat_list_eq_equiv) };

    fn eq(&self, other: &FloatLit<B>) -> bool {
        self.raw.as_str() == other.raw.as_str()
    }
}

impl<B: Text> Eq for FloatLit<B> {
    ghost laws = { on_equiv (λ lit. lit.raw) nat_list_eq_equiv };
}

impl<B: Text + Copy> Copy for FloatLit<B> {}

impl<B: Text + Copy> Clone for FloatLit<B> {
    ghost is_clone = { λ lit copy. copy ≡ lit };

    ghost is_infallible = { λ _. ⊤ };

    fn clone(&self) -> Result<FloatLit<B>, AllocError> {
        Ok(FloatLit {
            raw: self.raw,
            cut: self.cut,
        })
    }
}

impl<B: Text> fmt::Display for FloatLit<B> {
    ghost output = { λ lit. Some lit.raw };

    fn fmt<W: fmt::Write>(&self, f: &mut fmt::Formatter<W>) -> fmt::Result {
        f.write_str(self.raw.as_str())
    }
}
