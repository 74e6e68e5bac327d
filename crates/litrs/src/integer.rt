//! Integer literals.
ghost use Rattle.std.specs.Prelude.{◌≡◌, ◌≤◌, length, take, false, IsTrue, IsOk, IfOk, IfErr, Some, nat_eq, ⊤};
ghost use Rattle.std.specs.Cmp.{on_per, on_equiv, partial_equiv_from_equiv};
ghost use Rattle.std.specs.Cmp.Lexicographic.{pointwise, nat_list_eq_equiv};
ghost use Rattle.std.specs.List.{list_all};
ghost use Rattle.std.specs.Option.{SomeIff};
ghost use Rattle.std.specs.Str.{chars};
ghost use Rattle.litrs_base.specs.Base.{base_value, is_digit_or_underscore};
ghost use Rattle.litrs.specs.IntegerLiteral.{IntegerLiteral, integer_parts};
ghost use Rattle.litrs_base.specs.Numeral.{numeral};
ghost use Rattle.litrs_grammar.specs.Integer.{integer_value};
ghost use Rattle.litrs_base.specs.Derivations.{IsOnlyDerivation};
ghost use Rattle.litrs_grammar.specs.Literal.{kind_parse, integer_literal};
ghost use Rattle.litrs_grammar.specs.Refused.{IsRefused};
ghost use Rattle.litrs_lex.specs.IntegerCut.{integer_parts_at, IsIntegerWithin, IsIntegerAt};
ghost use Rattle.litrs_grammar.specs.Integer.{IsIntegerOf};

use litrs_base::FromIntegerLiteral;
use litrs_lex::{
    IntegerBase, IntegerCut, ParseError, ParseErrorKind, Text, cut_integer, first_byte_or_empty,
    hex_digit_value,
};
use std::alloc::{AllocError, Global};
use std::fmt;
use std::marker::Model;

/// An integer literal, for example `1_000`, `0xFF_u8` or `0b1111_1111`.
///
/// It consists of a prefix that names the base (`0b`, `0o`, `0x`, or none for ten), the main part
/// (digits and underscores), and a suffix, which may be empty. There is no sign: in Rust `-` is an
/// operator. See [the reference][ref].
///
/// [ref]: https://doc.rust-lang.org/reference/tokens.html#integer-literals
pub struct IntegerLit<B: Text> {
    cut: IntegerCut,
    // Keep last: CONTRIBUTING.md says why.
    raw: B,
}

impl<B: Text> Model for IntegerLit<B> {
    ghost Value = { IntegerLiteral B };

    ghost view = { λ s. record { buffer = s.raw; raw = B.bytes s.raw; cut = s.cut } };

    ghost inverse = { λ lit. record { raw = lit.buffer; cut = lit.cut } };

    ghost invariant = { λ s. IsIntegerAt s.cut (B.bytes s.raw) };
}

impl<B: Text> IntegerLit<B> {
    /// Creates the literal with the text `raw` and the parts `cut`, which
    /// [`cut_integer`](litrs_lex::cut_integer) or [`cut_number`](litrs_lex::cut_number) returned
    /// for this text.
    #[inline(always)]
    pub(crate) fn new(raw: B, cut: IntegerCut) -> IntegerLit<B>
        requires { IsIntegerAt cut (B.bytes raw) }
        ensures buffer { result.buffer ≡ raw }
        ensures raw { result.raw ≡ B.bytes raw }
        ensures literal { IsIntegerOf (chars result.raw) (integer_parts result) }
    {
        IntegerLit { raw, cut }
    }

    /// Parses `input` as an integer. Does not allocate.
    ///
    /// For example, `0xFF_u8` has the base 16, the main part `FF_` and the suffix `u8`.
    ///
    /// # Errors
    ///
    /// Returns `Empty`, `DoesNotStartWithDigit` at the first byte, or the error of [`cut_integer`]:
    /// for `0b12` that is `InvalidDigit` at 3..4.
    #[inline(always)]
    pub fn parse(input: B) -> Result<IntegerLit<B>, ParseError>
        ensures buffer { IfOk result (λ lit. lit.buffer ≡ input) }
        ensures raw { IfOk result (λ lit. lit.raw ≡ B.bytes input) }
        ensures ok { IfOk result (λ lit.
            IsOnlyDerivation (IsIntegerOf (chars (B.bytes input))) (integer_parts lit)) }
        ensures refused { IfErr result
            (IsRefused (kind_parse integer_literal) (chars (B.bytes input))) }
    {
        let cut = cut(input.as_str())?;
        Ok(IntegerLit { raw: input, cut })
    }

    /// Returns the value of the main part in its base, whatever the suffix is, or `None` if it is
    /// greater than the greatest number of `N`.
    ///
    /// Does not allocate. For example, `0b1111_1111` is `Some(255)` as a `u8` and `None` as an
    /// `i8`, and `128i8` is `Some(128)` as a `u8`.
    pub fn value<N: FromIntegerLiteral>(&self) -> Option<N>
        ensures { let number = integer_value (integer_parts self.now) in
            SomeIff result (number ≤ N.greatest) (N.of number) }
    {
        value_of(self.cut.base, self.raw_main_part().as_bytes())
    }

    /// Returns the base. For `0xFF_u8` that is `Hexadecimal`.
    pub fn base(&self) -> IntegerBase
        ensures { result ≡ (integer_parts self.now).base }
    {
        self.cut.base
    }

    /// Returns the main part: the digits and underscores without the prefix. For `0xFF_u8` that is
    /// `FF_`, in the base [`base`](IntegerLit::base).
    pub fn raw_main_part(&self) -> &str
        ensures { chars result.now ≡ (integer_parts self.now).main }
    {
        &self.raw.as_str()[self.cut.start_main..self.cut.end_main]
    }

    /// Returns the suffix, or `""` if there is none. For `0xFF_u8` that is `u8`.
    ///
    /// `IntegerType::from_suffix(lit.suffix())` returns the type that it names, if any.
    pub fn suffix(&self) -> &str
        ensures { chars result.now ≡ (integer_parts self.now).suffix }
    {
        &self.raw.as_str()[self.cut.end_main..]
    }

    /// Returns the text that was parsed, for example `0xFF_u8`.
    pub fn raw_input(&self) -> &str
        ensures raw { result.now ≡ self.now.raw }
        ensures literal { IsIntegerOf (chars result.now) (integer_parts self.now) }
    {
        self.raw.as_str()
    }

    /// Clones the literal. Over `&str` this does not allocate and always succeeds.
    ///
    /// # Errors
    ///
    /// Returns `AllocError` if the allocation of the text fails.
    pub fn clone(&self, alloc: Global) -> Result<IntegerLit<B>, AllocError>
        ensures raw { IfOk result (λ copy. copy.raw ≡ self.now.raw) }
        ensures parts { IfOk result (λ copy. integer_parts copy ≡ integer_parts self.now) }
        ensures succeeds { B.owns ≡ false → IsOk result }
    {
        let raw = self.raw.copy(alloc)?;
        Ok(IntegerLit { raw, cut: self.cut })
    }

    /// Returns the text that was parsed, in its buffer, without copying it.
    pub fn into_raw_input(self) -> B
        ensures buffer { result ≡ self.buffer }
        ensures text { B.bytes result ≡ self.raw }
    {
        let IntegerLit { raw, cut: _ } = self;
        raw
    }
}

impl<B: Text + Copy> IntegerLit<B> {
    /// Copies the literal. Its buffer is `Copy`.
    pub fn copied(&self) -> Self
        ensures { result ≡ self.now }
    {
        *self
    }
}

impl IntegerLit<&str> {
    /// Creates a literal with an owned copy of the text.
    ///
    /// # Errors
    ///
    /// Returns `AllocError` if the allocation of the text fails.
    pub fn to_owned(&self, alloc: Global) -> Result<IntegerLit<String>, AllocError>
        ensures raw { IfOk result (λ owned. owned.raw ≡ self.now.raw) }
        ensures parts { IfOk result (λ owned. integer_parts owned ≡ integer_parts self.now) }
    {
        let raw = String::from_str(alloc, self.raw)?;
        Ok(IntegerLit { raw, cut: self.cut })
    }
}

/// Returns the parts of the integer `input`.
// This is not inlined, so `parse` is small enough to be.
#[inline(never)]
fn cut(input: &str) -> Result<IntegerCut, ParseError>
    ensures ok { IfOk result (λ cut.
        IsOnlyDerivation (IsIntegerOf (chars input.now)) (integer_parts_at cut input.now)) }
    ensures places { IfOk result (λ cut. IsIntegerWithin cut input.now) }
    ensures refused { IfErr result (IsRefused (kind_parse integer_literal) (chars input.now)) }
{
    let first = first_byte_or_empty(input)?;
    if first.is_ascii_digit() {
        cut_integer(input)
    } else {
        Err(ParseError::in_text(input, Some(0..1), ParseErrorKind::DoesNotStartWithDigit))
    }
}

/// Returns the value of `main`, the digits and underscores of `base`, or `None` if it does not fit
/// `N`. It is computed in `u64` while another digit fits, and then in `N`.
fn value_of<N: FromIntegerLiteral>(base: IntegerBase, main: &[u8]) -> Option<N>
    requires { IsTrue (list_all (is_digit_or_underscore base) main.now) }
    ensures { let number = numeral (base_value base) main.now in
        SomeIff result (number ≤ N.greatest) (N.of number) }
{
    let radix = u64::from(base.value());
    let mut number: u64 = 0;
    for (i, byte) in main.iter().enumerate() {
        if *byte == b'_' {
            continue;
        }
        if number >= 1 << 60 {
            return value_from(base, main, i, N::from_number(number)?);
        }
        let Some(digit) = hex_digit_value(*byte) else {
            unreachable!();
        };
        number = number * radix + u64::from(digit);
    }
    N::from_number(number)
}

/// Like [`value_of`], from `start` on: the value of the bytes before it is `front`.
fn value_from<N: FromIntegerLiteral>(
    base: IntegerBase,
    main: &[u8],
    start: usize,
    front: N,
) -> Option<N>
    requires digits { IsTrue (list_all (is_digit_or_underscore base) main.now) }
    requires within { start ≤ length main.now }
    requires front { front ≡ N.of (numeral (base_value base) (take start main.now)) }
    requires fits { numeral (base_value base) (take start main.now) ≤ N.greatest }
    ensures { let number = numeral (base_value base) main.now in
        SomeIff result (number ≤ N.greatest) (N.of number) }
{
    let radix = N::from_small_number(base.value());
    let mut number = front;
    for i in start..main.len() {
        let byte = main[i];
        if byte == b'_' {
            continue;
        }
        let Some(digit) = hex_digit_value(byte) else {
            unreachable!();
        };
        number = number.checked_mul(radix)?;
        number = number.checked_add(N::from_small_number(digit))?;
    }
    Some(number)
}

impl<B: Text> PartialEq for IntegerLit<B> {
    ghost eq = { λ x y. pointwise nat_eq x.raw y.raw };

    ghost laws = { on_per (λ lit. lit.raw) (partial_equiv_from_equiv nat_list_eq_equiv) };

    fn eq(&self, other: &IntegerLit<B>) -> bool {
        self.raw.as_str() == other.raw.as_str()
    }
}

impl<B: Text> Eq for IntegerLit<B> {
    ghost laws = { on_equiv (λ lit. lit.raw) nat_list_eq_equiv };
}

impl<B: Text + Copy> Copy for IntegerLit<B> {}

impl<B: Text + Copy> Clone for IntegerLit<B> {
    ghost is_clone = { λ lit copy. copy ≡ lit };

    ghost is_infallible = { λ _. ⊤ };

    fn clone(&self) -> Result<IntegerLit<B>, AllocError> {
        Ok(IntegerLit {
            raw: self.raw,
            cut: self.cut,
        })
    }
}

impl<B: Text> fmt::Display for IntegerLit<B> {
    ghost output = { λ lit. Some lit.raw };

    fn fmt<W: fmt::Write>(&self, f: &mut fmt::Formatter<W>) -> fmt::Result {
        f.write_str(self.raw.as_str())
    }
}
