//! Char literals.
ghost use Rattle.std.specs.Prelude.{◌≡◌, false, IsOk, IfOk, IfErr, Some, nat_eq, ⊤};
ghost use Rattle.std.specs.Cmp.{on_per, on_equiv, partial_equiv_from_equiv};
ghost use Rattle.std.specs.Cmp.Lexicographic.{pointwise, nat_list_eq_equiv};
ghost use Rattle.std.specs.Str.{chars, IsCharBoundary};
ghost use Rattle.litrs_base.specs.Derivations.{IsOnlyDerivation};
ghost use Rattle.litrs_base.specs.declared.quotes.CharKind.TheVariants.{Char as char_kind};
ghost use Rattle.litrs_grammar.specs.CharByte.{char_value, IsCharLiteral};
ghost use Rattle.litrs_grammar.specs.Literal.{kind_parse, char_literal};
ghost use Rattle.litrs_grammar.specs.Refused.{IsRefused};
ghost use Rattle.litrs_lex.specs.Front.{IsFront};
ghost use Rattle.litrs_lex.specs.CharCut.{char_parts_at, IsCharAt};
ghost use Rattle.litrs.specs.CharLiteral.{CharLiteral, char_parts};

use litrs_lex::{Front, ParseError, ParseErrorKind, Text, cut_char};
use std::alloc::{AllocError, Global};
use std::fmt;
use std::marker::Model;

/// A character literal, for example `'a'`, `'\n'` or `'\u{1f98a}'`.
///
/// It consists of a character or an escape between single quotes, and a suffix, which may be
/// empty. See [the reference][ref].
///
/// [ref]: https://doc.rust-lang.org/reference/tokens.html#character-literals
pub struct CharLit<B: Text> {
    value: char,
    start_suffix: usize,
    // Keep last: CONTRIBUTING.md says why.
    raw: B,
}

impl<B: Text> Model for CharLit<B> {
    ghost Value = { CharLiteral B };

    ghost view = { λ s. record {
      buffer = s.raw;
      raw = B.bytes s.raw;
      value = s.value;
      start_suffix = s.start_suffix;
    } };

    ghost inverse = { λ lit.
        record { raw = lit.buffer; value = lit.value; start_suffix = lit.start_suffix } };

    ghost invariant = { λ s. IsCharAt char_kind s.value s.start_suffix (B.bytes s.raw) };
}

impl<B: Text> CharLit<B> {
    /// Parses `input` as a char. Does not allocate.
    ///
    /// For example, `'\n'u8` has the value LF and the suffix `u8`.
    ///
    /// # Errors
    ///
    /// Returns `Empty`, `DoesNotStartWithQuote` at the first byte, or the error of [`cut_char`]:
    /// for `''` that is `EmptyCharLiteral`, and for `'\x80'` `NonAsciiXEscape` at 1..5.
    #[inline(always)]
    pub fn parse(input: B) -> Result<CharLit<B>, ParseError>
        ensures buffer { IfOk result (λ lit. lit.buffer ≡ input) }
        ensures raw { IfOk result (λ lit. lit.raw ≡ B.bytes input) }
        ensures ok { IfOk result (λ lit.
            IsOnlyDerivation (IsCharLiteral char_kind (chars (B.bytes input))) (char_parts lit)) }
        ensures refused { IfErr result
            (IsRefused (kind_parse char_literal) (chars (B.bytes input))) }
    {
        let front = Front::of(input.as_str());
        CharLit::parse_with_front(input, front)
    }

    /// Like [`parse`](CharLit::parse), for an input that starts with `front`.
    ///
    /// # Errors
    ///
    /// Returns the errors of [`parse`](CharLit::parse).
    #[inline(always)]
    pub(crate) fn parse_with_front(input: B, front: Front) -> Result<CharLit<B>, ParseError>
        requires { IsFront front (B.bytes input) }
        ensures buffer { IfOk result (λ lit. lit.buffer ≡ input) }
        ensures raw { IfOk result (λ lit. lit.raw ≡ B.bytes input) }
        ensures ok { IfOk result (λ lit.
            IsOnlyDerivation (IsCharLiteral char_kind (chars (B.bytes input))) (char_parts lit)) }
        ensures refused { IfErr result
            (IsRefused (kind_parse char_literal) (chars (B.bytes input))) }
    {
        let (value, start_suffix) = cut_with_front(input.as_str(), front)?;
        Ok(CharLit {
            raw: input,
            value,
            start_suffix,
        })
    }

    /// Returns the value: LF for `'\n'`.
    pub fn value(&self) -> char
        ensures { result ≡ char_value (char_parts self.now).item }
    {
        self.value
    }

    /// Returns the suffix, or `""` if there is none. For `'a'u8` that is `u8`.
    pub fn suffix(&self) -> &str
        ensures { chars result.now ≡ (char_parts self.now).suffix }
    {
        &self.raw.as_str()[self.start_suffix..]
    }

    /// Returns the text that was parsed, for example `'a'u8`.
    pub fn raw_input(&self) -> &str
        ensures raw { result.now ≡ self.now.raw }
        ensures literal { IsCharLiteral char_kind (chars result.now) (char_parts self.now) }
    {
        self.raw.as_str()
    }

    /// Clones the literal. Over `&str` this does not allocate and always succeeds.
    ///
    /// # Errors
    ///
    /// Returns `AllocError` if the allocation of the text fails.
    pub fn clone(&self, alloc: Global) -> Result<CharLit<B>, AllocError>
        ensures raw { IfOk result (λ copy. copy.raw ≡ self.now.raw) }
        ensures parts { IfOk result (λ copy. char_parts copy ≡ char_parts self.now) }
        ensures succeeds { B.owns ≡ false → IsOk result }
    {
        let raw = self.raw.copy(alloc)?;
        Ok(CharLit {
            raw,
            value: self.value,
            start_suffix: self.start_suffix,
        })
    }

    /// Returns the text that was parsed, in its buffer, without copying it.
    pub fn into_raw_input(self) -> B
        ensures buffer { result ≡ self.buffer }
        ensures text { B.bytes result ≡ self.raw }
    {
        let CharLit { raw, .. } = self;
        raw
    }
}

impl<B: Text + Copy> CharLit<B> {
    /// Copies the literal. Its buffer is `Copy`.
    pub fn copied(&self) -> Self
        ensures { result ≡ self.now }
    {
        *self
    }
}

impl CharLit<&str> {
    /// Creates a literal with an owned copy of the text.
    ///
    /// # Errors
    ///
    /// Returns `AllocError` if the allocation of the text fails.
    pub fn to_owned(&self, alloc: Global) -> Result<CharLit<String>, AllocError>
        ensures raw { IfOk result (λ owned. owned.raw ≡ self.now.raw) }
        ensures parts { IfOk result (λ owned. char_parts owned ≡ char_parts self.now) }
    {
        let raw = String::from_str(alloc, self.raw)?;
        Ok(CharLit {
            raw,
            value: self.value,
            start_suffix: self.start_suffix,
        })
    }
}

/// Returns the value of the char `input` and the place of its suffix, in bytes.
#[inline(always)]
fn cut_with_front(input: &str, front: Front) -> Result<(char, usize), ParseError>
    requires { IsFront front input.now }
    ensures ok { IfOk result (λ cut.
        IsOnlyDerivation (IsCharLiteral char_kind (chars input.now))
        (char_parts_at char_kind cut.1 input.now)) }
    ensures value { IfOk result (λ cut.
        char_value (char_parts_at char_kind cut.1 input.now).item ≡ cut.0) }
    ensures place { IfOk result (λ cut. IsCharBoundary input.now cut.1) }
    ensures refused { IfErr result (IsRefused (kind_parse char_literal) (chars input.now)) }
{
    match front {
        Front::Char => cut_char(input),
        Front::Empty => Err(ParseError::new(None, ParseErrorKind::Empty)),
        _ => Err(ParseError::in_text(input, Some(0..1), ParseErrorKind::DoesNotStartWithQuote)),
    }
}

impl<B: Text> PartialEq for CharLit<B> {
    ghost eq = { λ x y. pointwise nat_eq x.raw y.raw };

    ghost laws = { on_per (λ lit. lit.raw) (partial_equiv_from_equiv nat_list_eq_equiv) };

    fn eq(&self, other: &CharLit<B>) -> bool {
        self.raw.as_str() == other.raw.as_str()
    }
}

impl<B: Text> Eq for CharLit<B> {
    ghost laws = { on_equiv (λ lit. lit.raw) nat_list_eq_equiv };
}

impl<B: Text + Copy> Copy for CharLit<B> {}

impl<B: Text + Copy> Clone for CharLit<B> {
    ghost is_clone = { λ lit copy. copy ≡ lit };

    ghost is_infallible = { λ _. ⊤ };

    fn clone(&self) -> Result<CharLit<B>, AllocError> {
        Ok(CharLit {
            raw: self.raw,
            value: self.value,
            start_suffix: self.start_suffix,
        })
    }
}

impl<B: Text> fmt::Display for CharLit<B> {
    ghost output = { λ lit. Some lit.raw };

    fn fmt<W: fmt::Write>(&self, f: &mut fmt::Formatter<W>) -> fmt::Result {
        f.pad(self.raw.as_str())
    }
}
