//! Byte literals.
ghost use Rattle.std.specs.Prelude.{◌≡◌, false, IsOk, IfOk, IfErr, Some, nat_eq, ⊤};
ghost use Rattle.std.specs.Cmp.{on_per, on_equiv, partial_equiv_from_equiv};
ghost use Rattle.std.specs.Cmp.Lexicographic.{pointwise, nat_list_eq_equiv};
ghost use Rattle.std.specs.Str.{chars, IsCharBoundary};
ghost use Rattle.litrs_base.specs.Derivations.{IsOnlyDerivation};
ghost use Rattle.litrs_base.specs.declared.quotes.CharKind.TheVariants.{Byte as byte_kind};
ghost use Rattle.litrs_grammar.specs.CharByte.{char_value, IsCharLiteral};
ghost use Rattle.litrs_grammar.specs.Literal.{kind_parse, byte_literal};
ghost use Rattle.litrs_grammar.specs.Refused.{IsRefused};
ghost use Rattle.litrs_lex.specs.Front.{IsFront};
ghost use Rattle.litrs_lex.specs.CharCut.{char_parts_at, IsCharAt};
ghost use Rattle.litrs.specs.CharLiteral.{CharLiteral, byte_parts};

use litrs_lex::{Front, ParseError, ParseErrorKind, Text, cut_byte};
use std::alloc::{AllocError, Global};
use std::fmt;
use std::marker::Model;

/// A byte literal, for example `b'a'`, `b'\n'` or `b'\xff'`.
///
/// It consists of `b`, an ASCII character or an escape between single quotes, and a suffix, which
/// may be empty. See [the reference][ref].
///
/// [ref]: https://doc.rust-lang.org/reference/tokens.html#byte-literals
pub struct ByteLit<B: Text> {
    value: u8,
    start_suffix: usize,
    // Keep last: CONTRIBUTING.md says why.
    raw: B,
}

impl<B: Text> Model for ByteLit<B> {
    ghost Value = { CharLiteral B };

    ghost view = { λ s. record {
      buffer = s.raw;
      raw = B.bytes s.raw;
      value = s.value;
      start_suffix = s.start_suffix;
    } };

    ghost inverse = { λ lit.
        record { raw = lit.buffer; value = lit.value; start_suffix = lit.start_suffix } };

    ghost invariant = { λ s. IsCharAt byte_kind s.value s.start_suffix (B.bytes s.raw) };
}

impl<B: Text> ByteLit<B> {
    /// Parses `input` as a byte. Does not allocate.
    ///
    /// For example, `b'\xff'u8` has the value 255 and the suffix `u8`.
    ///
    /// # Errors
    ///
    /// Returns `Empty`, `InvalidByteLiteralStart`, or the error of [`cut_byte`]: for `b''` that is
    /// `EmptyByteLiteral`, and for a character that is not ASCII `NonAsciiInByteLiteral` at its
    /// first byte.
    #[inline(always)]
    pub fn parse(input: B) -> Result<ByteLit<B>, ParseError>
        ensures buffer { IfOk result (λ lit. lit.buffer ≡ input) }
        ensures raw { IfOk result (λ lit. lit.raw ≡ B.bytes input) }
        ensures ok { IfOk result (λ lit.
            IsOnlyDerivation (IsCharLiteral byte_kind (chars (B.bytes input))) (byte_parts lit)) }
        ensures refused { IfErr result
            (IsRefused (kind_parse byte_literal) (chars (B.bytes input))) }
    {
        let front = Front::of(input.as_str());
        ByteLit::parse_with_front(input, front)
    }

    /// Like [`parse`](ByteLit::parse), for an input that starts with `front`.
    ///
    /// # Errors
    ///
    /// Returns the errors of [`parse`](ByteLit::parse).
    #[inline(always)]
    pub(crate) fn parse_with_front(input: B, front: Front) -> Result<ByteLit<B>, ParseError>
        requires { IsFront front (B.bytes input) }
        ensures buffer { IfOk result (λ lit. lit.buffer ≡ input) }
        ensures raw { IfOk result (λ lit. lit.raw ≡ B.bytes input) }
        ensures ok { IfOk result (λ lit.
            IsOnlyDerivation (IsCharLiteral byte_kind (chars (B.bytes input))) (byte_parts lit)) }
        ensures refused { IfErr result
            (IsRefused (kind_parse byte_literal) (chars (B.bytes input))) }
    {
        let (value, start_suffix) = cut_with_front(input.as_str(), front)?;
        Ok(ByteLit {
            raw: input,
            value,
            start_suffix,
        })
    }

    /// Returns the value: 10 for `b'\n'`.
    pub fn value(&self) -> u8
        ensures { result ≡ char_value (byte_parts self.now).item }
    {
        self.value
    }

    /// Returns the suffix, or `""` if there is none. For `b'a'u8` that is `u8`.
    pub fn suffix(&self) -> &str
        ensures { chars result.now ≡ (byte_parts self.now).suffix }
    {
        &self.raw.as_str()[self.start_suffix..]
    }

    /// Returns the text that was parsed, for example `b'a'u8`.
    pub fn raw_input(&self) -> &str
        ensures raw { result.now ≡ self.now.raw }
        ensures literal { IsCharLiteral byte_kind (chars result.now) (byte_parts self.now) }
    {
        self.raw.as_str()
    }

    /// Clones the literal. Over `&str` this does not allocate and always succeeds.
    ///
    /// # Errors
    ///
    /// Returns `AllocError` if the allocation of the text fails.
    pub fn clone(&self, alloc: Global) -> Result<ByteLit<B>, AllocError>
        ensures raw { IfOk result (λ copy. copy.raw ≡ self.now.raw) }
        ensures parts { IfOk result (λ copy. byte_parts copy ≡ byte_parts self.now) }
        ensures succeeds { B.owns ≡ false → IsOk result }
    {
        let raw = self.raw.copy(alloc)?;
        Ok(ByteLit {
            raw,
            value: self.value,
            start_suffix: self.start_suffix,
        })
    }

    /// Returns the text that was parsed, in its buffer, without copying it.
    pub fn into_raw_input(self) -> B
        ensures buffer { result ≡ self.buffer }
        ensures text { B.bytes result ≡ self.raw }
    {
        let ByteLit { raw, .. } = self;
        raw
    }
}

impl<B: Text + Copy> ByteLit<B> {
    /// Copies the literal. Its buffer is `Copy`.
    pub fn copied(&self) -> Self
        ensures { result ≡ self.now }
    {
        *self
    }
}

impl ByteLit<&str> {
    /// Creates a literal with an owned copy of the text.
    ///
    /// # Errors
    ///
    /// Returns `AllocError` if the allocation of the text fails.
    pub fn to_owned(&self, alloc: Global) -> Result<ByteLit<String>, AllocError>
        ensures raw { IfOk result (λ owned. owned.raw ≡ self.now.raw) }
        ensures parts { IfOk result (λ owned. byte_parts owned ≡ byte_parts self.now) }
    {
        let raw = String::from_str(alloc, self.raw)?;
        Ok(ByteLit {
            raw,
            value: self.value,
            start_suffix: self.start_suffix,
        })
    }
}

/// Returns the value of the byte `input` and the place of its suffix, in bytes.
#[inline(always)]
fn cut_with_front(input: &str, front: Front) -> Result<(u8, usize), ParseError>
    requires { IsFront front input.now }
    ensures ok { IfOk result (λ cut.
        IsOnlyDerivation (IsCharLiteral byte_kind (chars input.now))
        (char_parts_at byte_kind cut.1 input.now)) }
    ensures value { IfOk result (λ cut.
        char_value (char_parts_at byte_kind cut.1 input.now).item ≡ cut.0) }
    ensures place { IfOk result (λ cut. IsCharBoundary input.now cut.1) }
    ensures refused { IfErr result (IsRefused (kind_parse byte_literal) (chars input.now)) }
{
    match front {
        Front::Byte => cut_byte(input),
        Front::Empty => Err(ParseError::new(None, ParseErrorKind::Empty)),
        _ => Err(ParseError::new(None, ParseErrorKind::InvalidByteLiteralStart)),
    }
}

impl<B: Text> PartialEq for ByteLit<B> {
    ghost eq = { λ x y. pointwise nat_eq x.raw y.raw };

    ghost laws = { on_per (λ lit. lit.raw) (partial_equiv_from_equiv nat_list_eq_equiv) };

    fn eq(&self, other: &ByteLit<B>) -> bool {
        self.raw.as_str() == other.raw.as_str()
    }
}

impl<B: Text> Eq for ByteLit<B> {
    ghost laws = { on_equiv (λ lit. lit.raw) nat_list_eq_equiv };
}

impl<B: Text + Copy> Copy for ByteLit<B> {}

impl<B: Text + Copy> Clone for ByteLit<B> {
    ghost is_clone = { λ lit copy. copy ≡ lit };

    ghost is_infallible = { λ _. ⊤ };

    fn clone(&self) -> Result<ByteLit<B>, AllocError> {
        Ok(ByteLit {
            raw: self.raw,
            value: self.value,
            start_suffix: self.start_suffix,
        })
    }
}

impl<B: Text> fmt::Display for ByteLit<B> {
    ghost output = { λ lit. Some lit.raw };

    fn fmt<W: fmt::Write>(&self, f: &mut fmt::Formatter<W>) -> fmt::Result {
        f.pad(self.raw.as_str())
    }
}
