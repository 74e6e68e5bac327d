//! Byte string literals.
ghost use Rattle.std.specs.Prelude.{◌≡◌, ◌↔◌, ◌⊎◌, false, IsTrue, IsOk, IfOk, IfErr, Some, nat_eq, vec_items};
ghost use Rattle.std.specs.Cmp.{on_per, on_equiv, partial_equiv_from_equiv};
ghost use Rattle.std.specs.Cmp.Lexicographic.{pointwise, nat_list_eq_equiv};
ghost use Rattle.std.specs.Str.{chars};
ghost use Rattle.litrs_base.specs.Derivations.{IsOnlyDerivation};
ghost use Rattle.litrs_base.specs.declared.quotes.StringKind.TheVariants.{ByteString as byte_string_kind};
ghost use Rattle.litrs_grammar.specs.Literal.{IsString, string_suffix, string_value, kind_parse, byte_string_literal};
ghost use Rattle.litrs_grammar.specs.Allocation.{has_escapes};
ghost use Rattle.litrs_grammar.specs.Strings.{StringDerivation, is_raw};
ghost use Rattle.litrs_grammar.specs.Refused.{IsRefusedOrOutOfMemory};
ghost use Rattle.litrs_grammar.proofs.StringDerivations.{string_derivation-prop};
ghost use Rattle.litrs_lex.specs.Front.{IsFront};
ghost use Rattle.litrs.specs.StringLiteral.{StringLiteral, IsStringAt, kept_map, is_owned};

use crate::cut::read_string;
use crate::kept_value::KeptValue;
use litrs_lex::{Buffer, Front, InByteString, ParseError, StringKind, Text};
use std::alloc::{AllocError, Global};
use std::fmt;
use std::marker::Model;

/// A byte string literal, for example `b"foo"`, `b"\xff\n"` or `br#"foo"#`.
///
/// It consists of a quoted or a raw body and a suffix, which may be empty. See
/// [the reference][ref].
///
/// [ref]: https://doc.rust-lang.org/reference/tokens.html#byte-string-literals
#[derive(Drop)]
pub struct ByteStringLit<B: Text> {
    value: KeptValue<Vec<u8>>,
    start_suffix: usize,
    // Keep last: CONTRIBUTING.md says why.
    raw: B,
    ghost derived: { StringDerivation byte_string_kind (chars (B.bytes raw)) } by { string_derivation-prop byte_string_kind (chars (B.bytes raw)) },
}

impl<B: Text> Model for ByteStringLit<B> {
    ghost Value = { StringLiteral B };

    ghost view = { λ s. record { buffer = s.raw; raw = B.bytes s.raw; parts = s.derived.0 } };

    ghost invariant = { λ s.
        IsStringAt (kept_map vec_items s.value) s.start_suffix (B.bytes s.raw) s.derived.0 };
}

impl<B: Text> ByteStringLit<B> {
    /// Parses `input` as a byte string.
    ///
    /// For example, `b"a\xff"u8` has the suffix `u8`, and its value is the bytes of `a` and FF. If
    /// the body is quoted and has a backslash, the value is allocated, once unless it is empty.
    /// Otherwise nothing is.
    ///
    /// # Errors
    ///
    /// Returns `Empty`; `InvalidByteStringLiteralStart` if `input` starts with neither `b"` nor
    /// `br`; or the error of [`cut_quoted`](litrs_lex::cut_quoted) or
    /// [`scan_raw_string`](litrs_lex::scan_raw_string): for `b"ab` that is `UnterminatedString`,
    /// and for `b"é"` `NonAsciiInByteLiteral` at 2..3. Returns `OutOfMemory` without a span if
    /// `input` is a byte string and the allocation of its value fails.
    #[inline(always)]
    pub fn parse(alloc: Global, input: B) -> Result<ByteStringLit<B>, ParseError>
        ensures buffer { IfOk result (λ lit. lit.buffer ≡ input) }
        ensures raw { IfOk result (λ lit. lit.raw ≡ B.bytes input) }
        ensures ok { IfOk result (λ lit.
            IsOnlyDerivation (IsString byte_string_kind (chars (B.bytes input))) lit.parts) }
        ensures refused { IfErr result
            (IsRefusedOrOutOfMemory (kind_parse byte_string_literal) (chars (B.bytes input))) }
    {
        let front = Front::of(input.as_str());
        ByteStringLit::parse_with_front(alloc, input, front)
    }

    /// Like [`parse`](ByteStringLit::parse), for an input that starts with `front`.
    ///
    /// # Errors
    ///
    /// Returns the errors of [`parse`](ByteStringLit::parse).
    #[inline(always)]
    pub(crate) fn parse_with_front(
        alloc: Global,
        input: B,
        front: Front,
    ) -> Result<ByteStringLit<B>, ParseError>
        requires { IsFront front (B.bytes input) }
        ensures buffer { IfOk result (λ lit. lit.buffer ≡ input) }
        ensures raw { IfOk result (λ lit. lit.raw ≡ B.bytes input) }
        ensures ok { IfOk result (λ lit.
            IsOnlyDerivation (IsString byte_string_kind (chars (B.bytes input))) lit.parts) }
        ensures refused { IfErr result
            (IsRefusedOrOutOfMemory (kind_parse byte_string_literal) (chars (B.bytes input))) }
    {
        let kind = StringKind::ByteString;
        let (value, start_suffix) = read_string(alloc, input.as_str(), kind, InByteString, front)?;
        Ok(ByteStringLit {
            raw: input,
            value,
            start_suffix,
        })
    }

    /// Returns the value: the bytes of `a` and FF for `b"a\xff"`.
    pub fn value(&self) -> &[u8]
        ensures { result.now ≡ string_value self.now.parts }
    {
        match &self.value {
            KeptValue::InText(place) => &self.raw.as_str().as_bytes()[place.start..place.end],
            KeptValue::Owned(value) => value.as_slice(),
        }
    }

    /// Returns `true` if the literal is raw, for example `br"foo"` or `br#"foo"#`.
    pub fn is_raw_byte_string(&self) -> bool
        ensures { result ≡ is_raw self.now.parts }
    {
        match &self.value {
            KeptValue::InText(place) => place.is_raw,
            KeptValue::Owned(_) => false,
        }
    }

    /// Returns the suffix, or `""` if there is none. For `b"foo"u8` that is `u8`.
    pub fn suffix(&self) -> &str
        ensures { chars result.now ≡ string_suffix self.now.parts }
    {
        &self.raw.as_str()[self.start_suffix..]
    }

    /// Returns the text that was parsed, for example `b"foo"u8`.
    pub fn raw_input(&self) -> &str
        ensures raw { result.now ≡ self.now.raw }
        ensures literal { IsString byte_string_kind (chars result.now) self.now.parts }
    {
        self.raw.as_str()
    }

    /// Clones the literal. Over `&str` this does not allocate and always succeeds if the body is
    /// raw or has no backslash.
    ///
    /// # Errors
    ///
    /// Returns `AllocError` if the allocation of the text or the value fails.
    pub fn clone(&self, alloc: Global) -> Result<ByteStringLit<B>, AllocError>
        ensures raw { IfOk result (λ copy. copy.raw ≡ self.now.raw) }
        ensures parts { IfOk result (λ copy. copy.parts ≡ self.now.parts) }
        ensures succeeds { B.owns ≡ false → has_escapes self.now.parts ≡ false → IsOk result }
    {
        let value = copy_value(alloc, &self.value)?;
        let raw = self.raw.copy(alloc)?;
        Ok(ByteStringLit {
            raw,
            value,
            start_suffix: self.start_suffix,
        })
    }

    /// Returns the text that was parsed, in its buffer, without copying it.
    pub fn into_raw_input(self) -> B
        ensures buffer { result ≡ self.buffer }
        ensures text { B.bytes result ≡ self.raw }
    {
        let ByteStringLit {
            raw,
            value: _,
            start_suffix: _,
        } = self;
        raw
    }
}

impl<B: Buffer> ByteStringLit<B> {
    /// Returns the value, taken out of the literal. Over `&str` it is borrowed from the text if the
    /// body is raw or has no backslash. Otherwise, it is owned. Does not allocate.
    pub fn into_value(self) -> B::ByteCow
        ensures bytes { B.byte_cow_items result ≡ string_value self.parts }
        ensures owned { B.byte_cow_owned result
            ↔ (IsTrue B.owns ⊎ IsTrue (has_escapes self.parts)) }
    {
        let ByteStringLit {
            raw,
            value,
            start_suffix: _,
        } = self;
        match value {
            KeptValue::InText(place) => raw.cut(place.start..place.end).into_byte_cow(),
            KeptValue::Owned(value) => B::byte_cow_from(value),
        }
    }
}

impl ByteStringLit<&str> {
    /// Converts the literal to one with an owned text.
    ///
    /// # Errors
    ///
    /// Returns `AllocError` if the allocation of the text fails. The literal is then dropped.
    pub fn into_owned(self, alloc: Global) -> Result<ByteStringLit<String>, AllocError>
        ensures raw { IfOk result (λ owned. owned.raw ≡ self.entry.raw) }
        ensures parts { IfOk result (λ owned. owned.parts ≡ self.entry.parts) }
    {
        let ByteStringLit {
            raw,
            value,
            start_suffix,
        } = self;
        let raw = String::from_str(alloc, raw)?;
        Ok(ByteStringLit {
            raw,
            value,
            start_suffix,
        })
    }
}

fn copy_value(alloc: Global, value: &KeptValue<Vec<u8>>) -> Result<KeptValue<Vec<u8>>, AllocError>
    ensures bytes { IfOk result (λ copy.
        kept_map vec_items copy ≡ kept_map vec_items value.now) }
    ensures succeeds { is_owned value.now ≡ false → IsOk result }
{
    match value {
        KeptValue::Owned(value) => {
            // bounded by the length of the value.
            let mut copy = Vec::with_capacity(alloc, value.len())?;
            copy.extend_from_slice(value)?;
            Ok(KeptValue::Owned(copy))
        }
        KeptValue::InText(place) => Ok(KeptValue::InText(*place)),
    }
}

impl<B: Text> PartialEq for ByteStringLit<B> {
    ghost eq = { λ x y. pointwise nat_eq x.raw y.raw };

    ghost laws = { on_per (λ lit. lit.raw) (partial_equiv_from_equiv nat_list_eq_equiv) };

    fn eq(&self, other: &ByteStringLit<B>) -> bool {
        self.raw.as_str() == other.raw.as_str()
    }
}

impl<B: Text> Eq for ByteStringLit<B> {
    ghost laws = { on_equiv (λ lit. lit.raw) nat_list_eq_equiv };
}

impl<B: Text> fmt::Display for ByteStringLit<B> {
    ghost output = { λ lit. Some lit.raw };

    fn fmt<W: fmt::Write>(&self, f: &mut fmt::Formatter<W>) -> fmt::Result {
        f.pad(self.raw.as_str())
    }
}
