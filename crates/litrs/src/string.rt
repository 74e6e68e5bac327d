//! String literals.
ghost use Rattle.std.specs.Prelude.{◌≡◌, ◌↔◌, ◌⊎◌, false, IsTrue, IsOk, IfOk, IfErr, Some, nat_eq, string_bytes};
ghost use Rattle.std.specs.Cmp.{on_per, on_equiv, partial_equiv_from_equiv};
ghost use Rattle.std.specs.Cmp.Lexicographic.{pointwise, nat_list_eq_equiv};
ghost use Rattle.std.specs.Str.{chars};
ghost use Rattle.litrs_base.specs.Derivations.{IsOnlyDerivation};
ghost use Rattle.litrs_base.specs.declared.quotes.StringKind.TheVariants.{String as string_kind};
ghost use Rattle.litrs_grammar.specs.Literal.{IsString, string_suffix, string_value, kind_parse, string_literal};
ghost use Rattle.litrs_grammar.specs.Allocation.{has_escapes};
ghost use Rattle.litrs_grammar.specs.Strings.{StringDerivation, is_raw};
ghost use Rattle.litrs_grammar.specs.Refused.{IsRefusedOrOutOfMemory};
ghost use Rattle.litrs_grammar.proofs.StringDerivations.{string_derivation-prop};
ghost use Rattle.litrs_lex.specs.Front.{IsFront};
ghost use Rattle.litrs.specs.StringLiteral.{StringLiteral, IsStringAt, IsPlainString, kept_map, is_owned};

use crate::cut::read_string;
use crate::kept_value::{BodyPlace, KeptValue};
use litrs_lex::{Buffer, Front, InString, ParseError, StringKind, Text};
use std::alloc::{AllocError, Global};
use std::fmt;
use std::marker::Model;

/// A string literal, for example `"foo"`, `"a\nb"` or `r#"foo"#`.
///
/// It consists of a quoted or a raw body and a suffix, which may be empty. See
/// [the reference][ref].
///
/// [ref]: https://doc.rust-lang.org/reference/tokens.html#string-literals
#[derive(Drop)]
pub struct StringLit<B: Text> {
    value: KeptValue<String>,
    start_suffix: usize,
    // Keep last: CONTRIBUTING.md says why.
    raw: B,
    ghost derived: { StringDerivation string_kind (chars (B.bytes raw)) } by { string_derivation-prop string_kind (chars (B.bytes raw)) },
}

impl<B: Text> Model for StringLit<B> {
    ghost Value = { StringLiteral B };

    ghost view = { λ s. record { buffer = s.raw; raw = B.bytes s.raw; parts = s.derived.0 } };

    ghost invariant = { λ s.
        IsStringAt (kept_map string_bytes s.value) s.start_suffix (B.bytes s.raw) s.derived.0 };
}

impl<B: Text> StringLit<B> {
    /// Parses `input` as a string.
    ///
    /// For example, `"a\nb"u8` has the suffix `u8`, and its value is `a`, LF and `b`. If the body
    /// is quoted and has a backslash, the value is allocated, once unless it is empty. Otherwise
    /// nothing is.
    ///
    /// # Errors
    ///
    /// Returns `Empty`; `InvalidStringLiteralStart` at the first byte if that is neither `"` nor
    /// `r`; or the error of [`cut_quoted`](litrs_lex::cut_quoted) or
    /// [`scan_raw_string`](litrs_lex::scan_raw_string). For `"ab` that is `UnterminatedString`, and
    /// for `"\x80"` `NonAsciiXEscape` at 1..5. Returns `OutOfMemory` without a span if `input` is a
    /// string and the allocation of its value fails.
    #[inline(always)]
    pub fn parse(alloc: Global, input: B) -> Result<StringLit<B>, ParseError>
        ensures buffer { IfOk result (λ lit. lit.buffer ≡ input) }
        ensures raw { IfOk result (λ lit. lit.raw ≡ B.bytes input) }
        ensures ok { IfOk result (λ lit.
            IsOnlyDerivation (IsString string_kind (chars (B.bytes input))) lit.parts) }
        ensures refused { IfErr result
            (IsRefusedOrOutOfMemory (kind_parse string_literal) (chars (B.bytes input))) }
    {
        let front = Front::of(input.as_str());
        StringLit::parse_with_front(alloc, input, front)
    }

    /// Like [`parse`](StringLit::parse), for an input that starts with `front`.
    ///
    /// # Errors
    ///
    /// Returns the errors of [`parse`](StringLit::parse).
    #[inline(always)]
    pub(crate) fn parse_with_front(
        alloc: Global,
        input: B,
        front: Front,
    ) -> Result<StringLit<B>, ParseError>
        requires { IsFront front (B.bytes input) }
        ensures buffer { IfOk result (λ lit. lit.buffer ≡ input) }
        ensures raw { IfOk result (λ lit. lit.raw ≡ B.bytes input) }
        ensures ok { IfOk result (λ lit.
            IsOnlyDerivation (IsString string_kind (chars (B.bytes input))) lit.parts) }
        ensures refused { IfErr result
            (IsRefusedOrOutOfMemory (kind_parse string_literal) (chars (B.bytes input))) }
    {
        let (value, start_suffix) = read_string(
            alloc,
            input.as_str(),
            StringKind::String,
            InString,
            front,
        )?;
        Ok(StringLit {
            raw: input,
            value,
            start_suffix,
        })
    }

    /// Creates the string with the text `raw`, a quoted body without a backslash and without a
    /// suffix, such as `"foo"`. Does not parse `raw`, and does not allocate.
    #[inline(always)]
    pub fn plain(raw: B) -> StringLit<B>
        requires { IsPlainString (B.bytes raw) }
        ensures buffer { result.buffer ≡ raw }
        ensures raw { result.raw ≡ B.bytes raw }
        ensures ok { IsOnlyDerivation (IsString string_kind (chars (B.bytes raw))) result.parts }
    {
        let start_suffix = raw.as_str().len();
        let place = BodyPlace {
            start: 1,
            end: start_suffix - 1,
            is_raw: false,
        };
        StringLit {
            raw,
            value: KeptValue::InText(place),
            start_suffix,
        }
    }

    /// Returns the value: `a`, LF and `b` for `"a\nb"`.
    pub fn value(&self) -> &str
        ensures { result.now ≡ string_value self.now.parts }
    {
        match &self.value {
            KeptValue::InText(place) => &self.raw.as_str()[place.start..place.end],
            KeptValue::Owned(value) => value.as_str(),
        }
    }

    /// Returns `true` if the literal is raw, for example `r"foo"` or `r#"foo"#`.
    pub fn is_raw_string(&self) -> bool
        ensures { result ≡ is_raw self.now.parts }
    {
        match &self.value {
            KeptValue::InText(place) => place.is_raw,
            KeptValue::Owned(_) => false,
        }
    }

    /// Returns the suffix, or `""` if there is none. For `"foo"u8` that is `u8`.
    pub fn suffix(&self) -> &str
        ensures { chars result.now ≡ string_suffix self.now.parts }
    {
        &self.raw.as_str()[self.start_suffix..]
    }

    /// Returns the text that was parsed, for example `"foo"u8`.
    pub fn raw_input(&self) -> &str
        ensures raw { result.now ≡ self.now.raw }
        ensures literal { IsString string_kind (chars result.now) self.now.parts }
    {
        self.raw.as_str()
    }

    /// Clones the literal. Over `&str` this does not allocate and always succeeds if the body is
    /// raw or has no backslash.
    ///
    /// # Errors
    ///
    /// Returns `AllocError` if the allocation of the text or the value fails.
    pub fn clone(&self, alloc: Global) -> Result<StringLit<B>, AllocError>
        ensures raw { IfOk result (λ copy. copy.raw ≡ self.now.raw) }
        ensures parts { IfOk result (λ copy. copy.parts ≡ self.now.parts) }
        ensures succeeds { B.owns ≡ false → has_escapes self.now.parts ≡ false → IsOk result }
    {
        let value = copy_value(alloc, &self.value)?;
        let raw = self.raw.copy(alloc)?;
        Ok(StringLit {
            raw,
            value,
            start_suffix: self.start_suffix,
        })
    }

    /// Returns the text that was parsed, in its buffer, without copying it.
    pub fn into_raw_input(self) -> B
        ensures buffer { result ≡ self.buffer }
        ensures text { B.bytes result ≡ self.raw }
    {
        let StringLit {
            raw,
            value: _,
            start_suffix: _,
        } = self;
        raw
    }
}

impl<B: Buffer> StringLit<B> {
    /// Returns the value, taken out of the literal. Over `&str` it is borrowed from the text if the
    /// body is raw or has no backslash. Otherwise, it is owned. Does not allocate.
    pub fn into_value(self) -> B::Cow
        ensures text { B.cow_bytes result ≡ string_value self.parts }
        ensures owned { B.cow_owned result ↔ (IsTrue B.owns ⊎ IsTrue (has_escapes self.parts)) }
    {
        let StringLit {
            raw,
            value,
            start_suffix: _,
        } = self;
        match value {
            KeptValue::InText(place) => raw.cut(place.start..place.end).into_cow(),
            KeptValue::Owned(value) => B::cow_from(value),
        }
    }
}

impl StringLit<&str> {
    /// Converts the literal to one with an owned text.
    ///
    /// # Errors
    ///
    /// Returns `AllocError` if the allocation of the text fails. The literal is then dropped.
    pub fn into_owned(self, alloc: Global) -> Result<StringLit<String>, AllocError>
        ensures raw { IfOk result (λ owned. owned.raw ≡ self.entry.raw) }
        ensures parts { IfOk result (λ owned. owned.parts ≡ self.entry.parts) }
    {
        let StringLit {
            raw,
            value,
            start_suffix,
        } = self;
        let raw = String::from_str(alloc, raw)?;
        Ok(StringLit {
            raw,
            value,
            start_suffix,
        })
    }
}

fn copy_value(alloc: Global, value: &KeptValue<String>) -> Result<KeptValue<String>, AllocError>
    ensures bytes { IfOk result (λ copy.
        kept_map string_bytes copy ≡ kept_map string_bytes value.now) }
    ensures succeeds { is_owned value.now ≡ false → IsOk result }
{
    match value {
        KeptValue::Owned(value) => {
            let copy = String::from_str(alloc, value.as_str())?;
            Ok(KeptValue::Owned(copy))
        }
        KeptValue::InText(place) => Ok(KeptValue::InText(*place)),
    }
}

impl<B: Text> PartialEq for StringLit<B> {
    ghost eq = { λ x y. pointwise nat_eq x.raw y.raw };

    ghost laws = { on_per (λ lit. lit.raw) (partial_equiv_from_equiv nat_list_eq_equiv) };

    fn eq(&self, other: &StringLit<B>) -> bool {
        self.raw.as_str() == other.raw.as_str()
    }
}

impl<B: Text> Eq for StringLit<B> {
    ghost laws = { on_equiv (λ lit. lit.raw) nat_list_eq_equiv };
}

impl<B: Text> fmt::Display for StringLit<B> {
    ghost output = { λ lit. Some lit.raw };

    fn fmt<W: fmt::Write>(&self, f: &mut fmt::Formatter<W>) -> fmt::Result {
        f.pad(self.raw.as_str())
    }
}
