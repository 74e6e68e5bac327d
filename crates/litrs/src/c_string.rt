//! C string literals, and their values.
ghost use Rattle.std.specs.Prelude.{◌≡◌, ◌<◌, ℕ, List, [], ◌∷◌, ◌++◌, IsFalse, IsOk, IfOk, IfErr, Some, nat_eq, vec_items, vec_len, vec_capacity};
ghost use Rattle.std.specs.Cmp.{on_per, on_equiv, partial_equiv_from_equiv};
ghost use Rattle.std.specs.Cmp.Lexicographic.{pointwise, nat_list_eq_equiv};
ghost use Rattle.std.specs.Str.{chars};
ghost use Rattle.litrs_base.specs.Derivations.{IsOnlyDerivation};
ghost use Rattle.litrs_base.specs.Characters.{nul};
ghost use Rattle.litrs_base.specs.declared.quotes.StringKind.TheVariants.{CString as c_string_kind};
ghost use Rattle.litrs_grammar.specs.Literal.{IsString, string_suffix, string_value, kind_parse, c_string_literal};
ghost use Rattle.litrs_grammar.specs.Strings.{StringDerivation, is_raw};
ghost use Rattle.litrs_grammar.specs.Refused.{IsRefusedOrOutOfMemory};
ghost use Rattle.litrs_grammar.proofs.StringDerivations.{string_derivation-prop};
ghost use Rattle.litrs_lex.specs.Front.{IsFront};
ghost use Rattle.litrs.specs.CString.{before_zero, has_nul, IsClosed};
ghost use Rattle.litrs.specs.StringLiteral.{StringLiteral, IsCStringAt, IsPlaced, kept_map, kept_value};
ghost use Rattle.litrs.specs.ParsedStrings.{IsParsedCString};

use crate::cut::read_string;
use crate::kept_value::KeptValue;
use litrs_lex::{Front, InCString, ParseError, ParseErrorKind, StringKind, Text};
use std::alloc::{AllocError, Global};
use std::fmt;
use std::marker::Model;

/// The value of a C string literal: bytes that are not zero, followed by a closing zero.
///
/// Contracts see the bytes before the closing zero.
#[derive(Drop)]
pub struct CString {
    bytes: Vec<u8>,
}

impl Model for CString {
    ghost Value = { List ℕ };

    ghost view = { λ s. before_zero s.bytes.items };

    ghost invariant = { λ s. IsClosed s.bytes.items };
}

impl CString {
    /// Creates a value from `bytes`, of which none is zero, by appending a closing zero.
    ///
    /// It always succeeds if `bytes` has capacity for one more byte.
    ///
    /// # Errors
    ///
    /// Returns `AllocError` if the allocation for the zero fails. `bytes` is then dropped.
    // This is not inlined; see `copy_of`.
    #[inline(never)]
    fn close(mut bytes: Vec<u8>) -> Result<CString, AllocError>
        requires { IsFalse (has_nul bytes.items) }
        ensures bytes { IfOk result (λ s. s ≡ bytes.items) }
        ensures succeeds { vec_len bytes < vec_capacity bytes → IsOk result }
    {
        bytes.push(0)?;
        Ok(CString { bytes })
    }

    /// Creates a value from a copy of `bytes`, of which none is zero, with a closing zero.
    ///
    /// # Errors
    ///
    /// Returns `AllocError` if the allocation of the copy fails.
    // This is not inlined, so the copy passes through memory once on its way into the literal.
    #[inline(never)]
    fn copy_of(alloc: Global, bytes: &[u8]) -> Result<CString, AllocError>
        requires { IsFalse (has_nul bytes.now) }
        ensures { IfOk result (λ s. s ≡ bytes.now) }
    {
        // bounded by the length of the value, with its closing zero.
        let mut copy = Vec::with_capacity(alloc, bytes.len() + 1)?;
        copy.extend_from_slice(bytes)?;
        copy.push_reserved(0);
        Ok(CString { bytes: copy })
    }

    /// Returns the bytes without the closing zero: `b"ab"` for `c"ab"`. None of them is zero.
    pub fn to_bytes(&self) -> &[u8]
        ensures bytes { result.now ≡ self.now }
        ensures no_nul { IsFalse (has_nul result.now) }
    {
        &self.bytes[..self.bytes.len() - 1]
    }

    /// Returns the bytes with the closing zero: `b"ab\0"` for `c"ab"`.
    pub fn as_bytes_with_nul(&self) -> &[u8]
        ensures { result.now ≡ self.now ++ nul ∷ [] }
    {
        &self.bytes
    }

    /// Clones the value.
    ///
    /// # Errors
    ///
    /// Returns `AllocError` if the allocation fails.
    pub fn clone(&self, alloc: Global) -> Result<CString, AllocError>
        ensures { IfOk result (λ copy. copy ≡ self.now) }
    {
        // bounded by the length of what is copied.
        let mut bytes = Vec::with_capacity(alloc, self.bytes.len())?;
        bytes.extend_from_slice(&self.bytes)?;
        Ok(CString { bytes })
    }
}

/// A C string literal, for example `c"foo"`, `c"\xff\u{e9}"` or `cr#"foo"#`.
///
/// It consists of a quoted or a raw body and a suffix, which may be empty. See
/// [the reference][ref].
///
/// [ref]: https://doc.rust-lang.org/reference/tokens.html#c-string-literals
#[derive(Drop)]
pub struct CStringLit<B: Text> {
    value: CString,
    start_suffix: usize,
    // Keep last: CONTRIBUTING.md says why.
    raw: B,
    ghost derived: { StringDerivation c_string_kind (chars (B.bytes raw)) } by { string_derivation-prop c_string_kind (chars (B.bytes raw)) },
}

impl<B: Text> Model for CStringLit<B> {
    ghost Value = { StringLiteral B };

    ghost view = { λ s. record { buffer = s.raw; raw = B.bytes s.raw; parts = s.derived.0 } };

    ghost invariant = { λ s.
        IsCStringAt s.value s.start_suffix (B.bytes s.raw) s.derived.0 };
}

impl<B: Text> CStringLit<B> {
    /// Parses `input` as a C string.
    ///
    /// For example, `c"a\xff"u8` has the suffix `u8`, and its value is the bytes of `a` and FF. The
    /// value and its closing zero are allocated, once.
    ///
    /// # Errors
    ///
    /// Returns `Empty`; `InvalidCStringLiteralStart` if `input` starts with neither `c"` nor `cr`;
    /// or the error of [`cut_quoted`](litrs_lex::cut_quoted) or
    /// [`scan_raw_string`](litrs_lex::scan_raw_string): for `c"ab` that is `UnterminatedString`,
    /// and for `c"\0"` `DisallowedNulEscape` at 2..4. Returns `OutOfMemory` without a span if
    /// `input` is a C string and the allocation of its value fails.
    #[inline(always)]
    pub fn parse(alloc: Global, input: B) -> Result<CStringLit<B>, ParseError>
        ensures buffer { IfOk result (λ lit. lit.buffer ≡ input) }
        ensures raw { IfOk result (λ lit. lit.raw ≡ B.bytes input) }
        ensures ok { IfOk result (λ lit.
            IsOnlyDerivation (IsString c_string_kind (chars (B.bytes input))) lit.parts) }
        ensures refused { IfErr result
            (IsRefusedOrOutOfMemory (kind_parse c_string_literal) (chars (B.bytes input))) }
    {
        let front = Front::of(input.as_str());
        CStringLit::parse_with_front(alloc, input, front)
    }

    /// Like [`parse`](CStringLit::parse), for an input that starts with `front`.
    ///
    /// # Errors
    ///
    /// Returns the errors of [`parse`](CStringLit::parse).
    #[inline(always)]
    pub(crate) fn parse_with_front(
        alloc: Global,
        input: B,
        front: Front,
    ) -> Result<CStringLit<B>, ParseError>
        requires { IsFront front (B.bytes input) }
        ensures buffer { IfOk result (λ lit. lit.buffer ≡ input) }
        ensures raw { IfOk result (λ lit. lit.raw ≡ B.bytes input) }
        ensures ok { IfOk result (λ lit.
            IsOnlyDerivation (IsString c_string_kind (chars (B.bytes input))) lit.parts) }
        ensures refused { IfErr result
            (IsRefusedOrOutOfMemory (kind_parse c_string_literal) (chars (B.bytes input))) }
    {
        let (value, start_suffix) = parse_text(alloc, input.as_str(), front)?;
        Ok(CStringLit {
            raw: input,
            value,
            start_suffix,
        })
    }

    /// Returns the value: the bytes of `a` and FF, and a closing zero, for `c"a\xff"`.
    pub fn value(&self) -> &CString
        ensures { result.now ≡ string_value self.now.parts }
    {
        &self.value
    }

    /// Returns the value, taken out of the literal. Does not allocate.
    pub fn into_value(self) -> CString
        ensures { result ≡ string_value self.parts }
    {
        let CStringLit {
            raw: _,
            value,
            start_suffix: _,
        } = self;
        value
    }

    /// Returns `true` if the literal is raw, for example `cr"foo"` or `cr#"foo"#`.
    pub fn is_raw_c_string(&self) -> bool
        ensures { result ≡ is_raw self.now.parts }
    {
        // The `c` is followed by `r` or the opening quote.
        self.raw.as_str().as_bytes()[1] == b'r'
    }

    /// Returns the suffix, or `""` if there is none. For `c"foo"u8` that is `u8`.
    pub fn suffix(&self) -> &str
        ensures { chars result.now ≡ string_suffix self.now.parts }
    {
        &self.raw.as_str()[self.start_suffix..]
    }

    /// Returns the text that was parsed, for example `c"foo"u8`.
    pub fn raw_input(&self) -> &str
        ensures raw { result.now ≡ self.now.raw }
        ensures literal { IsString c_string_kind (chars result.now) self.now.parts }
    {
        self.raw.as_str()
    }

    /// Clones the literal.
    ///
    /// # Errors
    ///
    /// Returns `AllocError` if the allocation of the text or the value fails.
    pub fn clone(&self, alloc: Global) -> Result<CStringLit<B>, AllocError>
        ensures raw { IfOk result (λ copy. copy.raw ≡ self.now.raw) }
        ensures parts { IfOk result (λ copy. copy.parts ≡ self.now.parts) }
    {
        let value = self.value.clone(alloc)?;
        let raw = self.raw.copy(alloc)?;
        Ok(CStringLit {
            raw,
            value,
            start_suffix: self.start_suffix,
        })
    }

    /// Returns the text that was parsed, in its buffer, without copying it.
    pub fn into_raw_input(self) -> B
        ensures buffer { result ≡ self.buffer }
        ensures text { B.bytes result ≡ self.raw }
    {
        let CStringLit {
            raw,
            value: _,
            start_suffix: _,
        } = self;
        raw
    }
}

impl CStringLit<&str> {
    /// Converts the literal to one with an owned text.
    ///
    /// # Errors
    ///
    /// Returns `AllocError` if the allocation of the text fails. The literal is then dropped.
    pub fn into_owned(self, alloc: Global) -> Result<CStringLit<String>, AllocError>
        ensures raw { IfOk result (λ owned. owned.raw ≡ self.entry.raw) }
        ensures parts { IfOk result (λ owned. owned.parts ≡ self.entry.parts) }
    {
        let CStringLit {
            raw,
            value,
            start_suffix,
        } = self;
        let raw = String::from_str(alloc, raw)?;
        Ok(CStringLit {
            raw,
            value,
            start_suffix,
        })
    }
}

/// Returns the value of the C string `input` and the place of its suffix, in bytes.
#[inline(always)]
fn parse_text(alloc: Global, input: &str, front: Front) -> Result<(CString, usize), ParseError>
    requires { IsFront front input.now }
    ensures ok { IfOk result (λ parsed. IsParsedCString input.now parsed.0 parsed.1) }
    ensures refused { IfErr result
        (IsRefusedOrOutOfMemory (kind_parse c_string_literal) (chars input.now)) }
{
    let (kept, start_suffix) = read_string(alloc, input, StringKind::CString, InCString, front)?;
    match close_value(alloc, input, kept) {
        Ok(value) => Ok((value, start_suffix)),
        // allocation failed: that of the copy, or that of the closing zero.
        Err(_) => Err(ParseError::new(None, ParseErrorKind::OutOfMemory)),
    }
}

/// Returns the value `kept` of `text`, with a closing zero.
#[inline(always)]
fn close_value(alloc: Global, text: &str, kept: KeptValue<Vec<u8>>) -> Result<CString, AllocError>
    requires placed { IsPlaced text.now (kept_map vec_items kept) }
    requires no_nul { IsFalse (has_nul (kept_value text.now (kept_map vec_items kept))) }
    ensures { IfOk result (λ value. value ≡ kept_value text.now (kept_map vec_items kept)) }
{
    match kept {
        KeptValue::InText(place) => {
            CString::copy_of(alloc, &text.as_bytes()[place.start..place.end])
        }
        KeptValue::Owned(bytes) => CString::close(bytes),
    }
}

impl<B: Text> PartialEq for CStringLit<B> {
    ghost eq = { λ x y. pointwise nat_eq x.raw y.raw };

    ghost laws = { on_per (λ lit. lit.raw) (partial_equiv_from_equiv nat_list_eq_equiv) };

    fn eq(&self, other: &CStringLit<B>) -> bool {
        self.raw.as_str() == other.raw.as_str()
    }
}

impl<B: Text> Eq for CStringLit<B> {
    ghost laws = { on_equiv (λ lit. lit.raw) nat_list_eq_equiv };
}

impl<B: Text> fmt::Display for CStringLit<B> {
    ghost output = { λ lit. Some lit.raw };

    fn fmt<W: fmt::Write>(&self, f: &mut fmt::Formatter<W>) -> fmt::Result {
        f.pad(self.raw.as_str())
    }
}
