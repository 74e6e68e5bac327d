//! Parsing and inspecting Rust literals.
//!
//! Each kind of literal has a type, and [`Literal`] has a variant for each. Each type has a
//! `parse`, whose input is exactly one literal, without a sign and without white space around it.
//!
//! | Type | Literals | What its methods return, beside the text and the suffix |
//! |---|---|---|
//! | [`BoolLit`] | `true`, `false` | the value; it has no suffix |
//! | [`IntegerLit`] | `27`, `0xFF_u8`, `0b1_0` | base, digits, the value in any integer type |
//! | [`FloatLit`] | `3.14`, `2e-7_f32`, `1.` | integer part, fractional part, exponent |
//! | [`CharLit`] | `'a'`, `'\n'`, `'\u{1f98a}'` | the value, a `char` |
//! | [`StringLit`] | `"a\n"`, `r#"C:\"#` | the value, a `str`, and whether it is raw |
//! | [`ByteLit`] | `b'a'`, `b'\xff'` | the value, a `u8` |
//! | [`ByteStringLit`] | `b"a\xff"`, `br"\"` | the value, a `[u8]`, and whether it is raw |
//! | [`CStringLit`] | `c"a"`, `cr"\"` | the value, a [`CString`], and whether it is raw |
//!
//! # Texts and memory
//!
//! A literal keeps the text that it was parsed from, a `&str` or a `String` ([`Buffer`]), and its
//! parts are slices of it. Only the value of a C string, and of a quoted string or byte string with
//! a backslash, is allocated, at most once. Over `&str` bools, numbers, chars and bytes are `Copy`.
//!
//! # Values
//!
//! ```
//! use litrs::{Literal, ParseError};
//! use std::alloc::Global;
//!
//! /// Returns the length in bytes of the value of a string of any kind.
//! fn value_len(alloc: Global, text: &str) -> Result<Option<usize>, ParseError> {
//!     match &Literal::parse(alloc, text)? {
//!         Literal::String(lit) => Ok(Some(lit.value().len())),
//!         Literal::ByteString(lit) => Ok(Some(lit.value().len())),
//!         Literal::CString(lit) => Ok(Some(lit.value().to_bytes().len())),
//!         _ => Ok(None),
//!     }
//! }
//! // For "a\n" it returns Ok(Some(2)), for b"\xff"u8 Ok(Some(1)), and for 27 Ok(None).
//! ```
//!
//! # Errors
//!
//! A [`ParseError`] has a kind and mostly a span: for `0b12`, [`IntegerLit::parse`] returns
//! `InvalidDigit` at 3..4. Spans are in bytes. `char_span` ends after a whole character, so the
//! text can be cut there. If the error `is_final`, no longer text is a literal for the same parse.
//! If it `is_open`, the text with its closing quote, and the hashes of a raw string, is one.
//!
//! # Prompts
//!
//! [`goes_on`] returns `true` if a text is a literal or incomplete. A reader accepts a text that is
//! a literal, asks for more if some longer text is one, and otherwise shows the error:
//!
//! ```
//! use litrs::ParseErrorKind::OutOfMemory;
//! use litrs::{Literal, ParseError, goes_on};
//! use std::alloc::Global;
//!
//! /// Returns the literal that `text` is, or `None` if more text can complete it.
//! fn complete(alloc: Global, text: &str) -> Result<Option<Literal<&str>>, ParseError> {
//!     match Literal::parse(alloc, text) {
//!         Ok(lit) => Ok(Some(lit)),
//!         Err(e) if e.kind() != OutOfMemory && goes_on(text) => Ok(None),
//!         Err(e) => Err(e),
//!     }
//! }
//! // For 'a' it returns Ok(Some(_)), for "a Ok(None), and for "\q" an error: UnknownEscape.
//! ```
//!
//! A prompt for lines uses the crate `litrs_lines`, since no further line completes `'a`.
#![tactic(auto)]

ghost use Rattle.std.specs.Prelude.{◌≡◌, false, nat_eq, IsTrue, IsOk, IfOk, IfErr, Some};
ghost use Rattle.std.specs.Cmp.{on_per, on_equiv, partial_equiv_from_equiv};
ghost use Rattle.std.specs.Cmp.Lexicographic.{pointwise, nat_list_eq_equiv};
ghost use Rattle.std.specs.Char.{is_ascii_digit};
ghost use Rattle.std.specs.Str.{chars};
ghost use Rattle.litrs_base.specs.Derivations.{IsOnlyDerivation};
ghost use Rattle.litrs_base.specs.Refusal.{without_span};
ghost use Rattle.litrs_base.specs.Text.{first_passes};
ghost use Rattle.litrs_grammar.specs.Literal.{IsLiteral, suffix_of, literal_parse, kind_parse, string_literal_of};
ghost use Rattle.litrs_grammar.specs.Allocation.{allocates};
ghost use Rattle.litrs_grammar.specs.LiteralRefusals.{IsRefusal};
ghost use Rattle.litrs_grammar.specs.Refused.{IsRefused, IsRefusedOrOutOfMemory};
ghost use Rattle.litrs_lex.specs.Front.{IsFront};
ghost use Rattle.litrs_lex.specs.NumberCut.{number_kind};
ghost use Rattle.litrs.specs.LiteralDerivation.{literal_raw, derivation, HasBuffer, is_bool_literal};

pub use bool::BoolLit;
pub use byte::ByteLit;
pub use byte_string::ByteStringLit;
pub use c_string::{CString, CStringLit};
pub use char::CharLit;
pub use float::FloatLit;
use going_on::front::begins_with;
pub use going_on::goes_on;
pub use integer::IntegerLit;
pub use litrs_base::FromIntegerLiteral;
pub use litrs_lex::{
    Buffer, FloatType, IntegerBase, IntegerType, ParseError, ParseErrorKind, Text,
};
use litrs_lex::{Front, NumberCut, StringKind, cut_number};
use std::alloc::{AllocError, Global};
use std::fmt;
pub use string::StringLit;

mod bool;
mod byte;
mod byte_string;
mod c_string;
mod char;
mod cut;
mod float;
mod going_on;
mod integer;
mod kept_value;
mod string;

/// A literal of any kind. See [the reference][ref].
///
/// [ref]: https://doc.rust-lang.org/reference/tokens.html#literals
#[derive(Drop)]
pub enum Literal<B: Text> {
    /// A bool: `true` or `false`.
    Bool(BoolLit),
    /// An integer, for example `0xFF_u8`.
    Integer(IntegerLit<B>),
    /// A float, for example `3.14f33`.
    Float(FloatLit<B>),
    /// A char, for example `'a'`.
    Char(CharLit<B>),
    /// A string, for example `"foo"` or `r"foo"`.
    String(StringLit<B>),
    /// A byte, for example `b'a'`.
    Byte(ByteLit<B>),
    /// A byte string, for example `b"foo"` or `br"foo"`.
    ByteString(ByteStringLit<B>),
    /// A C string, for example `c"foo"` or `cr"foo"`.
    CString(CStringLit<B>),
}

impl<B: Text> Literal<B> {
    /// Parses `input` as a literal of any kind, which its start decides.
    ///
    /// For example, `true` is a bool, and `1_000u32` an integer with the suffix `u32`. The value of
    /// a C string is allocated once. So is that of a quoted string or byte string with a backslash,
    /// unless it is empty. Otherwise nothing is.
    ///
    /// # Errors
    ///
    /// Returns `Empty`; the error of the kind that `input` starts like; or `InvalidLiteral` if it
    /// does not start like any kind. For `0 ` that is `UnexpectedChar` at 1..2, and for `cat`
    /// `InvalidCStringLiteralStart`.
    /// Returns `OutOfMemory` without a span if `input` is a literal and the allocation of its value
    /// fails.
    // This is inlined, like each parse: CONTRIBUTING says why.
    #[inline(always)]
    pub fn parse(alloc: Global, input: B) -> Result<Literal<B>, ParseError>
        ensures buffer { IfOk result (HasBuffer input) }
        ensures raw { IfOk result (λ lit. literal_raw lit ≡ B.bytes input) }
        ensures ok { IfOk result (λ lit.
            IsOnlyDerivation (IsLiteral (chars (B.bytes input))) (derivation lit)) }
        ensures refused { IfErr result
            (IsRefusedOrOutOfMemory literal_parse (chars (B.bytes input))) }
    {
        let front = Front::of(input.as_str());
        match front {
            Front::Empty => Err(ParseError::new(None, ParseErrorKind::Empty)),
            Front::Bool(value) => Ok(Literal::Bool(BoolLit::new(value))),
            Front::Number => Ok(Literal::parse_number(input)?),
            Front::Char => Ok(Literal::Char(CharLit::parse_with_front(input, Front::Char)?)),
            Front::Byte => Ok(Literal::Byte(ByteLit::parse_with_front(input, Front::Byte)?)),
            Front::Quoted(kind) | Front::Raw(kind) => {
                Ok(Literal::parse_string(alloc, input, kind, front)?)
            }
            Front::Other => Err(ParseError::new(None, other_refusal(input.as_str()))),
        }
    }

    /// Like [`parse`](Literal::parse), for an input that starts with a digit.
    #[inline(always)]
    fn parse_number(input: B) -> Result<Literal<B>, ParseError>
        requires { IsTrue (first_passes is_ascii_digit (B.bytes input)) }
        ensures buffer { IfOk result (HasBuffer input) }
        ensures raw { IfOk result (λ lit. literal_raw lit ≡ B.bytes input) }
        ensures literal { IfOk result (λ lit. IsLiteral (chars (B.bytes input)) (derivation lit)) }
        ensures refused { IfErr result
            (IsRefused (kind_parse (number_kind (chars (B.bytes input)))) (chars (B.bytes input))) }
    {
        match cut_number(input.as_str())? {
            NumberCut::Integer(cut) => Ok(Literal::Integer(IntegerLit::new(input, cut))),
            NumberCut::Float(cut) => Ok(Literal::Float(FloatLit::new(input, cut))),
        }
    }

    /// Like [`parse`](Literal::parse), for an input that starts like a string of `kind`.
    #[inline(always)]
    fn parse_string(
        alloc: Global,
        input: B,
        kind: StringKind,
        front: Front,
    ) -> Result<Literal<B>, ParseError>
        requires { IsFront front (B.bytes input) }
        ensures buffer { IfOk result (HasBuffer input) }
        ensures raw { IfOk result (λ lit. literal_raw lit ≡ B.bytes input) }
        ensures literal { IfOk result (λ lit. IsLiteral (chars (B.bytes input)) (derivation lit)) }
        ensures refused { IfErr result (IsRefusedOrOutOfMemory
            (kind_parse (string_literal_of kind)) (chars (B.bytes input))) }
    {
        match kind {
            StringKind::String => {
                Ok(Literal::String(StringLit::parse_with_front(alloc, input, front)?))
            }
            StringKind::ByteString => {
                Ok(Literal::ByteString(ByteStringLit::parse_with_front(alloc, input, front)?))
            }
            StringKind::CString => {
                Ok(Literal::CString(CStringLit::parse_with_front(alloc, input, front)?))
            }
        }
    }

    /// Returns the suffix, or `""` if there is none. For `0xFF_u8` that is `u8`. A bool has no
    /// suffix.
    pub fn suffix(&self) -> &str
        ensures { chars result.now ≡ suffix_of (derivation self.now) }
    {
        match self {
            Literal::Bool(_) => "",
            Literal::Integer(lit) => lit.suffix(),
            Literal::Float(lit) => lit.suffix(),
            Literal::Char(lit) => lit.suffix(),
            Literal::String(lit) => lit.suffix(),
            Literal::Byte(lit) => lit.suffix(),
            Literal::ByteString(lit) => lit.suffix(),
            Literal::CString(lit) => lit.suffix(),
        }
    }

    /// Returns the text that was parsed, for example `0xFF_u8`.
    pub fn raw_input(&self) -> &str
        ensures raw { result.now ≡ literal_raw self.now }
        ensures literal { IsLiteral (chars result.now) (derivation self.now) }
    {
        match self {
            Literal::Bool(lit) => lit.as_str(),
            Literal::Integer(lit) => lit.raw_input(),
            Literal::Float(lit) => lit.raw_input(),
            Literal::Char(lit) => lit.raw_input(),
            Literal::String(lit) => lit.raw_input(),
            Literal::Byte(lit) => lit.raw_input(),
            Literal::ByteString(lit) => lit.raw_input(),
            Literal::CString(lit) => lit.raw_input(),
        }
    }

    /// Clones the literal. Over `&str` this does not allocate and always succeeds, unless the
    /// literal is a C string or has a quoted body with a backslash, whose value is copied.
    ///
    /// # Errors
    ///
    /// Returns `AllocError` if the allocation of the text or the value fails. The literal is
    /// unchanged.
    pub fn clone(&self, alloc: Global) -> Result<Literal<B>, AllocError>
        ensures raw { IfOk result (λ copy. literal_raw copy ≡ literal_raw self.now) }
        ensures parts { IfOk result (λ copy. derivation copy ≡ derivation self.now) }
        ensures succeeds { B.owns ≡ false → allocates (derivation self.now) ≡ false → IsOk result }
        ensures bool { IsTrue (is_bool_literal self.now) → IsOk result }
    {
        match self {
            Literal::Bool(lit) => Ok(Literal::Bool(*lit)),
            Literal::Integer(lit) => Ok(Literal::Integer(lit.clone(alloc)?)),
            Literal::Float(lit) => Ok(Literal::Float(lit.clone(alloc)?)),
            Literal::Char(lit) => Ok(Literal::Char(lit.clone(alloc)?)),
            Literal::String(lit) => Ok(Literal::String(lit.clone(alloc)?)),
            Literal::Byte(lit) => Ok(Literal::Byte(lit.clone(alloc)?)),
            Literal::ByteString(lit) => Ok(Literal::ByteString(lit.clone(alloc)?)),
            Literal::CString(lit) => Ok(Literal::CString(lit.clone(alloc)?)),
        }
    }
}

impl Literal<&str> {
    /// Converts the literal to one with an owned text.
    ///
    /// # Errors
    ///
    /// Returns `AllocError` if the allocation of the text fails. The literal is then dropped.
    pub fn into_owned(self, alloc: Global) -> Result<Literal<String>, AllocError>
        ensures raw { IfOk result (λ owned. literal_raw owned ≡ literal_raw self.entry) }
        ensures parts { IfOk result (λ owned. derivation owned ≡ derivation self.entry) }
        ensures bool { IsTrue (is_bool_literal self.entry) → IsOk result }
    {
        match self {
            Literal::Bool(lit) => Ok(Literal::Bool(lit)),
            Literal::Integer(lit) => Ok(Literal::Integer(lit.to_owned(alloc)?)),
            Literal::Float(lit) => Ok(Literal::Float(lit.to_owned(alloc)?)),
            Literal::Char(lit) => Ok(Literal::Char(lit.to_owned(alloc)?)),
            Literal::String(lit) => Ok(Literal::String(lit.into_owned(alloc)?)),
            Literal::Byte(lit) => Ok(Literal::Byte(lit.to_owned(alloc)?)),
            Literal::ByteString(lit) => Ok(Literal::ByteString(lit.into_owned(alloc)?)),
            Literal::CString(lit) => Ok(Literal::CString(lit.into_owned(alloc)?)),
        }
    }
}

/// Returns the error of `text`, which does not start like any literal. If it starts with `c`, that
/// is the error of a C string.
fn other_refusal(text: &str) -> ParseErrorKind
    requires { IsFront Front.Other text.now }
    ensures { IsRefusal literal_parse (chars text.now) (without_span result) }
{
    if begins_with(b"c", text.as_bytes()) {
        ParseErrorKind::InvalidCStringLiteralStart
    } else {
        ParseErrorKind::InvalidLiteral
    }
}

impl<B: Text> From<BoolLit> for Literal<B> {
    ghost use Rattle.litrs.specs.declared.Literal.TheVariants.{Bool};

    ghost from_gives = { λ lit literal. literal ≡ Bool lit };

    fn from(lit: BoolLit) -> Literal<B> {
        Literal::Bool(lit)
    }
}

impl<B: Text> From<IntegerLit<B>> for Literal<B> {
    ghost use Rattle.litrs.specs.declared.Literal.TheVariants.{Integer};

    ghost from_gives = { λ lit literal. literal ≡ Integer lit };

    fn from(lit: IntegerLit<B>) -> Literal<B> {
        Literal::Integer(lit)
    }
}

impl<B: Text> From<FloatLit<B>> for Literal<B> {
    ghost use Rattle.litrs.specs.declared.Literal.TheVariants.{Float};

    ghost from_gives = { λ lit literal. literal ≡ Float lit };

    fn from(lit: FloatLit<B>) -> Literal<B> {
        Literal::Float(lit)
    }
}

impl<B: Text> From<CharLit<B>> for Literal<B> {
    ghost use Rattle.litrs.specs.declared.Literal.TheVariants.{Char};

    ghost from_gives = { λ lit literal. literal ≡ Char lit };

    fn from(lit: CharLit<B>) -> Literal<B> {
        Literal::Char(lit)
    }
}

impl<B: Text> From<StringLit<B>> for Literal<B> {
    ghost use Rattle.litrs.specs.declared.Literal.TheVariants.{String};

    ghost from_gives = { λ lit literal. literal ≡ String lit };

    fn from(lit: StringLit<B>) -> Literal<B> {
        Literal::String(lit)
    }
}

impl<B: Text> From<ByteLit<B>> for Literal<B> {
    ghost use Rattle.litrs.specs.declared.Literal.TheVariants.{Byte};

    ghost from_gives = { λ lit literal. literal ≡ Byte lit };

    fn from(lit: ByteLit<B>) -> Literal<B> {
        Literal::Byte(lit)
    }
}

impl<B: Text> From<ByteStringLit<B>> for Literal<B> {
    ghost use Rattle.litrs.specs.declared.Literal.TheVariants.{ByteString};

    ghost from_gives = { λ lit literal. literal ≡ ByteString lit };

    fn from(lit: ByteStringLit<B>) -> Literal<B> {
        Literal::ByteString(lit)
    }
}

impl<B: Text> From<CStringLit<B>> for Literal<B> {
    ghost use Rattle.litrs.specs.declared.Literal.TheVariants.{CString};

    ghost from_gives = { λ lit literal. literal ≡ CString lit };

    fn from(lit: CStringLit<B>) -> Literal<B> {
        Literal::CString(lit)
    }
}

impl<B: Text> PartialEq for Literal<B> {
    ghost eq = { λ x y. pointwise nat_eq (literal_raw x) (literal_raw y) };

    ghost laws = { on_per (λ lit. literal_raw lit) (partial_equiv_from_equiv nat_list_eq_equiv) };

    fn eq(&self, other: &Literal<B>) -> bool {
        self.raw_input() == other.raw_input()
    }
}

impl<B: Text> Eq for Literal<B> {
    ghost laws = { on_equiv (λ lit. literal_raw lit) nat_list_eq_equiv };
}

impl<B: Text> fmt::Display for Literal<B> {
    ghost output = { λ lit. Some (literal_raw lit) };

    fn fmt<W: fmt::Write>(&self, f: &mut fmt::Formatter<W>) -> fmt::Result {
        match self {
            Literal::Bool(lit) => lit.fmt(f),
            Literal::Integer(lit) => lit.fmt(f),
            Literal::Float(lit) => lit.fmt(f),
            Literal::Char(lit) => lit.fmt(f),
            Literal::String(lit) => lit.fmt(f),
            Literal::Byte(lit) => lit.fmt(f),
            Literal::ByteString(lit) => lit.fmt(f),
            Literal::CString(lit) => lit.fmt(f),
        }
    }
}
