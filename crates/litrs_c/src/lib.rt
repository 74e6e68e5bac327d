//! Rust literals and tokens, for C and for what calls C.
//!
//! A static library over [`litrs`]. `include/litrs.h` declares the calls and what they answer, and
//! `README.md` says how to build, install and call them. Nothing is kept between calls, and nothing
//! has to be freed.
#![tactic(auto)]

ghost use Rattle.std.specs.Prelude.{◌≡◌, ◌≢◌, ◌≤◌, ◌↔◌, ⊤, IsTrue, IsFalse, length, Some, None, option_map};
ghost use Rattle.std.specs.Str.{chars, IsUtf8};
ghost use Rattle.litrs_base.specs.Derivations.{HasNoDerivation};
ghost use Rattle.litrs_grammar.specs.Literal.{IsLiteral, literal_parse, Begins};
ghost use Rattle.litrs_grammar.specs.Refused.{MayLackMemory};
ghost use Rattle.litrs.specs.LiteralDerivation.{derivation};
ghost use Rattle.litrs_c.specs.LiteralFields.{IsLiteralFields, bytes_of};
ghost use Rattle.litrs_c.specs.RefusalFields.{IsRefusalFields};
ghost use Rattle.litrs_prefix.specs.Opens.{opens};
ghost use Rattle.litrs_c.specs.Prefixes.{IsPrefixAnd, IsMalformedAnd, LacksMemoryAt};
ghost use Rattle.litrs_c.specs.Answers.{IsLiteralAnd, IsRefusedAnd, IsKept, WritesValue, WritesMessage};

use literals::{NO_LITERAL, write_literal_fields};
use litrs::{Literal, ParseErrorKind};
use message::write_refusal;
use prefix::parse_prefix_text;
use refusals::{NO_REFUSAL, write_refusal_fields};
use std::alloc::Global;
use utf8::from_utf8;

mod literals;
mod message;
mod numbers;
mod prefix;
mod refusals;
mod room;
mod static_texts;
mod tokens;
mod utf8;
mod write;

/// The text, or its front, is a literal, or a literal was written.
pub const LITERAL: u32 = 0;
/// The text is not a literal, the literal at its front is malformed, or no literal to write has the
/// suffix.
pub const REFUSED: u32 = 1;
/// The bytes are not UTF-8.
pub const NOT_UTF8: u32 = 2;
/// An allocation failed: for a value, a number's digits, or a literal to write.
pub const OUT_OF_MEMORY: u32 = 3;
/// The text is a literal, but not a string, a byte string or a C string.
pub const NO_STRING: u32 = 4;
/// No literal begins at the front of the text.
pub const NO_PREFIX: u32 = 5;
/// The text is a literal, but not an integer or a float.
pub const NO_NUMBER: u32 = 6;

/// A part of a text: the bytes from `start` up to `end`.
#[repr(C)]
#[derive(Clone, Copy)]
pub struct Place {
    /// The place of the first byte.
    pub start: usize,
    /// The place after the last byte.
    pub end: usize,
}

/// A literal. A field that a kind does not have, except `suffix`, is 0, `false`, or the place 0..0.
#[repr(C)]
#[derive(Clone, Copy)]
pub struct LiteralFields {
    /// `enum litrs_kind`.
    pub kind: u32,
    /// The base of an integer: 2, 8, 10 or 16.
    pub base: u32,
    /// `true` for a raw string of one of the three kinds.
    pub is_raw: bool,
    /// `true` for a float with a period.
    pub has_fraction: bool,
    /// `true` if the halves are those of the value: of a bool, a char, a byte, and an integer below
    /// 2^128.
    pub has_value: bool,
    /// The value modulo 2^64, or 0 if `has_value` is `false`.
    pub value_low: u64,
    /// The value divided by 2^64, rounded down, or 0 if `has_value` is `false`.
    pub value_high: u64,
    /// The digits of an integer after the prefix, or of a float before a period and an exponent.
    pub main: Place,
    /// The digits of a float after the period.
    pub fraction: Place,
    /// The exponent of a float, with its letter and sign.
    pub exponent: Place,
    /// The suffix, which ends the text.
    pub suffix: Place,
}

/// The error of a text that is not a literal.
#[repr(C)]
#[derive(Clone, Copy)]
pub struct RefusalFields {
    /// `enum litrs_error`.
    pub kind: u32,
    /// `true` if it points at a part of the text.
    pub has_span: bool,
    /// `true` only if no text that begins with this one is a literal.
    pub is_final: bool,
    /// `true` only if a string lacks nothing but its closing quote, with the hashes of a raw one.
    pub is_open: bool,
    /// The part of the text. The start is a character boundary.
    pub span: Place,
    /// The part in whole characters: its end is the least character boundary at or after that of
    /// `span`.
    pub char_span: Place,
}

/// The answer of [`litrs_parse`].
#[repr(C)]
#[derive(Clone, Copy)]
pub struct Answer {
    /// `enum litrs_status`: one of the first four.
    pub status: u32,
    /// The literal, if the status is `LITERAL`. Otherwise [`litrs_parse`] sets all to 0.
    pub literal: LiteralFields,
    /// The error, if the status is `REFUSED`. Otherwise [`litrs_parse`] sets all to 0.
    pub refusal: RefusalFields,
}

/// The answer of [`litrs_parse_prefix`].
#[repr(C)]
#[derive(Clone, Copy)]
pub struct PrefixAnswer {
    /// About the literal at the front, or the malformed one. The status may also be `NO_PREFIX`.
    pub answer: Answer,
    /// The length in bytes of the literal, or of the malformed one. It is 0 if none begins there,
    /// and if the bytes are not UTF-8.
    pub len: usize,
}

/// The answer of a call that writes to the caller's room.
#[repr(C)]
#[derive(Clone, Copy)]
pub struct Written {
    /// `enum litrs_status`.
    pub status: u32,
    /// The number of bytes to write, even if they do not fit.
    pub len: usize,
}

/// A text with a closing zero, which lasts as long as the program.
#[repr(C)]
#[derive(Clone, Copy)]
pub struct StaticText {
    /// The text, with its closing zero.
    pub text: &'static [u8],
}

/// Parses `text` as a literal of any kind.
///
/// There is one allocation for the value of a C string, and for that of a quoted string or byte
/// string with a backslash if it is not empty. It is freed before the call returns.
#[tactic(auto, using(crate::proofs::Memory::lacks_memory))]
#[unsafe(no_mangle)]
pub extern "C" fn litrs_parse(alloc: Global, text: &[u8]) -> Answer
    ensures statuses { result.status ≤ OUT_OF_MEMORY }
    ensures utf8 { result.status ≢ NOT_UTF8 ↔ IsUtf8 text.now }
    ensures literal { result.status ≡ LITERAL → IsLiteralAnd (chars text.now)
        (λ d. IsLiteralFields (length text.now) d result.literal) }
    ensures refused { result.status ≡ REFUSED → IsRefusedAnd (chars text.now)
        (λ e. IsRefusalFields e result.refusal) }
    ensures memory { result.status ≡ OUT_OF_MEMORY → MayLackMemory (chars text.now) }
    ensures no_literal { result.status ≢ LITERAL → result.literal ≡ NO_LITERAL }
    ensures no_refusal { result.status ≢ REFUSED → result.refusal ≡ NO_REFUSAL }
{
    let Ok(text) = from_utf8(text) else {
        return only_status(NOT_UTF8);
    };
    // Each arm returns, so that the answer is written once, into the memory of the caller.
    match Literal::parse(alloc, text) {
        Ok(lit) => {
            let mut answer = only_status(LITERAL);
            write_literal_fields(&lit, &mut answer.literal);
            return answer;
        }
        Err(e) => match e.kind() {
            ParseErrorKind::OutOfMemory => return only_status(OUT_OF_MEMORY),
            _ => {
                let mut refusal = NO_REFUSAL;
                write_refusal_fields(&e, &mut refusal);
                return Answer {
                    refusal,
                    ..only_status(REFUSED)
                };
            }
        },
    }
}

/// Writes to `answer` what [`litrs_parse`] returns: the status, and the literal or the error if the
/// status names it. The rest of `answer` stays unchanged.
#[unsafe(no_mangle)]
pub extern "C" fn litrs_parse_into(alloc: Global, text: &[u8], answer: &mut Answer)
    ensures statuses { answer.new.status ≤ OUT_OF_MEMORY }
    ensures utf8 { answer.new.status ≢ NOT_UTF8 ↔ IsUtf8 text.now }
    ensures literal { answer.new.status ≡ LITERAL → IsLiteralAnd (chars text.now)
        (λ d. IsLiteralFields (length text.now) d answer.new.literal) }
    ensures refused { answer.new.status ≡ REFUSED → IsRefusedAnd (chars text.now)
        (λ e. IsRefusalFields e answer.new.refusal) }
    ensures memory { answer.new.status ≡ OUT_OF_MEMORY → MayLackMemory (chars text.now) }
    ensures no_literal { answer.new.status ≢ LITERAL → answer.new.literal ≡ answer.old.literal }
    ensures no_refusal { answer.new.status ≢ REFUSED → answer.new.refusal ≡ answer.old.refusal }
{
    match from_utf8(text) {
        Ok(text) => parse_text(alloc, text, answer),
        Err(_) => answer.status = NOT_UTF8,
    }
}

/// Like [`litrs_parse_into`], for a text that is UTF-8.
#[inline(always)]
fn parse_text(alloc: Global, text: &str, answer: &mut Answer)
    ensures statuses { answer.new.status ≤ OUT_OF_MEMORY }
    ensures utf8 { answer.new.status ≢ NOT_UTF8 }
    ensures literal { answer.new.status ≡ LITERAL → IsLiteralAnd (chars text.now)
        (λ d. IsLiteralFields (length text.now) d answer.new.literal) }
    ensures refused { answer.new.status ≡ REFUSED → IsRefusedAnd (chars text.now)
        (λ e. IsRefusalFields e answer.new.refusal) }
    ensures memory { answer.new.status ≡ OUT_OF_MEMORY → MayLackMemory (chars text.now) }
    ensures no_literal { answer.new.status ≢ LITERAL → answer.new.literal ≡ answer.old.literal }
    ensures no_refusal { answer.new.status ≢ REFUSED → answer.new.refusal ≡ answer.old.refusal }
{
    match Literal::parse(alloc, text) {
        Ok(lit) => {
            answer.status = LITERAL;
            write_literal_fields(&lit, &mut answer.literal);
        }
        Err(e) => match e.kind() {
            ParseErrorKind::OutOfMemory => answer.status = OUT_OF_MEMORY,
            _ => {
                answer.status = REFUSED;
                write_refusal_fields(&e, &mut answer.refusal);
            }
        },
    }
}

/// Returns an answer of this status, in which all else is 0.
fn only_status(status: u32) -> Answer
    ensures { result ≡ record {
      status = status;
      literal = NO_LITERAL;
      refusal = NO_REFUSAL;
    } }
{
    Answer {
        status,
        literal: NO_LITERAL,
        refusal: NO_REFUSAL,
    }
}

/// Parses the literal at the front of `text`. The status is `NO_PREFIX` if none begins there, for
/// example before a name, white space or punctuation. It is `REFUSED` if the literal that begins
/// there is malformed. Spans count from the start of `text`.
///
/// It allocates like [`litrs_parse`].
#[unsafe(no_mangle)]
pub extern "C" fn litrs_parse_prefix(alloc: Global, text: &[u8]) -> PrefixAnswer
    ensures statuses { result.answer.status ≤ NO_PREFIX }
    ensures no_string { result.answer.status ≢ NO_STRING }
    ensures utf8 { result.answer.status ≢ NOT_UTF8 ↔ IsUtf8 text.now }
    ensures literal { result.answer.status ≡ LITERAL → IsPrefixAnd text.now result.len
        (λ d. IsLiteralFields result.len d result.answer.literal) }
    ensures refused { result.answer.status ≡ REFUSED → IsMalformedAnd (chars text.now) result.len
        (λ e. IsRefusalFields e result.answer.refusal) }
    ensures none { result.answer.status ≡ NO_PREFIX → IsFalse (opens (chars text.now)) }
    ensures no_len { result.answer.status ≡ NO_PREFIX → result.len ≡ 0 }
    ensures no_text { result.answer.status ≡ NOT_UTF8 → result.len ≡ 0 }
    ensures memory { result.answer.status ≡ OUT_OF_MEMORY
        → LacksMemoryAt (chars text.now) result.len }
    ensures no_literal { result.answer.status ≢ LITERAL → result.answer.literal ≡ NO_LITERAL }
    ensures no_refusal { result.answer.status ≢ REFUSED → result.answer.refusal ≡ NO_REFUSAL }
{
    let mut answer = only_status(NOT_UTF8);
    let len = litrs_parse_prefix_into(alloc, text, &mut answer);
    PrefixAnswer { answer, len }
}

/// Writes to `answer` what [`litrs_parse_prefix`] returns, and returns the length. The literal or
/// the error is written if the status names it. The rest of `answer` stays unchanged.
#[unsafe(no_mangle)]
pub extern "C" fn litrs_parse_prefix_into(alloc: Global, text: &[u8], answer: &mut Answer) -> usize
    ensures statuses { answer.new.status ≤ NO_PREFIX }
    ensures no_string { answer.new.status ≢ NO_STRING }
    ensures utf8 { answer.new.status ≢ NOT_UTF8 ↔ IsUtf8 text.now }
    ensures literal { answer.new.status ≡ LITERAL → IsPrefixAnd text.now result
        (λ d. IsLiteralFields result d answer.new.literal) }
    ensures refused { answer.new.status ≡ REFUSED → IsMalformedAnd (chars text.now) result
        (λ e. IsRefusalFields e answer.new.refusal) }
    ensures none { answer.new.status ≡ NO_PREFIX → IsFalse (opens (chars text.now)) }
    ensures no_len { answer.new.status ≡ NO_PREFIX → result ≡ 0 }
    ensures no_text { answer.new.status ≡ NOT_UTF8 → result ≡ 0 }
    ensures memory { answer.new.status ≡ OUT_OF_MEMORY
        → LacksMemoryAt (chars text.now) result }
    ensures no_literal { answer.new.status ≢ LITERAL → answer.new.literal ≡ answer.old.literal }
    ensures no_refusal { answer.new.status ≢ REFUSED → answer.new.refusal ≡ answer.old.refusal }
{
    match from_utf8(text) {
        Ok(text) => parse_prefix_text(alloc, text, answer),
        Err(_) => {
            answer.status = NOT_UTF8;
            0
        }
    }
}

/// Returns `true` if `text`, or `text` with some text appended, is a literal of any kind. Returns
/// `false` if the bytes are not UTF-8. It does not allocate.
#[unsafe(no_mangle)]
pub extern "C" fn litrs_goes_on(text: &[u8]) -> bool
    ensures { IsTrue result ↔ (IsUtf8 text.now × Begins literal_parse (chars text.now)) }
{
    match from_utf8(text) {
        Ok(text) => litrs::goes_on(text),
        Err(_) => false,
    }
}

/// Writes the value of a string, a byte string or a C string to `room`, as many bytes as fit,
/// without the closing zero of a C string. The rest of `room` stays unchanged, and all of it if
/// there is no value. It allocates like [`litrs_parse`].
#[unsafe(no_mangle)]
pub extern "C" fn litrs_value(alloc: Global, text: &[u8], room: &mut [u8]) -> Written
    ensures statuses { result.status ≤ NO_STRING }
    ensures utf8 { result.status ≢ NOT_UTF8 ↔ IsUtf8 text.now }
    ensures value { result.status ≡ LITERAL →
        IsLiteralAnd (chars text.now) (WritesValue room.old room.new result.len) }
    ensures other { result.status ≡ NO_STRING →
        IsLiteralAnd (chars text.now) (λ d. bytes_of d ≡ None) }
    ensures refused { result.status ≡ REFUSED → HasNoDerivation (IsLiteral (chars text.now)) }
    ensures memory { result.status ≡ OUT_OF_MEMORY → MayLackMemory (chars text.now) }
    ensures kept { result.status ≢ LITERAL → IsKept room.old room.new result.len }
{
    match from_utf8(text) {
        Ok(text) => write_value(alloc, text, room),
        Err(_) => nothing(NOT_UTF8),
    }
}

/// Like [`litrs_value`], for a text that is UTF-8.
fn write_value(alloc: Global, text: &str, room: &mut [u8]) -> Written
    ensures statuses { result.status ≤ NO_STRING }
    ensures utf8 { result.status ≢ NOT_UTF8 }
    ensures value { result.status ≡ LITERAL →
        IsLiteralAnd (chars text.now) (WritesValue room.old room.new result.len) }
    ensures other { result.status ≡ NO_STRING →
        IsLiteralAnd (chars text.now) (λ d. bytes_of d ≡ None) }
    ensures refused { result.status ≡ REFUSED → HasNoDerivation (IsLiteral (chars text.now)) }
    ensures memory { result.status ≡ OUT_OF_MEMORY → MayLackMemory (chars text.now) }
    ensures kept { result.status ≢ LITERAL → IsKept room.old room.new result.len }
{
    match Literal::parse(alloc, text) {
        Ok(lit) => match value_bytes(&lit) {
            Some(bytes) => Written {
                status: LITERAL,
                len: room::write(room, bytes),
            },
            None => nothing(NO_STRING),
        },
        Err(e) => match e.kind() {
            ParseErrorKind::OutOfMemory => nothing(OUT_OF_MEMORY),
            _ => nothing(REFUSED),
        },
    }
}

/// Returns the value of a string of one of the three kinds, in bytes.
fn value_bytes<'a>(lit: &'a Literal<&str>) -> Option<&'a [u8]>
    ensures { option_map (λ bytes. bytes.now) result ≡ bytes_of (derivation lit.now) }
{
    match lit {
        Literal::String(lit) => Some(lit.value().as_bytes()),
        Literal::ByteString(lit) => Some(lit.value()),
        Literal::CString(lit) => Some(lit.value().to_bytes()),
        _ => None,
    }
}

/// Writes the message of the error of `text` to `room`, as much as fits: what is wrong, and the
/// span, if there is one, for example ` (at 3..4)`. The rest of `room` stays unchanged, and all of
/// it if there is no error. It allocates like [`litrs_parse`], and nothing for a message.
#[unsafe(no_mangle)]
pub extern "C" fn litrs_message(alloc: Global, text: &[u8], room: &mut [u8]) -> Written
    ensures statuses { result.status ≤ OUT_OF_MEMORY }
    ensures utf8 { result.status ≢ NOT_UTF8 ↔ IsUtf8 text.now }
    ensures literal { result.status ≡ LITERAL → IsLiteralAnd (chars text.now) (λ _. ⊤) }
    ensures message { result.status ≡ REFUSED →
        IsRefusedAnd (chars text.now) (WritesMessage room.old room.new result.len) }
    ensures memory { result.status ≡ OUT_OF_MEMORY → MayLackMemory (chars text.now) }
    ensures kept { result.status ≢ REFUSED → IsKept room.old room.new result.len }
{
    match from_utf8(text) {
        Ok(text) => write_message(alloc, text, room),
        Err(_) => nothing(NOT_UTF8),
    }
}

/// Like [`litrs_message`], for a text that is UTF-8.
fn write_message(alloc: Global, text: &str, room: &mut [u8]) -> Written
    ensures statuses { result.status ≤ OUT_OF_MEMORY }
    ensures utf8 { result.status ≢ NOT_UTF8 }
    ensures literal { result.status ≡ LITERAL → IsLiteralAnd (chars text.now) (λ _. ⊤) }
    ensures message { result.status ≡ REFUSED →
        IsRefusedAnd (chars text.now) (WritesMessage room.old room.new result.len) }
    ensures memory { result.status ≡ OUT_OF_MEMORY → MayLackMemory (chars text.now) }
    ensures kept { result.status ≢ REFUSED → IsKept room.old room.new result.len }
{
    match Literal::parse(alloc, text) {
        Ok(_) => nothing(LITERAL),
        Err(e) => match e.kind() {
            ParseErrorKind::OutOfMemory => nothing(OUT_OF_MEMORY),
            _ => Written {
                status: REFUSED,
                len: write_refusal(room, &e),
            },
        },
    }
}

/// Returns the answer of a call that writes nothing.
fn nothing(status: u32) -> Written
    ensures { result ≡ record { status = status; len = 0 } }
{
    Written { status, len: 0 }
}
