//! Runs of ASCII characters at the front of a text, found in its bytes.
ghost use Rattle.std.specs.Prelude.{◌≡◌, ◌≤◌, not, length, map, IfSome};
ghost use Rattle.std.specs.Simd.Lanes.{mask_l, chunk};
ghost use Rattle.std.specs.List.{prefix_len};
ghost use Rattle.std.specs.Str.{IsUtf8};
ghost use Rattle.litrs_base.specs.Text.{first_passes};
ghost use Rattle.litrs_lexer.specs.Cut.{is_of_class, is_wide, IsFirstChar};

use std::simd::prelude::*;

/// A class of ASCII characters.
#[derive(Clone, Copy, Debug, PartialEq, Eq)]
pub enum Class {
    /// Letters, decimal digits and `_`, which can continue a name.
    Word,
    /// White space.
    Space,
}

/// The number of bytes that one step compares.
const STEP: usize = 16;

/// Returns the number of bytes at the front that are of the class.
#[inline(always)]
pub fn class_len(bytes: &[u8], class: Class) -> usize
    ensures { result ≡ prefix_len (is_of_class class) bytes.now }
{
    let mut len = 0;
    while bytes.len() - len >= STEP {
        let others = other_marks(&bytes[len..], class);
        if others != 0 {
            return len + others.trailing_zeros() as usize;
        }
        len += STEP;
    }
    len + short_len(&bytes[len..], class)
}

/// Like [`class_len`], but reads byte by byte.
#[inline(never)]
fn short_len(bytes: &[u8], class: Class) -> usize
    ensures len { result ≡ prefix_len (is_of_class class) bytes.now }
    ensures within { result ≤ length bytes.now }
{
    bytes.iter().take_while(|b| is_of_class(**b, class)).count()
}

/// Returns `true` if the byte is of the class.
#[inline(always)]
pub fn is_of_class(b: u8, class: Class) -> bool
    ensures { result ≡ is_of_class class b }
{
    match class {
        Class::Word => b.is_ascii_alphanumeric() || b == b'_',
        Class::Space => b == b' ' || (b'\t' <= b && b <= b'\r'),
    }
}

/// Returns which of the first 16 bytes are not of the class: bit i is that of the byte at i.
#[inline(always)]
fn other_marks(bytes: &[u8], class: Class) -> u64
    requires { 16 ≤ length bytes.now }
    ensures { result ≡ mask_l (map (λ b. not (is_of_class class b)) (chunk 0 16 bytes.now)) }
{
    match class {
        Class::Word => other_words(bytes),
        Class::Space => other_spaces(bytes),
    }
}

/// Returns which of the first 16 bytes cannot continue a name.
#[inline(always)]
fn other_words(bytes: &[u8]) -> u64
    requires { 16 ≤ length bytes.now }
    ensures { result ≡ mask_l (map (λ b. not (is_of_class Class.Word b)) (chunk 0 16 bytes.now)) }
{
    let lanes = u8x16::from_slice(bytes);
    ((lanes.simd_lt(Simd::splat(b'0')) | lanes.simd_gt(Simd::splat(b'9')))
        & (lanes.simd_lt(Simd::splat(b'A')) | lanes.simd_gt(Simd::splat(b'Z')))
        & (lanes.simd_lt(Simd::splat(b'a')) | lanes.simd_gt(Simd::splat(b'z')))
        & lanes.simd_ne(Simd::splat(b'_'))).to_bitmask()
}

/// Returns which of the first 16 bytes are not white space.
#[inline(always)]
fn other_spaces(bytes: &[u8]) -> u64
    requires { 16 ≤ length bytes.now }
    ensures { result ≡ mask_l (map (λ b. not (is_of_class Class.Space b)) (chunk 0 16 bytes.now)) }
{
    let lanes = u8x16::from_slice(bytes);
    ((lanes.simd_lt(Simd::splat(b'\t')) | lanes.simd_gt(Simd::splat(b'\r')))
        & lanes.simd_ne(Simd::splat(b' '))).to_bitmask()
}

/// Returns the first character of `text` and the part after it, or `None` if `text` does not start
/// with an ASCII character.
#[inline(always)]
pub fn split_ascii(text: &str) -> Option<(char, &str)>
    ensures some { IfSome result (λ parts. IsFirstChar text.now parts.0 parts.1.now) }
    ensures utf8 { IfSome result (λ parts. IsUtf8 parts.1.now) }
{
    match text.as_bytes() {
        [first, ..] if *first < 128 => Some((char::from(*first), text.split_at(1).1)),
        _ => None,
    }
}

/// Returns `true` if `text` starts with a character that is not ASCII.
#[inline(always)]
pub fn starts_beyond_ascii(text: &str) -> bool
    ensures { result ≡ first_passes is_wide text.now }
{
    match text.as_bytes() {
        [first, ..] => *first >= 128,
        _ => false,
    }
}
