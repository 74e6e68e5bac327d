//! The pieces of a body between double quotes: plain ASCII, and characters and bytes one by one.
ghost use Rattle.std.specs.Prelude.{◌≡◌, ◌≤◌, ◌++◌, not, map, take, length, OnOk, string_bytes};
ghost use Rattle.std.specs.List.{prefix_len};
ghost use Rattle.std.specs.Simd.Lanes.{mask_l, chunk};
ghost use Rattle.litrs_base.specs.Text.{first_passes};
ghost use Rattle.litrs_build.specs.Pieces.{is_plain, is_plain_ascii, is_escape, last_byte, piece_text};

use crate::spelling::Spelling;
use crate::style::Case;
use std::alloc::AllocError;
use std::simd::prelude::*;

/// The number of bytes that are compared in a step.
const STEP: usize = 16;

/// The characters of a body that are plain, except `"` and `\`.
#[derive(Clone, Copy)]
pub(crate) enum Charset {
    /// Those from the space to `~`.
    Ascii,
    /// Those from the space on.
    Any,
}

/// A piece of the text of a body.
#[derive(Clone, Copy)]
pub(crate) enum Piece<'a> {
    /// Plain ASCII, which is written as it is.
    Plain(&'a str),
    /// A character or a byte.
    Spelled(Spelling),
}

impl<'a> Piece<'a> {
    #[inline(always)]
    pub(crate) fn is_escape(self) -> bool
        ensures { result ≡ is_escape self.entry }
    {
        match self {
            Piece::Plain(_) => false,
            Piece::Spelled(spelling) => spelling.is_escaped(),
        }
    }

    /// Returns its length in bytes.
    #[inline(always)]
    pub(crate) fn len(self) -> usize {
        match self {
            Piece::Plain(text) => text.len(),
            Piece::Spelled(spelling) => spelling.len(),
        }
    }

    /// Appends it to `text`.
    ///
    /// # Errors
    ///
    /// Returns `AllocError` if `text` has no room for it and an allocation fails.
    #[inline(always)]
    pub(crate) fn push_to(self, text: &mut String) -> Result<(), AllocError>
        ensures { OnOk result (string_bytes text.new
            ≡ string_bytes text.old ++ piece_text self.entry) }
    {
        match self {
            Piece::Plain(plain) => text.push_str(plain),
            Piece::Spelled(spelling) => spelling.push_to(text, Case::Lower),
        }
    }
}

/// Returns the plain ASCII that `bytes` start with.
#[inline(always)]
pub(crate) fn plain_front(bytes: &[u8]) -> &str
    ensures { result.now ≡ take (prefix_len is_plain_ascii bytes.now) bytes.now }
{
    unsafe { str::from_utf8_unchecked(&bytes[..plain_len(bytes, Charset::Ascii)]) }
}

/// Returns the length in bytes of the plain characters of `charset` that `bytes` start with. If the
/// first byte is not plain, nothing more is read.
#[inline(always)]
pub(crate) fn plain_len(bytes: &[u8], charset: Charset) -> usize
    ensures len { result ≡ prefix_len (is_plain charset) bytes.now }
    ensures within { result ≤ length bytes.now }
{
    if begins_plain(bytes, charset) {
        plain_len_by_lanes(bytes, charset)
    } else {
        0
    }
}

/// Returns `true` if the first byte is plain.
#[inline(always)]
fn begins_plain(bytes: &[u8], charset: Charset) -> bool
    ensures { result ≡ first_passes (is_plain charset) bytes.now }
{
    match bytes {
        [first, ..] => is_plain(*first, charset),
        [] => false,
    }
}

/// Like [`plain_len`], by 16 bytes a step. It is inlined, so that `charset` is known in each copy.
#[inline(always)]
fn plain_len_by_lanes(bytes: &[u8], charset: Charset) -> usize
    ensures len { result ≡ prefix_len (is_plain charset) bytes.now }
    ensures within { result ≤ length bytes.now }
{
    let mut len = 0;
    while bytes.len() - len >= STEP {
        let others = other_marks(&bytes[len..], charset);
        if others != 0 {
            return len + others.trailing_zeros() as usize;
        }
        len += STEP;
    }
    len + short_plain_len(&bytes[len..], charset)
}

/// Like [`plain_len`], byte by byte.
#[inline(always)]
fn short_plain_len(bytes: &[u8], charset: Charset) -> usize
    ensures len { result ≡ prefix_len (is_plain charset) bytes.now }
    ensures within { result ≤ length bytes.now }
{
    bytes.iter().take_while(|b| is_plain(**b, charset)).count()
}

#[inline(always)]
fn is_plain(byte: u8, charset: Charset) -> bool
    ensures { result ≡ is_plain charset byte }
{
    byte >= b' ' && byte <= last_plain(charset) && byte != b'"' && byte != b'\\'
}

/// Returns the last plain byte.
#[inline(always)]
fn last_plain(charset: Charset) -> u8
    ensures { result ≡ last_byte charset }
{
    match charset {
        Charset::Ascii => b'~',
        Charset::Any => 255,
    }
}

/// Returns a mask of the first 16 bytes: bit `i` is set if the byte at `i` is not plain.
#[inline(always)]
fn other_marks(bytes: &[u8], charset: Charset) -> u64
    requires { 16 ≤ length bytes.now }
    ensures { result ≡ mask_l (map (λ b. not (is_plain charset b)) (chunk 0 16 bytes.now)) }
{
    let lanes = u8x16::from_slice(bytes);
    (lanes.simd_lt(Simd::splat(b' '))
        | lanes.simd_gt(Simd::splat(last_plain(charset)))
        | lanes.simd_eq(Simd::splat(b'"'))
        | lanes.simd_eq(Simd::splat(b'\\'))).to_bitmask()
}
