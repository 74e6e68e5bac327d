//! The search for special bytes of a body.
ghost use Rattle.std.specs.Prelude.{◌≡◌, ◌==◌, ◌+◌, ◌≤◌, ◌<◌, ◌⊎◌, List, ℕ, length, drop, map, if◌then◌else◌};
ghost use Rattle.std.specs.Simd.Lanes.{mask_l, chunk};
ghost use Rattle.std.specs.List.{prefix_len};
ghost use Rattle.std.specs.Int.{w64, trailing_zeros};
ghost use Rattle.litrs_lex.specs.Special.{is_special, is_ordinary};
ghost use Rattle.litrs_lex.specs.Mask.{IsMaskOf, IsFoundFrom};

use std::simd::prelude::*;

/// The bytes that are special beside `"` and CR, which always are.
#[derive(Clone, Copy, Debug, PartialEq, Eq)]
pub struct Special {
    /// Set if the backslash is special.
    pub backslash: bool,
    /// Set if the byte zero is special.
    pub nul: bool,
    /// Set if the bytes above 7F are special, which encode characters that are not ASCII.
    pub non_ascii: bool,
}

/// The number of bytes of a long text that one load reads.
const LOAD: usize = 32;

/// The special bytes of a part of a text, as a search has found them. Places are in bytes.
#[derive(Clone, Copy, Debug, PartialEq, Eq)]
pub struct Mask {
    /// The start of the part.
    pub start: usize,
    /// The end of the part, which has at most 32 bytes.
    pub end: usize,
    /// A mask: bit `i` is set if the byte at `start + i` is special.
    pub bits: u64,
}

impl Mask {
    /// Creates a mask of an empty part at `place`.
    #[inline(always)]
    pub fn empty_at(place: usize) -> Mask
        ensures start { result.start ≡ place }
        ensures mask { (what : Special) (bytes : List ℕ) → place ≤ length bytes →
            IsMaskOf what bytes result }
    {
        let (start, end, bits) = (place, place, 0);
        Mask { start, end, bits }
    }
}

/// Returns the least place at or after `from` of a special byte: `"`, CR, or another of `what`.
/// Returns the length of `bytes` if there is none.
///
/// `from` is at most the length of `bytes`.
///
/// ```
/// use litrs_lex::{Special, next_special};
///
/// let what = Special { backslash: true, nul: false, non_ascii: false };
/// assert_eq!(rt; next_special(b"ab\\n\"", 0, what), 2);
/// assert_eq!(rt; next_special(b"ab\\n\"", 3, what), 4);
/// assert_eq!(rt; next_special(b"ab", 1, what), 2);
/// ```
///
/// The Rust Reference, Tokens, String literals: the characters that end a run of plain ones.
#[inline(always)]
pub fn next_special(bytes: &[u8], from: usize, what: Special) -> usize
    requires { from ≤ length bytes.now }
    ensures place { result ≡ from + prefix_len (is_ordinary what) (drop from bytes.now) }
    ensures within { result ≤ length bytes.now }
{
    next_special_masked(bytes, from, what, Mask::empty_at(from)).0
}

/// Like [`next_special`], but starts with the mask of an earlier search, and returns the new mask.
/// If `mask` has a special byte at or after `from`, nothing is read, so special bytes that are
/// close to each other cost one load.
///
/// `from` is at most the length of `bytes`, and at least the start of `mask`.
#[inline(always)]
pub fn next_special_masked(bytes: &[u8], from: usize, what: Special, mask: Mask) -> (usize, Mask)
    requires from { from ≤ length bytes.now }
    requires after { mask.start ≤ from }
    requires mask { IsMaskOf what bytes.now mask }
    ensures place { result.0 ≡ from + prefix_len (is_ordinary what) (drop from bytes.now) }
    ensures after { result.1.start ≤ result.0 }
    ensures mask { IsMaskOf what bytes.now result.1 }
{
    let mut unread = from;
    if from < mask.end {
        let found = mask.bits >> (from - mask.start);
        // Special bytes of a raw body that are in a row, or have one byte between them, are found
        // by a branch, which does not wait for the shift.
        if !what.backslash && found % 2 == 1 {
            return (from, mask);
        }
        if !what.backslash && found % 4 == 2 {
            return (from + 1, mask);
        }
        if found != 0 {
            return (from + found.trailing_zeros() as usize, mask);
        }
        unread = mask.end;
    }
    // New masks: one of the whole text if it is short, otherwise one of each 32 bytes. For at most
    // three bytes there is no mask.
    match bytes.len() {
        0..=3 => (unread + ordinary_len(&bytes[unread..], what), mask),
        4..=7 => mask_all(bytes, unread, 4, what),
        8..=31 => mask_all(bytes, unread, 8 + bytes.len() / 16 * 8, what),
        _ => mask_by_lanes(bytes, unread, what),
    }
}

/// Like [`next_special`], with a mask, for `width` to `2 * width` bytes, by the masks of the first
/// `width` bytes and of the last.
#[inline(always)]
fn mask_all(bytes: &[u8], start: usize, width: usize, what: Special) -> (usize, Mask)
    requires within { start ≤ length bytes.now }
    requires size { (width ≤ length bytes.now) × (length bytes.now ≤ width + width) }
    requires width { (width ≡ 4) ⊎ ((width ≡ 8) ⊎ (width ≡ 16)) }
    ensures { IsFoundFrom start what bytes.now result.0 result.1 }
{
    let end = bytes.len();
    let first = wide_mask(bytes, 0, width, what);
    let last = wide_mask(bytes, end - width, width, what);
    let bits = (first | last << (end - width)) >> start;
    let mask = Mask { start, end, bits };
    (lowest_bit_place(bits, start, end), mask)
}

/// Returns the mask of the `width` bytes from `at` on, for a width of 4, 8 or 16. For 8 and 16 it
/// takes two loads of 8 bytes, without a branch, which would be hard to predict.
#[inline(always)]
fn wide_mask(bytes: &[u8], at: usize, width: usize, what: Special) -> u64
    requires within { at + width ≤ length bytes.now }
    requires width { (width ≡ 4) ⊎ ((width ≡ 8) ⊎ (width ≡ 16)) }
    ensures { result ≡ mask_l (map (is_special what) (chunk at width bytes.now)) }
{
    if width == 4 {
        return mask_of(Simd::<u8, 4>::from_slice(&bytes[at..]), what);
    }
    let first = Simd::<u8, 8>::from_slice(&bytes[at..]);
    let last = Simd::<u8, 8>::from_slice(&bytes[at + width - 8..]);
    let lanes = first.shuffle::<16>(last, [0, 1, 2, 3, 4, 5, 6, 7, 8, 9, 10, 11, 12, 13, 14, 15]);
    // If `width` is 8, both loads are the same, and the upper half of the mask is cut off.
    mask_of(lanes, what) & 0xFFFF >> (16 - width)
}

/// Like [`next_special`], with a mask, for at least 32 bytes, by 32 bytes a step. The last load is
/// that of the last 32 bytes, and the bits of bytes that were read before are shifted out.
#[inline(always)]
fn mask_by_lanes(bytes: &[u8], from: usize, what: Special) -> (usize, Mask)
    requires { (from ≤ length bytes.now) × (32 ≤ length bytes.now) }
    ensures { IsFoundFrom from what bytes.now result.0 result.1 }
{
    let end = bytes.len();
    let mut start = from;
    while end - start >= LOAD {
        let bits = mask_of(Simd::<u8, LOAD>::from_slice(&bytes[start..]), what);
        if bits != 0 {
            let end = start + LOAD;
            let mask = Mask { start, end, bits };
            return (start + bits.trailing_zeros() as usize, mask);
        }
        start += LOAD;
    }
    let last = mask_of(Simd::<u8, LOAD>::from_slice(&bytes[end - LOAD..]), what);
    let bits = last >> (LOAD - (end - start));
    let mask = Mask { start, end, bits };
    (lowest_bit_place(bits, start, end), mask)
}

#[inline(always)]
fn is_special(byte: u8, what: Special) -> bool
    ensures { result ≡ is_special what byte }
{
    byte == b'"'
        || byte == b'\r'
        || what.backslash && byte == b'\\'
        || what.nul && byte == 0
        || what.non_ascii && !byte.is_ascii()
}

/// Returns the number of bytes before the first special one, byte by byte.
#[inline(always)]
fn ordinary_len(bytes: &[u8], what: Special) -> usize
    ensures len { result ≡ prefix_len (is_ordinary what) bytes.now }
    ensures within { result ≤ length bytes.now }
{
    bytes.iter().take_while(|b| !is_special(**b, what)).count()
}

/// Returns the place of the lowest bit that is set, or `end` if there is none. Bit 0 belongs to the
/// place `from`.
#[inline(always)]
fn lowest_bit_place(bits: u64, from: usize, end: usize) -> usize
    requires { 0 < bits → from + trailing_zeros w64 bits ≤ end }
    ensures { result ≡ if bits == 0 then end else (from + trailing_zeros w64 bits) }
{
    if bits == 0 {
        end
    } else {
        from + bits.trailing_zeros() as usize
    }
}

/// Returns a mask: bit `i` is set if byte `i` of `lanes` is special.
///
/// A byte that is not searched for is replaced by CR, and the limit by 255, which no byte exceeds.
#[inline(always)]
fn mask_of<const N: usize>(lanes: Simd<u8, N>, what: Special) -> u64
    requires { N ≤ 64 }
    ensures { result ≡ mask_l (map (is_special what) lanes.entry) }
{
    let second = if what.backslash { b'\\' } else { b'\r' };
    let third = if what.nul { 0 } else { b'\r' };
    let limit = if what.non_ascii { 127 } else { 255 };
    (lanes.simd_eq(Simd::splat(b'"'))
        | lanes.simd_eq(Simd::splat(b'\r'))
        | lanes.simd_eq(Simd::splat(second))
        | lanes.simd_eq(Simd::splat(third))
        | lanes.simd_gt(Simd::splat(limit))).to_bitmask()
}
