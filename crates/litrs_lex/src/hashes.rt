//! Hashes of raw strings.
ghost use Rattle.std.specs.Prelude.{◌≡◌, ◌≤◌, ◌&&◌, not, length};
ghost use Rattle.std.specs.List.{list_all};
ghost use Rattle.litrs_base.specs.Text.{first_passes, begins_with};
ghost use Rattle.litrs_grammar.specs.Raw.{hashes, hash_len, is_hash, is_quote, raw_closing};

use crate::{Run, run_end};
use std::simd::prelude::*;

/// The greatest number of hashes on each side of a raw literal.
pub const MAX_HASHES: usize = 255;

/// The number of bytes that are compared in a step.
const STEP: usize = 16;

/// Returns `true` if `bytes` starts with `"` and fewer than `hashes` hashes: a quote that does not
/// close a body between `hashes` hashes.
#[inline(always)]
pub fn is_inner_quote(bytes: &[u8], hashes: usize) -> bool
    ensures { result
        ≡ (first_passes is_quote bytes.now && not (begins_with (raw_closing hashes) bytes.now)) }
{
    match bytes {
        // The last hash is looked at first, because the quotes of a body mostly lack it.
        [b'"', after @ ..] if hashes > 0 => {
            after.len() < hashes || after[hashes - 1] != b'#' || hash_len(after) < hashes
        }
        _ => false,
    }
}

/// Returns `true` if `bytes` has only hashes.
pub fn are_hashes(bytes: &[u8]) -> bool
    ensures { result ≡ list_all is_hash bytes.now }
{
    hash_len(bytes) == bytes.len()
}

/// Returns the number of hashes at the front of `bytes`.
#[inline(always)]
pub fn hash_len(bytes: &[u8]) -> usize
    ensures len { result ≡ hash_len bytes.now }
    ensures within { result ≤ length bytes.now }
{
    match bytes {
        // Few hashes are compared one by one.
        [b'#', b'#', b'#', b'#', b'#', b'#', b'#', b'#', ..] => hash_len_of_many(bytes),
        _ => bytes.iter().take_while(|b| **b == b'#').count(),
    }
}

/// Like [`hash_len`], by 16 bytes a step.
#[inline(never)]
fn hash_len_of_many(bytes: &[u8]) -> usize
    ensures len { result ≡ hash_len bytes.now }
    ensures within { result ≤ length bytes.now }
{
    let mut len = 0;
    while bytes.len() - len >= STEP {
        // Bit `i` of `others` is set if byte `i` of the step is not a hash.
        let step = u8x16::from_slice(&bytes[len..]);
        let others = step.simd_ne(Simd::splat(b'#')).to_bitmask();
        if others != 0 {
            return len + others.trailing_zeros() as usize;
        }
        len += STEP;
    }
    len + run_end(&bytes[len..], Run::Hashes)
}
