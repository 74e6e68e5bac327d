//! The arguments of the program, which need not be UTF-8.
use litrs_build::is_printable;
use std::alloc::{AllocError, Global};
use std::env::{Env, FillError};

/// The size in bytes of the first buffer for an argument.
const ARGUMENT_LEN: usize = 256;

/// The character before the number of a byte that is not UTF-8. No argument contains it.
const ESCAPE: char = '\0';

/// Returns the arguments as text, the name of the program first.
///
/// Each byte of an argument that is not UTF-8 is replaced by [`ESCAPE`], `x` and its number in two
/// hexadecimal digits.
///
/// # Errors
///
/// Returns `AllocError` if an allocation failed.
pub(crate) fn arguments(rt: &HostRuntime) -> Result<Vec<String>, AllocError> {
    let mut arguments = Vec::new(rt.alloc());
    for _ in 0..u64::MAX {
        match argument(rt, arguments.len())? {
            Some(bytes) => arguments.push(text_of(rt.alloc(), &bytes)?)?,
            None => break,
        }
    }
    Ok(arguments)
}

/// Returns the bytes of the argument at `index`, or `None` if there is no such argument.
fn argument(rt: &HostRuntime, index: usize) -> Result<Option<Vec<u8>>, AllocError> {
    let mut bytes = Vec::new(rt.alloc());
    let mut len = ARGUMENT_LEN;
    for _ in 0..usize::BITS {
        // bounded by twice the length of the argument, or `ARGUMENT_LEN`
        bytes.resize(len, 0)?;
        match rt.arg(index, &mut bytes) {
            Ok(len) => {
                bytes.truncate(len);
                return Ok(Some(bytes));
            }
            Err(FillError::TooLong) => len = len.saturating_add(len),
            Err(FillError::NotPresent) => return Ok(None),
        }
    }
    Ok(None)
}

/// Returns `bytes` as text, with each byte that is not UTF-8 escaped.
fn text_of(alloc: Global, bytes: &[u8]) -> Result<String, AllocError> {
    let mut text = String::new(alloc);
    for chunk in bytes.utf8_chunks() {
        text.push_str(chunk.valid())?;
        for byte in chunk.invalid() {
            write!(text, "{ESCAPE}x{byte:02x}")?;
        }
    }
    Ok(text)
}

pub(crate) fn is_utf8(argument: &str) -> bool {
    !argument.contains(ESCAPE)
}

/// Returns an argument as a message names it: bytes that are not UTF-8 as `\xff`, and characters
/// that are not printable escaped.
pub(crate) fn shown(alloc: Global, argument: &str) -> Result<String, AllocError> {
    let mut shown = String::new(alloc);
    for c in argument.chars() {
        if c == ESCAPE {
            shown.push('\\')?;
        } else if is_printable(c) {
            shown.push(c)?;
        } else {
            for part in c.escape_default() {
                shown.push(part)?;
            }
        }
    }
    Ok(shown)
}
