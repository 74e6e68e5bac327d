//! Chars and strings of every character, each built in one allocation.
use litrs_build::{char, string};
use std::alloc::{AllocError, Global};
use std::process::Abort;

/// The number of characters.
const CHARACTERS: u32 = 0x11_0000 - 0x800;

/// Returns `true` if the capacity of a text is its length.
fn is_exact(text: String) -> bool {
    text.capacity() == text.len()
}

/// Returns the number of characters that have a char.
fn chars(alloc: Global) -> u32 {
    let mut count: u32 = 0;
    for code in 0..0x11_0000u32 {
        if let Some(c) = char::from_u32(code)
            && has_char(alloc, c)
        {
            count = count.saturating_add(1);
        }
    }
    count
}

/// Returns `true` if a character has a char.
fn has_char(alloc: Global, c: char) -> bool {
    match char(alloc, c, "u8") {
        Ok(lit) => is_exact(lit.into_raw_input()),
        Err(_) => false,
    }
}

/// Returns the number of characters that have a string. Each is placed after the quote, after a
/// letter and after itself.
fn strings(alloc: Global) -> Result<u32, AllocError> {
    let mut count: u32 = 0;
    for code in 0..0x11_0000u32 {
        if let Some(c) = char::from_u32(code) {
            let text = format!(in alloc; "{c}a{c}{c}")?;
            if has_string(alloc, text.as_str()) {
                count = count.saturating_add(1);
            }
        }
    }
    Ok(count)
}

/// Returns `true` if a text has a string.
fn has_string(alloc: Global, text: &str) -> bool {
    match string(alloc, text, "_x") {
        Ok(lit) => is_exact(lit.into_raw_input()),
        Err(_) => false,
    }
}

#[test]
fn every_character(rt: HostRuntime) {
    assert!(rt; chars(rt.alloc()) == CHARACTERS);
    assert!(rt; strings(rt.alloc()) == Ok(CHARACTERS));
}
