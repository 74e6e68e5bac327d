//! Literals of escapes, which are written anew in no longer a text.
use litrs::{Buffer, Literal};
use litrs_build::unescaped;
use std::alloc::{AllocError, Global};
use std::process::Abort;

/// The number of characters.
const CHARACTERS: u32 = 0x11_0000 - 0x800;

/// Returns the number of characters whose escape in a char is written anew in at most its length.
/// The escape of a surrogate, which is not a character, is rejected.
fn chars(alloc: Global) -> u32 {
    let mut count: u32 = 0;
    for code in 0..0x11_0000u32 {
        if is_no_longer(alloc, &format!(in alloc; "'\\u{{{code:x}}}'u8")) {
            count = count.saturating_add(1);
        }
    }
    count
}

/// Like [`chars`], for strings of such an escape, a letter and the escape again.
fn strings(alloc: Global) -> u32 {
    let mut count: u32 = 0;
    for code in 0..0x11_0000u32 {
        if is_no_longer(
            alloc,
            &format!(in alloc; "\"\\u{{{code:x}}}a\\u{{{code:06X}}}\"_x"),
        ) {
            count = count.saturating_add(1);
        }
    }
    count
}

/// Returns the number of bytes whose escape in a byte is written anew in at most its length.
fn bytes(alloc: Global) -> u32 {
    let mut count: u32 = 0;
    for b in 0..=255u8 {
        if is_no_longer(alloc, &format!(in alloc; "b'\\x{b:02X}'u8")) {
            count = count.saturating_add(1);
        }
    }
    count
}

/// Returns the number of pairs of bytes whose escapes in a C string are written anew in at most
/// their length.
fn c_strings(alloc: Global) -> u32 {
    let mut count: u32 = 0;
    for number in 0..=0xffffu16 {
        let [a, b] = number.to_be_bytes();
        if is_no_longer(alloc, &format!(in alloc; "c\"\\x{a:02x}\\x{b:02X}\"_x")) {
            count = count.saturating_add(1);
        }
    }
    count
}

/// Returns `true` if there is a text, a literal that, written anew, is no longer.
fn is_no_longer(alloc: Global, text: &Result<String, AllocError>) -> bool {
    match text {
        Ok(text) => is_literal_no_longer(alloc, text.as_str()),
        Err(_) => false,
    }
}

/// Returns `true` if a text is a literal that, written anew, is no longer.
fn is_literal_no_longer(alloc: Global, text: &str) -> bool {
    match Literal::parse(alloc, text) {
        Ok(lit) => is_no_longer_anew(alloc, &lit),
        Err(_) => false,
    }
}

/// Returns `true` if a literal that is written anew is no longer.
fn is_no_longer_anew(alloc: Global, lit: &Literal<&str>) -> bool {
    match unescaped(alloc, lit) {
        Ok(again) => length(&again) <= length(lit),
        Err(_) => false,
    }
}

fn length<B: Buffer>(lit: &Literal<B>) -> usize {
    lit.raw_input().len()
}

#[test]
fn every_escape(rt: HostRuntime) {
    let alloc = rt.alloc();
    let counts = [chars(alloc), strings(alloc), bytes(alloc), c_strings(alloc)];
    assert!(rt;
        counts == [CHARACTERS, CHARACTERS, 256, 255 * 255],
        "{counts:?}"
    );
}
