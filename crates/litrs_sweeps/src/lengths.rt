//! Literals of each length are printed while there is memory.
use litrs::Literal;
use std::alloc::{AllocError, Global};
use std::process::Abort;

/// The texts before and after a part of letters that are digits too.
const PRINTED: &[(&str, &str)] = &[
    ("0x", "_u8"),
    ("1.5f", ""),
    ("'a'x", ""),
    ("b'a'x", ""),
    ("\"", "\"x"),
    ("r#\"", "\"#"),
    ("b\"", "\\n\""),
    ("c\"", "\""),
];

/// Returns `true` if all of the literal of a text is printed.
fn is_literal_printed(alloc: Global, text: &str) -> bool {
    match Literal::parse(alloc, text) {
        Ok(lit) => match lit.to_string(alloc) {
            Ok(printed) => printed.as_str() == text,
            Err(_) => false,
        },
        Err(_) => false,
    }
}

/// Like [`is_literal_printed`], for a text whose allocation may have failed.
fn is_text_printed(alloc: Global, text: &Result<String, AllocError>) -> bool {
    match text {
        Ok(text) => is_literal_printed(alloc, text.as_str()),
        Err(_) => false,
    }
}

/// Returns `true` if a literal of each form with `part` is printed.
fn are_printed(alloc: Global, part: &str) -> bool {
    for (front, end) in PRINTED {
        if !is_text_printed(alloc, &format!(in alloc; "{front}{part}{end}")) {
            return false;
        }
    }
    true
}

#[test]
fn literals_of_each_length_are_printed(rt: HostRuntime) {
    let alloc = rt.alloc();
    let mut part = String::new(alloc);
    for count in 1..5_000 {
        assert!(rt;
            part.push('a').is_ok() && are_printed(alloc, part.as_str()),
            "{count} parts"
        );
    }
}
