//! Literals and errors printed at a width and at a precision. Integers, floats and errors of tokens
//! ignore both.
use litrs::ParseErrorKind::Empty;
use litrs::{FloatType, IntegerType, Literal, ParseError};
use std::alloc::Global;
use std::fmt::Display;
use std::process::Abort;

/// A literal, and what is printed of it to the right, to the left and in the middle of 16 columns,
/// and at a precision of 2.
const PRINTED: &[(&str, &str)] = &[
    (
        "true",
        "            true|true            |      true      |tr|",
    ),
    ("0x1_u8", "0x1_u8|0x1_u8|0x1_u8|0x1_u8|"),
    ("9.5", "9.5|9.5|9.5|9.5|"),
    (
        "'é'u8",
        "           'é'u8|'é'u8           |     'é'u8      |'é|",
    ),
    (
        "\"é\"x",
        "            \"é\"x|\"é\"x            |      \"é\"x      |\"é|",
    ),
    (
        "b'a'é",
        "           b'a'é|b'a'é           |     b'a'é      |b'|",
    ),
    (
        "br\"a\"",
        "           br\"a\"|br\"a\"           |     br\"a\"      |br|",
    ),
    (
        "c\"é\"x",
        "           c\"é\"x|c\"é\"x           |     c\"é\"x      |c\"|",
    ),
];

/// An error of an empty text at 3..4 in the same columns: the width is that of the description.
const REFUSAL: &str = concat!(
    "  input is empty (at 3..4)|",
    "input is empty   (at 3..4)| input is empty  (at 3..4)|in (at 3..4)|",
);

/// Returns `true` if this is printed of the value in 16 columns and at the precision.
fn is_printed<D: Display>(alloc: Global, value: &D, expected: &str) -> bool {
    match format!(in alloc; "{value:>16}|{value:<16}|{value:^16}|{value:.2}|") {
        Ok(printed) => printed.as_str() == expected,
        Err(_) => false,
    }
}

/// Returns `true` if this is printed of the literal of the text.
fn is_literal_printed(alloc: Global, text: &str, expected: &str) -> bool {
    match Literal::parse(alloc, text) {
        Ok(lit) => is_printed(alloc, &lit, expected),
        Err(_) => false,
    }
}

#[test]
fn literals(rt: HostRuntime) {
    for (text, expected) in PRINTED {
        assert!(rt; is_literal_printed(rt.alloc(), text, expected), "{text}");
    }
}

#[test]
fn types_and_refusals(rt: HostRuntime) {
    let alloc = rt.alloc();
    assert!(rt;
        is_printed(
            alloc,
            &IntegerType::U128,
            "            u128|u128            |      u128      |u1|"
        )
    );
    assert!(rt;
        is_printed(
            alloc,
            &FloatType::F64,
            "             f64|f64             |      f64       |f6|"
        )
    );
    assert!(rt;
        is_printed(
            alloc,
            &Empty,
            "  input is empty|input is empty  | input is empty |in|"
        )
    );
    let refusal = ParseError::new(Some(3..4), Empty);
    assert!(rt; is_printed(alloc, &refusal, REFUSAL));
}
