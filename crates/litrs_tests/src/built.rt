//! Literals that are built while there is memory, each in one allocation.
use litrs::{IntegerBase, IntegerLit, Literal};
use litrs_build::{
    byte, byte_string, c_string, float, grouped_integer, raw_byte_string, raw_c_string, raw_string,
    regroup,
};
use std::alloc::Global;
use std::process::Abort;

/// Returns `true` if a literal was built, and the capacity of its text is its length.
fn is_exact<L: Into<Literal<String>>, E: Drop>(built: Result<L, E>) -> bool {
    match built {
        Ok(lit) => is_text_exact(lit.into()),
        Err(_) => false,
    }
}

/// Returns `true` if the capacity of the text of a literal is its length.
fn is_text_exact(lit: Literal<String>) -> bool {
    let text = match lit {
        Literal::Bool(_) => return false,
        Literal::Integer(lit) => lit.into_raw_input(),
        Literal::Float(lit) => lit.into_raw_input(),
        Literal::Char(lit) => lit.into_raw_input(),
        Literal::String(lit) => lit.into_raw_input(),
        Literal::Byte(lit) => lit.into_raw_input(),
        Literal::ByteString(lit) => lit.into_raw_input(),
        Literal::CString(lit) => lit.into_raw_input(),
    };
    text.capacity() == text.len()
}

#[test]
fn integers_of_values(rt: HostRuntime) {
    let bases = [
        (u128::MAX, IntegerBase::Decimal),
        (u128::MAX, IntegerBase::Binary),
        (0, IntegerBase::Octal),
    ];
    for (value, base) in bases {
        assert!(rt;
            is_exact(grouped_integer(rt.alloc(), value, base, 3, "u8")),
            "{value}"
        );
    }
}

/// Returns `true` if an integer is built in groups of `group` digits.
fn is_regrouped(alloc: Global, text: &str, group: usize) -> bool {
    match IntegerLit::parse(text) {
        Ok(lit) => is_exact(regroup(alloc, &lit, group)),
        Err(_) => false,
    }
}

#[test]
fn integers_in_other_groups(rt: HostRuntime) {
    for (text, group) in [("0xFF_FF_u32", 3), ("0_b1", 3), ("1_0_00", 0)] {
        assert!(rt; is_regrouped(rt.alloc(), text, group), "{text}");
    }
}

/// Fractional parts, exponents and suffixes, which follow the integer part of a float.
const FLOATS: &[(Option<&str>, &str, &str)] = &[
    (Some("3_33__"), "E3", ""),
    (Some(""), "", ""),
    (None, "e-1", "f32"),
];

#[test]
fn floats_of_parts(rt: HostRuntime) {
    for (fraction, exponent, suffix) in FLOATS {
        let built = float(rt.alloc(), "147", *fraction, exponent, suffix);
        assert!(rt; is_exact(built), "{exponent}{suffix}");
    }
}

#[test]
fn every_byte(rt: HostRuntime) {
    for b in 0..=255u8 {
        assert!(rt; is_exact(byte(rt.alloc(), b, "u8")), "{b}");
    }
}

/// Returns `true` if bytes have a byte string, and if they are not NUL a C string.
fn has_strings(alloc: Global, value: &[u8]) -> bool {
    is_exact(byte_string(alloc, value, "_x"))
        && (value.contains(&0) || is_exact(c_string(alloc, value, "_x")))
}

#[test]
fn every_pair_of_bytes(rt: HostRuntime) {
    for number in 0..=0xffffu16 {
        assert!(rt; has_strings(rt.alloc(), &number.to_be_bytes()), "{number}");
    }
}

/// A text whose starts need 0 to 256 hashes. No raw string has 256.
const ASCII: &str = concat!(
    "a\"",
    "################################################################",
    "################################################################",
    "################################################################",
    "###############################################################",
);

/// Like `ASCII`, but not ASCII.
const NON_ASCII: &str = concat!(
    "é\"",
    "################################################################",
    "################################################################",
    "################################################################",
    "###############################################################",
);

/// Returns `true` if a text has a raw string of each kind, but for a byte string if it is not
/// ASCII.
fn has_raws(alloc: Global, text: &str) -> bool {
    let bytes = text.as_bytes();
    is_exact(raw_string(alloc, text, "_x"))
        && is_exact(raw_c_string(alloc, bytes, "_x"))
        && (!text.is_ascii() || is_exact(raw_byte_string(alloc, bytes, "_x")))
}

/// Returns the number of the starts of a text that have raw strings.
fn raws(alloc: Global, text: &str) -> usize {
    let mut count: usize = 0;
    for end in 1..=text.len() {
        if let Some(start) = text.get(..end)
            && has_raws(alloc, start)
        {
            count = count.saturating_add(1);
        }
    }
    count
}

#[test]
fn every_number_of_hashes(rt: HostRuntime) {
    assert!(rt; raws(rt.alloc(), ASCII) == 256);
    assert!(rt; raws(rt.alloc(), NON_ASCII) == 256);
}
