//! The literals that are built from the value of another one.
use crate::literals::value_of;
use crate::outcome::{Call, Outcome, agrees, made};
use litrs::{FloatLit, IntegerLit, Literal};
use litrs_build::{
    BuildError, byte, byte_string, c_string, char, float, grouped_integer, integer,
    raw_byte_string, raw_c_string, raw_string, regroup, string,
};
use std::alloc::Global;

/// Returns the call of `litrs_build` with this name.
pub fn call(name: &'static str) -> Call {
    ("litrs_build", name, "&str")
}

/// Builds a literal of the value and suffix of `lit`, unless `lit` is a bool.
pub fn try_build(alloc: Global, lit: &Literal<&str>) -> Outcome {
    let suffix = lit.suffix();
    match lit {
        Literal::Bool(_) => Outcome::Holds,
        Literal::Integer(lit) => try_integer(alloc, lit),
        Literal::Float(lit) => try_float(alloc, lit),
        Literal::Char(lit) => built("char", char(alloc, lit.value(), suffix)),
        Literal::Byte(lit) => built("byte", byte(alloc, lit.value(), suffix)),
        _ => try_string(alloc, lit).and(try_raw(alloc, lit)),
    }
}

/// Returns the outcome of a call that builds a literal.
fn built<L: Drop>(name: &'static str, answer: Result<L, BuildError>) -> Outcome {
    match &answer {
        Ok(_) => Outcome::Holds,
        Err(BuildError::Memory) => Outcome::Refused(call(name)),
        Err(_) => agrees(call(name), false),
    }
}

/// Builds the integer of the value, the base and the suffix, in groups and not in groups.
fn try_integer(alloc: Global, lit: &IntegerLit<&str>) -> Outcome {
    let (base, suffix) = (lit.base(), lit.suffix());
    match lit.value::<u128>() {
        Some(value) => built(
            "grouped_integer",
            grouped_integer(alloc, value, base, 3, suffix),
        )
        .and(built("integer", integer(alloc, value, base, suffix))),
        None => made(call("grouped_integer"), regroup(alloc, lit, 3)),
    }
}

/// Builds the float of the parts and the suffix.
fn try_float(alloc: Global, lit: &FloatLit<&str>) -> Outcome {
    let (whole, fraction) = (lit.integer_part(), lit.fractional_part());
    let (exponent, suffix) = (lit.exponent_part(), lit.suffix());
    built("float", float(alloc, whole, fraction, exponent, suffix))
}

/// Builds the string of one of the three kinds of the value and the suffix.
fn try_string(alloc: Global, lit: &Literal<&str>) -> Outcome {
    let suffix = lit.suffix();
    match lit {
        Literal::String(lit) => built("string", string(alloc, lit.value(), suffix)),
        Literal::ByteString(lit) => built("byte_string", byte_string(alloc, lit.value(), suffix)),
        Literal::CString(lit) => built("c_string", c_string(alloc, lit.value().to_bytes(), suffix)),
        _ => Outcome::Holds,
    }
}

/// Builds the raw string of the value and the suffix of a raw string.
fn try_raw(alloc: Global, lit: &Literal<&str>) -> Outcome {
    let Some((true, value)) = value_of(lit) else {
        return Outcome::Holds;
    };
    let suffix = lit.suffix();
    match lit {
        Literal::String(lit) => built("raw_string", raw_string(alloc, lit.value(), suffix)),
        Literal::ByteString(_) => built("raw_byte_string", raw_byte_string(alloc, value, suffix)),
        _ => built("raw_c_string", raw_c_string(alloc, value, suffix)),
    }
}
