//! Rows on the values of literals.
use crate::errors::try_error;
use crate::field_value::{Contents, Form, Hex, Plain};
use crate::fields::{after, size, split};
use crate::named::is_text;
use crate::outcome::{Call, Outcome, agrees, written};
use fast_float::FastFloat;
use litrs::{CString, Literal, ParseError};
use litrs_value::{FromLiteral, ValueError, float, integer_float, read, read_prefix, read_str};
use std::alloc::{AllocError, Global};
use std::ops::Range;

/// Returns the call of `litrs_value` with this name.
fn call(name: &'static str) -> Call {
    ("litrs_value", name, "&str")
}

/// Tries the value of a text.
pub fn try_read(alloc: Global, text: &str, answer: &[u8]) -> Outcome {
    match after(answer, &["&str"]) {
        Some(field) => try_str(alloc, text, field),
        None => try_type(alloc, false, text, answer),
    }
}

/// Tries the value at the front of a text.
pub fn try_read_prefix(alloc: Global, text: &str, answer: &[u8]) -> Outcome {
    try_type(alloc, true, text, answer)
}

/// Tries the value as the type that the first field names.
fn try_type(alloc: Global, is_prefix: bool, text: &str, answer: &[u8]) -> Outcome {
    let len = answer.iter().take_while(|byte| **byte != b'\t').count();
    let (name, fields) = answer.split_at(len.min(answer.len()));
    let fields = fields.strip_prefix(b"\t").unwrap_or(b"");
    match str::from_utf8(name).unwrap_or("") {
        "bool" => try_as::<bool, Plain>(alloc, is_prefix, text, fields),
        "char" => try_as::<char, Hex>(alloc, is_prefix, text, fields),
        "f32" => try_as::<f32, Hex>(alloc, is_prefix, text, fields),
        "f64" => try_as::<f64, Hex>(alloc, is_prefix, text, fields),
        "String" => try_as::<String, Contents>(alloc, is_prefix, text, fields),
        "Vec<u8>" => try_as::<Vec<u8>, Contents>(alloc, is_prefix, text, fields),
        "CString" => try_as::<CString, Contents>(alloc, is_prefix, text, fields),
        name => try_integer(alloc, is_prefix, name, text, fields),
    }
}

/// Like [`try_type`], for the type of integers with this name.
fn try_integer(alloc: Global, is_prefix: bool, name: &str, text: &str, fields: &[u8]) -> Outcome {
    match name {
        "u8" => try_as::<u8, Plain>(alloc, is_prefix, text, fields),
        "u16" => try_as::<u16, Plain>(alloc, is_prefix, text, fields),
        "u32" => try_as::<u32, Plain>(alloc, is_prefix, text, fields),
        "u64" => try_as::<u64, Plain>(alloc, is_prefix, text, fields),
        "u128" => try_as::<u128, Plain>(alloc, is_prefix, text, fields),
        "usize" => try_as::<usize, Plain>(alloc, is_prefix, text, fields),
        "i8" => try_as::<i8, Plain>(alloc, is_prefix, text, fields),
        "i16" => try_as::<i16, Plain>(alloc, is_prefix, text, fields),
        "i32" => try_as::<i32, Plain>(alloc, is_prefix, text, fields),
        "i64" => try_as::<i64, Plain>(alloc, is_prefix, text, fields),
        "i128" => try_as::<i128, Plain>(alloc, is_prefix, text, fields),
        "isize" => try_as::<isize, Plain>(alloc, is_prefix, text, fields),
        _ => agrees(call("read"), false),
    }
}

/// Tries the value of a text, or at its front.
fn try_as<T: FromLiteral + Drop, F: Form<T>>(
    alloc: Global,
    is_prefix: bool,
    text: &str,
    fields: &[u8],
) -> Outcome {
    if is_prefix {
        try_front::<T, F>(alloc, text, fields)
    } else {
        try_whole::<T, F>(alloc, text, fields)
    }
}

/// Tries the value of a text.
fn try_whole<T: FromLiteral + Drop, F: Form<T>>(
    alloc: Global,
    text: &str,
    fields: &[u8],
) -> Outcome {
    match &read::<T>(alloc, text) {
        Ok(value) => agrees(call("read"), F::is_said(value, fields)),
        Err(error) => try_value_error(alloc, call("read"), error, error.marked_span(text), fields),
    }
}

/// Tries the value at the front of a text.
fn try_front<T: FromLiteral + Drop, F: Form<T>>(
    alloc: Global,
    text: &str,
    fields: &[u8],
) -> Outcome {
    let call = call("read_prefix");
    let (len, field) = split(str::from_utf8(fields).unwrap_or(""));
    let len = size(Some(len));
    match &read_prefix::<T>(alloc, text) {
        Ok(Some((value, rest))) => {
            let is_front = text.len().saturating_sub(rest.len()) == len;
            agrees(call, is_front && F::is_said(value, field.as_bytes()))
        }
        Ok(None) => agrees(call, fields == "none".as_bytes()),
        Err(error) => {
            let span = error.marked_span(text);
            try_value_error(alloc, call, &error.error, span, field.as_bytes()).and(agrees(
                call,
                error.len == len,
            ))
        }
    }
}

/// Tries the value of a string.
fn try_str(alloc: Global, text: &str, field: &[u8]) -> Outcome {
    let call = call("read_str");
    match &read_str(alloc, text) {
        Ok(value) => agrees(call, is_text(value, field)),
        Err(error) => try_value_error(alloc, call, error, error.marked_span(text), field),
    }
}

/// Tries that an error is the one that the fields say, or any error if they do not say which.
fn try_value_error(
    alloc: Global,
    call: Call,
    error: &ValueError,
    span: Range<usize>,
    fields: &[u8],
) -> Outcome {
    match error {
        ValueError::Memory => Outcome::Refused(call),
        _ if fields == "refused".as_bytes() => Outcome::Holds,
        _ => written(
            call,
            format!(in alloc; "refused\t{error}\t{span:?}"),
            fields,
        ),
    }
}

/// Tries the value of a number as a float.
pub fn try_float(alloc: Global, text: &str, answer: &str) -> Outcome {
    match answer.split_once('\t') {
        Some(("f32", bits)) => try_float_as::<f32>(alloc, text, bits.as_bytes()),
        Some(("f64", bits)) => try_float_as::<f64>(alloc, text, bits.as_bytes()),
        _ => agrees(call("float"), false),
    }
}

/// Tries the value of a number as a float of this type.
fn try_float_as<F: FastFloat + Drop>(alloc: Global, text: &str, bits: &[u8]) -> Outcome
where
    Hex: Form<F>,
{
    let parsed = Literal::parse(alloc, text);
    let outcome = try_number::<F>(alloc, &parsed, bits);
    drop(parsed);
    outcome
}

/// Like [`try_float_as`], for a text that was parsed.
fn try_number<F: FastFloat + Drop>(
    alloc: Global,
    parsed: &Result<Literal<&str>, ParseError>,
    bits: &[u8],
) -> Outcome
where
    Hex: Form<F>,
{
    match parsed {
        Ok(Literal::Float(lit)) => is_float("float", float::<F, &str>(alloc, lit), bits),
        Ok(Literal::Integer(lit)) => {
            is_float("integer_float", integer_float::<F, &str>(alloc, lit), bits)
        }
        Ok(_) => agrees(call("float"), false),
        Err(error) => try_error(alloc, ("Literal", "parse", "&str"), error, bits),
    }
}

/// Tries that a float has these bits.
fn is_float<F: Drop>(name: &'static str, value: Result<F, AllocError>, bits: &[u8]) -> Outcome
where
    Hex: Form<F>,
{
    match &value {
        Ok(value) => agrees(call(name), Hex::is_said(value, bits)),
        Err(_) => Outcome::Refused(call(name)),
    }
}
