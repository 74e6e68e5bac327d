//! Literals and errors as JSON, one object a line.
use crate::place::{Place, Span};
use crate::report::Problem;
use litrs::{Buffer, FloatLit, IntegerLit, Literal};
use litrs_explanation::{float_number, float_type, integer_text, kind_name, names_that_fit};
use serde_json::Value;
use std::alloc::{AllocError, Global};
use std::fmt::Write;

/// Appends the object of a literal.
pub(crate) fn push_literal_object<B: Buffer>(
    alloc: Global,
    out: &mut String,
    file: &str,
    span: &Span,
    literal: &Literal<B>,
) -> Result<(), AllocError> {
    push_head(alloc, out, file, span, kind_name(literal))?;
    out.push_str("\"text\":")?;
    push_quoted(alloc, out, literal.raw_input())?;
    let suffix = literal.suffix();
    write!(out, ",\"suffix\":\"{suffix}\",\"parts\":{{")?;
    push_parts(alloc, out, literal)?;
    out.push_str("}}\n")
}

/// Appends the object of an error.
pub(crate) fn push_problem_object(
    alloc: Global,
    out: &mut String,
    file: &str,
    problem: &Problem,
) -> Result<(), AllocError> {
    push_head(alloc, out, file, &problem.span(), "error")?;
    match problem.kind {
        Some(kind) => write!(out, "\"error\":\"{kind:?}\"")?,
        None => out.push_str("\"error\":\"NotUtf8\"")?,
    }
    out.push_str(",\"message\":")?;
    push_quoted(alloc, out, problem.message())?;
    let incomplete = problem.is_incomplete;
    write!(out, ",\"incomplete\":{incomplete}}}\n")
}

/// Appends the fields that each object begins with, after its brace.
fn push_head(
    alloc: Global,
    out: &mut String,
    file: &str,
    span: &Span,
    kind: &str,
) -> Result<(), AllocError> {
    out.push_str("{\"file\":")?;
    push_quoted(alloc, out, file)?;
    let Place { line, column } = span.start;
    let end_line = span.end.line;
    let end_column = span.end.column;
    let start = span.bytes.start;
    let end = span.bytes.end;
    write!(
        out,
        ",\"line\":{line},\"column\":{column},\"end_line\":{end_line},\
        \"end_column\":{end_column},\"start\":{start},\"end\":{end},\"kind\":\"{kind}\","
    )
}

/// Appends the fields on the value of a literal, and on its other parts.
fn push_parts<B: Buffer>(
    alloc: Global,
    out: &mut String,
    literal: &Literal<B>,
) -> Result<(), AllocError> {
    match literal {
        Literal::Bool(lit) => push_value(out, lit.as_str()),
        Literal::Integer(lit) => push_integer_parts(alloc, out, lit),
        Literal::Float(lit) => push_float_parts(alloc, out, lit),
        Literal::Char(lit) => {
            let mut buffer = [0; 4];
            push_text_value(alloc, out, lit.value().encode_utf8(&mut buffer))
        }
        Literal::Byte(lit) => {
            let number = lit.value();
            write!(out, "\"value\":{number}")
        }
        Literal::String(lit) => push_text_value(alloc, out, lit.value()),
        Literal::ByteString(lit) => push_bytes(alloc, out, lit.value()),
        Literal::CString(lit) => push_bytes(alloc, out, lit.value().to_bytes()),
    }
}

/// Appends the fields on the value of an integer, its base and digits, and the types that it fits.
fn push_integer_parts<B: Buffer>(
    alloc: Global,
    out: &mut String,
    lit: &IntegerLit<B>,
) -> Result<(), AllocError> {
    let value = integer_text(alloc, lit)?;
    let base = lit.base().value();
    let digits = lit.raw_main_part();
    write!(
        out,
        "\"value\":\"{value}\",\"base\":{base},\"digits\":\"{digits}\",\"fits\":["
    )?;
    if lit.value::<u128>().is_some() {
        push_fits(alloc, out, lit)?;
    }
    out.push_str("]")
}

/// Appends the names of the types that the integer fits, in quotes and separated by commas.
fn push_fits<B: Buffer>(
    alloc: Global,
    out: &mut String,
    lit: &IntegerLit<B>,
) -> Result<(), AllocError> {
    let names = names_that_fit(alloc, lit)?;
    for (number, name) in names.as_str().split_whitespace().enumerate() {
        let comma = if number == 0 { "" } else { "," };
        write!(out, "{comma}\"{name}\"")?;
    }
    Ok(())
}

/// Appends the fields on the value of a float, which is `null` if it is infinite, and on its
/// parts.
fn push_float_parts<B: Buffer>(
    alloc: Global,
    out: &mut String,
    lit: &FloatLit<B>,
) -> Result<(), AllocError> {
    match &float_number(alloc, lit, float_type(lit))? {
        Some(number) => push_value(out, number.as_str())?,
        None => push_value(out, "null")?,
    }
    let integer = lit.integer_part();
    write!(out, ",\"integer\":\"{integer}\",\"fraction\":")?;
    match lit.fractional_part() {
        Some(fraction) => write!(out, "\"{fraction}\"")?,
        None => out.push_str("null")?,
    }
    let exponent = lit.exponent_part();
    write!(out, ",\"exponent\":\"{exponent}\"")
}

/// Appends the field on a value.
fn push_value(out: &mut String, value: &str) -> Result<(), AllocError> {
    write!(out, "\"value\":{value}")
}

/// Appends the field on a value that is a text.
fn push_text_value(alloc: Global, out: &mut String, value: &str) -> Result<(), AllocError> {
    out.push_str("\"value\":")?;
    push_quoted(alloc, out, value)
}

/// Appends the field on bytes, in hexadecimal digits.
fn push_bytes(alloc: Global, out: &mut String, bytes: &[u8]) -> Result<(), AllocError> {
    let hex = hex::encode(alloc, bytes)?;
    write!(out, "\"hex\":\"{hex}\"")
}

/// Appends a text as a JSON string.
fn push_quoted(alloc: Global, out: &mut String, text: &str) -> Result<(), AllocError> {
    let value = Value::try_from_str(alloc, text)?;
    write!(out, "{value}")
}
