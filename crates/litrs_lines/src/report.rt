//! The reports on literals and errors.
ghost use Rattle.std.specs.Prelude.{◌≡◌, ◌≤◌, length, ◌∷◌, [], ◌++◌, OnOk, string_bytes};
ghost use Rattle.litrs.specs.LiteralDerivation.{derivation};
ghost use Rattle.litrs_grammar.specs.Integer.{integer_value};
ghost use Rattle.litrs.specs.CharLiteral.{char_parts, byte_parts};
ghost use Rattle.litrs.specs.FloatLiteral.{float_parts};
ghost use Rattle.litrs.specs.IntegerLiteral.{integer_parts};
ghost use Rattle.litrs_grammar.specs.Literal.{an_integer, a_float, a_char, a_byte};
ghost use Rattle.litrs_lines.specs.Report.{value_text, integer_front, fraction_field, float_report, char_report, raw_field, hex_bytes, string_front, literal_report, refusal_report};
ghost use Rattle.litrs_lines.specs.ReportParts.{literal_front, hex_value};
ghost use Rattle.litrs_lines.specs.Sent.{Leaves, AreBytes};
ghost use Rattle.litrs_base.specs.Characters.{line_feed};
ghost use Rattle.litrs_base.specs.Refusal.{refusal_of};

use crate::RunError;
use crate::device::Output;
use crate::group::Reporter;
use litrs::{Buffer, ByteLit, CharLit, FloatLit, IntegerLit, Literal, ParseError};
use std::alloc::AllocError;
use std::str;

/// The greatest length in bytes of a value whose report is not written in pieces.
const PIECE_LEN: usize = 4096;

/// The greatest number of bytes of a value that are converted to hex at a time.
const HEX_LEN: usize = 32;

/// Adds the report on `error` and an LF.
pub(crate) fn report_refusal(out: &mut String, error: &ParseError) -> Result<(), AllocError>
    ensures { OnOk result (string_bytes out.new
        ≡ string_bytes out.old ++ (refusal_report (refusal_of error.now) ++ line_feed ∷ [])) }
{
    push_refusal_report(out, error)?;
    out.push('\n')
}

/// Adds the report on `error`.
fn push_refusal_report(out: &mut String, error: &ParseError) -> Result<(), AllocError>
    ensures { OnOk result (
        string_bytes out.new ≡ string_bytes out.old ++ refusal_report (refusal_of error.now)) }
{
    write!(out, "error {error}")
}

/// Adds the report on a literal and an LF. If the value is long, it is written in pieces.
pub(crate) fn report_literal<B: Buffer, O: Output>(
    reporter: &mut Reporter<O>,
    lit: &Literal<B>,
) -> Result<(), RunError>
    ensures { Leaves O.contents O.has_failed O.write_failed result reporter.old reporter.new
        (AreBytes reporter.old.collector.now
        (literal_report (derivation lit.now) ++ line_feed ∷ [])) }
{
    push_front(reporter.unwritten, lit)?;
    send_hex(reporter, hex_value(lit))?;
    reporter.unwritten.push('\n')?;
    Ok(())
}

/// Adds the report on a literal, without the bytes in hex at the end of the report on a string.
fn push_front<B: Buffer>(out: &mut String, lit: &Literal<B>) -> Result<(), AllocError>
    ensures { OnOk result (
        string_bytes out.new ≡ string_bytes out.old ++ literal_front (derivation lit.now)) }
{
    match lit {
        Literal::Bool(lit) => write!(out, "bool {lit}"),
        Literal::Integer(lit) => push_integer_report(out, lit),
        Literal::Float(lit) => push_float_report(out, lit),
        Literal::Char(lit) => push_char_report(out, lit),
        Literal::String(lit) => {
            push_string_front(out, "string", raw_field(lit.is_raw_string()), lit.suffix())
        }
        Literal::Byte(lit) => push_byte_report(out, lit),
        Literal::ByteString(lit) => {
            push_string_front(
                out,
                "bytestring",
                raw_field(lit.is_raw_byte_string()),
                lit.suffix(),
            )
        }
        Literal::CString(lit) => {
            push_string_front(
                out,
                "cstring",
                raw_field(lit.is_raw_c_string()),
                lit.suffix(),
            )
        }
    }
}

/// Returns the bytes that are reported in hex: those of the value of a string.
fn hex_value<B: Buffer>(lit: &Literal<B>) -> &[u8]
    ensures { result.now ≡ hex_value (derivation lit.now) }
{
    match lit {
        Literal::String(lit) => lit.value().as_bytes(),
        Literal::ByteString(lit) => lit.value(),
        Literal::CString(lit) => lit.value().to_bytes(),
        _ => &[],
    }
}

fn push_integer_report<B: Buffer>(out: &mut String, lit: &IntegerLit<B>) -> Result<(), AllocError>
    ensures { OnOk result (
        string_bytes out.new
        ≡ string_bytes out.old ++ literal_report (an_integer (integer_parts lit.now))) }
{
    push_integer_front(out, lit.base().value(), lit.raw_main_part(), lit.suffix())?;
    push_integer_value(out, lit)
}

/// Adds the report on an integer up to its value.
fn push_integer_front(
    out: &mut String,
    base: u8,
    digits: &str,
    suffix: &str,
) -> Result<(), AllocError>
    ensures { OnOk result (
        string_bytes out.new ≡ string_bytes out.old ++ integer_front base digits.now suffix.now) }
{
    push_field(out, "integer base=", itoa::Buffer::new().format(base))?;
    push_field(out, " digits=", digits)?;
    push_field(out, " suffix=", suffix)?;
    out.push_str(" value=")
}

/// Adds the name of a field and its value.
fn push_field(out: &mut String, name: &str, value: &str) -> Result<(), AllocError>
    ensures { OnOk result (string_bytes out.new ≡ string_bytes out.old ++ (name.now ++ value.now)) }
{
    out.push_str(name)?;
    out.push_str(value)
}

/// Adds the value of an integer in decimal, or `none`.
fn push_integer_value<B: Buffer>(out: &mut String, lit: &IntegerLit<B>) -> Result<(), AllocError>
    ensures { OnOk result (
        string_bytes out.new
        ≡ string_bytes out.old ++ value_text (integer_value (integer_parts lit.now))) }
{
    match lit.value::<u128>() {
        Some(value) => out.push_str(itoa::Buffer::new().format(value)),
        None => out.push_str("none"),
    }
}

fn push_float_report<B: Buffer>(out: &mut String, lit: &FloatLit<B>) -> Result<(), AllocError>
    ensures { OnOk result (
        string_bytes out.new
        ≡ string_bytes out.old ++ literal_report (a_float (float_parts lit.now))) }
{
    push_float_parts(
        out,
        lit.integer_part(),
        fraction_field(lit),
        lit.exponent_part(),
        lit.suffix(),
    )
}

/// Returns the fractional part, or `-` if there is no period.
fn fraction_field<B: Buffer>(lit: &FloatLit<B>) -> &str
    ensures { result.now ≡ fraction_field (float_parts lit.now).fraction }
{
    match lit.fractional_part() {
        Some(digits) => digits,
        None => "-",
    }
}

/// Adds the report on a float with these parts.
fn push_float_parts(
    out: &mut String,
    integer: &str,
    fraction: &str,
    exponent: &str,
    suffix: &str,
) -> Result<(), AllocError>
    ensures { OnOk result (
        string_bytes out.new
        ≡ string_bytes out.old ++ float_report integer.now fraction.now exponent.now suffix.now) }
{
    write!(
        out,
        "float int={integer} frac={fraction} exp={exponent} suffix={suffix}"
    )
}

fn push_char_report<B: Buffer>(out: &mut String, lit: &CharLit<B>) -> Result<(), AllocError>
    ensures { OnOk result (
        string_bytes out.new
        ≡ string_bytes out.old ++ literal_report (a_char (char_parts lit.now))) }
{
    push_char_parts(out, "char", u32::from(lit.value()), lit.suffix())
}

fn push_byte_report<B: Buffer>(out: &mut String, lit: &ByteLit<B>) -> Result<(), AllocError>
    ensures { OnOk result (
        string_bytes out.new
        ≡ string_bytes out.old ++ literal_report (a_byte (byte_parts lit.now))) }
{
    push_char_parts(out, "byte", u32::from(lit.value()), lit.suffix())
}

/// Adds the report on a char or a byte with this value and suffix.
fn push_char_parts(out: &mut String, name: &str, value: u32, suffix: &str) -> Result<(), AllocError>
    ensures { OnOk result (
        string_bytes out.new ≡ string_bytes out.old ++ char_report name.now value suffix.now) }
{
    write!(out, "{name} value={value:x} suffix={suffix}")
}

/// Adds the report on a string of one of the three kinds up to its value.
fn push_string_front(
    out: &mut String,
    name: &str,
    raw: &str,
    suffix: &str,
) -> Result<(), AllocError>
    ensures { OnOk result (
        string_bytes out.new ≡ string_bytes out.old ++ string_front name.now raw.now suffix.now) }
{
    write!(out, "{name} raw={raw} suffix={suffix} value=")
}

/// Returns the field that says if a string is raw.
fn raw_field(is_raw: bool) -> &'static str
    ensures { result.now ≡ raw_field is_raw }
{
    if is_raw { "yes" } else { "no" }
}

/// Adds `bytes` in hex. If there are many, they are written in pieces.
fn send_hex<O: Output>(reporter: &mut Reporter<O>, bytes: &[u8]) -> Result<(), RunError>
    ensures { Leaves O.contents O.has_failed O.write_failed result reporter.old reporter.new
        (AreBytes reporter.old.collector.now (hex_bytes bytes.now)) }
{
    let mut rest = bytes;
    while rest.len() > PIECE_LEN {
        push_hex(reporter.unwritten, &rest[..PIECE_LEN])?;
        reporter.write_unwritten()?;
        rest = &rest[PIECE_LEN..];
    }
    push_hex(reporter.unwritten, rest)?;
    Ok(())
}

/// Adds bytes in hex, in lower case, with two digits each.
fn push_hex(out: &mut String, bytes: &[u8]) -> Result<(), AllocError>
    ensures { OnOk result (string_bytes out.new ≡ string_bytes out.old ++ hex_bytes bytes.now) }
{
    for piece in bytes.chunks(HEX_LEN) {
        push_hex_piece(out, piece)?;
    }
    Ok(())
}

/// Adds at most `HEX_LEN` bytes in hex.
fn push_hex_piece(out: &mut String, bytes: &[u8]) -> Result<(), AllocError>
    requires { length bytes.now ≤ 32 }
    ensures { OnOk result (string_bytes out.new ≡ string_bytes out.old ++ hex_bytes bytes.now) }
{
    let mut room = [0; 2 * HEX_LEN];
    let digits = &mut room[..2 * bytes.len()];
    match hex::encode_to_slice(bytes, digits) {
        Ok(()) => out.push_str(unsafe { str::from_utf8_unchecked(digits) }),
        Err(_) => unreachable!(),
    }
}
