//! Literals and rejected texts over both buffers, by each parse that a row names.
use crate::errors::try_error;
use crate::fields::{after, decimal, hex};
use crate::outcome::{Outcome, agrees, made};
use crate::parses::{Parse, parse_by};
use crate::{calls, tokens};
use litrs::{FloatLit, IntegerLit, Literal, ParseError, Text};
use std::alloc::{AllocError, Global};

/// The type of a parse, and the type of its text.
type At = (&'static str, &'static str);

/// Tries the parses that a row names, and then other calls on its text.
pub fn try_text(alloc: Global, names: &str, text: &String, answer: &[u8]) -> Outcome {
    let is_literal = !answer.starts_with(b"refused\t");
    let mut outcome = Outcome::Holds;
    for name in names.split(',') {
        outcome = outcome.and(try_name(alloc, name, text, answer));
        if is_literal {
            outcome = outcome.and(tokens::try_tokens(alloc, name, text.as_str()));
        }
    }
    if is_literal || names.starts_with("Literal") {
        outcome = outcome.and(calls::try_calls(alloc, text.as_str(), is_literal));
    }
    outcome
}

/// Tries the parse with this name.
fn try_name(alloc: Global, name: &str, text: &String, answer: &[u8]) -> Outcome {
    match Parse::from_name(name) {
        Some((parse, kind)) => {
            let parsed = parse_by(alloc, parse, text.as_str());
            let owned = try_owned(alloc, parse, kind, text.copy(alloc), answer);
            try_borrowed(alloc, parse, kind, parsed, answer).and(owned)
        }
        None => agrees(("row", "parse", "&str"), false),
    }
}

/// Tries the answer of a parse over a borrowed text.
fn try_borrowed(
    alloc: Global,
    parse: Parse,
    kind: &'static str,
    parsed: Result<Literal<&str>, ParseError>,
    answer: &[u8],
) -> Outcome {
    let outcome = try_parsed(alloc, parse, (kind, "&str"), &parsed, answer);
    match parsed {
        Ok(lit) => outcome.and(try_into_owned(alloc, parse, kind, lit)),
        Err(_) => outcome,
    }
}

/// Tries a parse over a text that the literal owns, unless its allocation failed.
fn try_owned(
    alloc: Global,
    parse: Parse,
    kind: &'static str,
    copy: Result<String, AllocError>,
    answer: &[u8],
) -> Outcome {
    match copy {
        Ok(copy) => {
            let parsed = parse_by(alloc, parse, copy);
            let outcome = try_parsed(alloc, parse, (kind, "String"), &parsed, answer);
            drop(parsed);
            outcome
        }
        Err(_) => Outcome::Refused(("String", "copy", "String")),
    }
}

/// Tries the answer of a parse.
fn try_parsed<B: Text>(
    alloc: Global,
    parse: Parse,
    at: At,
    parsed: &Result<Literal<B>, ParseError>,
    answer: &[u8],
) -> Outcome {
    match parsed {
        Ok(lit) => try_literal(alloc, parse, at, lit, answer),
        Err(e) => try_error(alloc, (at.0, "parse", at.1), e, answer),
    }
}

/// Tries the parts of a literal, and its copy.
fn try_literal<B: Text>(
    alloc: Global,
    parse: Parse,
    at: At,
    lit: &Literal<B>,
    answer: &[u8],
) -> Outcome {
    let copy = match parse {
        Parse::Literal => made((at.0, "clone", at.1), lit.clone(alloc)),
        _ => tokens::try_copy(alloc, at, lit),
    };
    agrees((at.0, "parse", at.1), are_fields(answer, lit)).and(copy)
}

/// Returns `true` if these are the fields of a literal, by its accessors.
pub fn are_fields<B: Text>(answer: &[u8], lit: &Literal<B>) -> bool {
    let suffix = lit.suffix();
    match lit {
        Literal::Bool(lit) => after(answer, &["bool", ""]) == Some(lit.as_str().as_bytes()),
        Literal::Integer(lit) => is_integer(answer, lit),
        Literal::Float(lit) => is_float(answer, lit),
        Literal::Char(lit) => is_code(after(answer, &["char", suffix]), u32::from(lit.value())),
        Literal::Byte(lit) => is_code(after(answer, &["byte", suffix]), u32::from(lit.value())),
        Literal::String(_) => is_string(answer, "string", lit),
        Literal::ByteString(_) => is_string(answer, "bytestring", lit),
        Literal::CString(_) => is_string(answer, "cstring", lit),
    }
}

fn is_integer<B: Text>(answer: &[u8], lit: &IntegerLit<B>) -> bool {
    let base = match lit.base().value() {
        2 => "2",
        8 => "8",
        10 => "10",
        _ => "16",
    };
    let fields = after(
        answer,
        &["integer", lit.suffix(), base, lit.raw_main_part()],
    );
    match (fields, lit.value::<u128>()) {
        (Some(field), Some(value)) => decimal(field) == Some(value),
        (Some(field), None) => field == "none".as_bytes(),
        (None, _) => false,
    }
}

fn is_float<B: Text>(answer: &[u8], lit: &FloatLit<B>) -> bool {
    let fraction = lit.fractional_part().unwrap_or("-");
    let fields = [
        "float",
        lit.suffix(),
        lit.number_part(),
        lit.integer_part(),
        fraction,
    ];
    after(answer, &fields) == Some(lit.exponent_part().as_bytes())
}

/// Returns `true` if a field is a number in hex.
fn is_code(field: Option<&[u8]>, code: u32) -> bool {
    match field {
        Some(field) => hex(field) == Some(u128::from(code)),
        None => false,
    }
}

/// Returns the value of a string of one of the three kinds, and `true` if it is raw.
pub fn value_of<B: Text>(lit: &Literal<B>) -> Option<(bool, &[u8])> {
    match lit {
        Literal::String(lit) => Some((lit.is_raw_string(), lit.value().as_bytes())),
        Literal::ByteString(lit) => Some((lit.is_raw_byte_string(), lit.value())),
        Literal::CString(lit) => Some((lit.is_raw_c_string(), lit.value().to_bytes())),
        _ => None,
    }
}

/// Returns `true` if these are the fields of a string of one of the three kinds.
fn is_string<B: Text>(answer: &[u8], kind: &str, lit: &Literal<B>) -> bool {
    let Some((is_raw, value)) = value_of(lit) else {
        return false;
    };
    let form = if is_raw {
        "raw"
    } else if lit.raw_input().contains('\\') {
        "escaped"
    } else {
        "plain"
    };
    after(answer, &[kind, lit.suffix(), form]) == Some(value)
}

/// Makes the literal of a borrowed text own it.
fn try_into_owned(alloc: Global, parse: Parse, kind: &'static str, lit: Literal<&str>) -> Outcome {
    match parse {
        Parse::Literal => made((kind, "into_owned", "&str"), lit.into_owned(alloc)),
        _ => try_kind_owned(alloc, kind, lit),
    }
}

/// Like [`try_into_owned`], by the call of the literal's kind. A bool has no text.
fn try_kind_owned(alloc: Global, kind: &'static str, lit: Literal<&str>) -> Outcome {
    let (to_owned, into_owned) = ((kind, "to_owned", "&str"), (kind, "into_owned", "&str"));
    match lit {
        Literal::Bool(_) => Outcome::Holds,
        Literal::Integer(lit) => made(to_owned, lit.to_owned(alloc)),
        Literal::Float(lit) => made(to_owned, lit.to_owned(alloc)),
        Literal::Char(lit) => made(to_owned, lit.to_owned(alloc)),
        Literal::String(lit) => made(into_owned, lit.into_owned(alloc)),
        Literal::Byte(lit) => made(to_owned, lit.to_owned(alloc)),
        Literal::ByteString(lit) => made(into_owned, lit.into_owned(alloc)),
        Literal::CString(lit) => made(into_owned, lit.into_owned(alloc)),
    }
}
