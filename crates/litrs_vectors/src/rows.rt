//! The rows of a table.
use crate::outcome::{Call, Outcome, agrees};
use crate::{diagnostics, fronts, lines, literals, named, rewritings, until, values};
use std::alloc::{AllocError, Global};

/// A row that does not name a call, or is not written by the rules.
const ROW: Call = ("row", "read", "&str");

/// Tries the row of a line.
pub fn try_row(alloc: Global, line: &str) -> Outcome {
    let mut fields = line.splitn(3, '\t');
    let names = fields.next().unwrap_or("");
    let text = unescaped(alloc, fields.next().unwrap_or(""));
    let answer = unescaped(alloc, fields.next().unwrap_or(""));
    match (text, answer) {
        (Ok(text), Ok(answer)) => match String::from_utf8(text) {
            Ok(text) => try_fields(alloc, names, &text, answer.as_slice()),
            Err(_) => Outcome::Differs(ROW),
        },
        (Err(error), _) | (_, Err(error)) => Outcome::Ends(error),
    }
}

/// Tries the calls that a row names on its text, given its further fields, and the calls on each
/// text that need no memory.
fn try_fields(alloc: Global, names: &str, text: &String, answer: &[u8]) -> Outcome {
    let outcome = match names {
        "into_value" => named::try_taken(alloc, text, answer),
        "Literal::string" => named::try_string(alloc, text.as_str(), answer),
        "read" => values::try_read(alloc, text.as_str(), answer),
        "read_prefix" => values::try_read_prefix(alloc, text.as_str(), answer),
        _ if names.contains("Lit") => literals::try_text(alloc, names, text, answer),
        _ => try_words(alloc, names, text, str::from_utf8(answer).unwrap_or("")),
    };
    outcome.and(lines::try_unallocated(alloc, text.as_str()))
}

/// Like [`try_fields`], for the calls whose further fields are text.
fn try_words(alloc: Global, name: &str, text: &String, answer: &str) -> Outcome {
    match name {
        "rewritten" => rewritings::try_rewritten(alloc, text, answer),
        _ => try_call(alloc, name, text.as_str(), answer),
    }
}

/// Like [`try_words`], for a text that is borrowed.
fn try_call(alloc: Global, name: &str, text: &str, answer: &str) -> Outcome {
    match name {
        "parse_prefix" => fronts::try_front(alloc, text, answer),
        "prefix_may_change" => fronts::try_may_change(text, answer),
        "parse_until" => until::try_until(alloc, text, answer),
        "feed" => lines::try_feeds(alloc, text, answer),
        "feed_prefix" => lines::try_prefix(alloc, text, answer),
        "goes_on" => named::try_goes_on(text, answer),
        "value" => named::try_value(text, answer),
        "Ident::new" => named::try_ident(alloc, text, answer),
        "cut_quoted" => named::try_cut(alloc, text, answer),
        "float" => values::try_float(alloc, text, answer),
        "Lines" => diagnostics::try_places(alloc, text, answer),
        "Diagnostic" => diagnostics::try_message(alloc, text, answer),
        "Diagnostic::with_first" => diagnostics::try_first(alloc, text, answer),
        _ => agrees(ROW, false),
    }
}

/// Returns the bytes of a field.
fn unescaped(alloc: Global, field: &str) -> Result<Vec<u8>, AllocError> {
    let mut bytes = Vec::new(alloc);
    let mut pieces = field.split("%(");
    push_text(&mut bytes, pieces.next().unwrap_or(""))?;
    for piece in pieces {
        push_repeated(&mut bytes, piece)?;
    }
    Ok(bytes)
}

/// Adds a text in which `%` and two hex digits are a byte.
fn push_text(bytes: &mut Vec<u8>, text: &str) -> Result<(), AllocError> {
    let mut pieces = text.split('%');
    bytes.extend_from_slice(pieces.next().unwrap_or("").as_bytes())?;
    for piece in pieces {
        push_escaped(bytes, piece)?;
    }
    Ok(())
}

/// Adds the byte of two hex digits, and the text after them. Without the digits it is 255, which
/// is in no text.
fn push_escaped(bytes: &mut Vec<u8>, piece: &str) -> Result<(), AllocError> {
    let (digits, plain) = piece.split_at_checked(2).unwrap_or(("", ""));
    bytes.push(u8::from_str_radix(digits, 16).unwrap_or(255))?;
    bytes.extend_from_slice(plain.as_bytes())
}

/// Adds the part of `N*PART)` N times, and the text after it.
fn push_repeated(bytes: &mut Vec<u8>, piece: &str) -> Result<(), AllocError> {
    let (repeated, text) = piece.split_once(')').unwrap_or(("", "%"));
    let (count, part) = repeated.split_once('*').unwrap_or(("1", "%"));
    for _ in 0..count.parse::<u32>().unwrap_or(0) {
        push_text(bytes, part)?;
    }
    push_text(bytes, text)
}
