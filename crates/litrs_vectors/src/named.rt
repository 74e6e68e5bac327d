//! Rows that name one call.
use crate::errors::try_error;
use crate::fields::after;
use crate::outcome::{Outcome, agrees, made, written};
use crate::tokens::Token;
use litrs::{IntegerLit, Literal, Text, goes_on};
use litrs_lex::{Front, QuotedCut, StringKind, Switches, cut_quoted};
use litrs_token::{Ident, IdentError, Span};
use std::alloc::Global;
use std::borrow::{CowSlice, CowStr};

/// Tries which prefixes of a text begin a literal: all, not the text, or those below a length.
pub fn try_goes_on(text: &str, answer: &str) -> Outcome {
    let mut holds = goes_on(text) == (answer == "yes");
    match answer.parse::<usize>() {
        Ok(end) => {
            holds = holds && end <= text.len();
            for (place, _) in text.char_indices() {
                holds = holds && goes_on(&text[..place]) == (place < end);
            }
        }
        Err(_) => holds = holds && matches!(answer, "yes" | "no"),
    }
    agrees(("litrs", "goes_on", "&str"), holds)
}

/// Tries the value of an integer as a `u8` and as an `i8`.
pub fn try_value(text: &str, answer: &str) -> Outcome {
    let holds = match (IntegerLit::parse(text), answer.split_once('\t')) {
        (Ok(lit), Some((unsigned, signed))) => {
            is_number(unsigned, lit.value::<u8>().map(i16::from))
                && is_number(signed, lit.value::<i8>().map(i16::from))
        }
        _ => false,
    };
    agrees(("IntegerLit", "value", "&str"), holds)
}

/// Returns `true` if `field` is the number, or `none` if there is no number.
fn is_number(field: &str, number: Option<i16>) -> bool {
    match number {
        Some(number) => field.parse::<i16>().ok() == Some(number),
        None => field == "none",
    }
}

/// Tries if a text is an identifier.
pub fn try_ident(alloc: Global, text: &str, answer: &str) -> Outcome {
    let call = ("Ident", "new", "&str");
    match &Ident::new(alloc, text, Span::call_site()) {
        Ok(ident) => agrees(call, answer == "yes" && ident.text() == text).and(made(
            ("Ident", "copied", "&str"),
            Ident::copied(alloc, ident.text(), ident.span()),
        )),
        Err(IdentError::NotAnIdent) => agrees(call, answer == "no"),
        Err(IdentError::Memory) => Outcome::Refused(call),
    }
}

/// Tries the text of the token that a value is written as.
pub fn try_string(alloc: Global, text: &str, answer: &[u8]) -> Outcome {
    let (kind, buffer) = ("litrs_token::Literal", "&str");
    match &Token::string(alloc, text) {
        Ok(token) => agrees((kind, "string", buffer), token.text().as_bytes() == answer).and(made(
            (kind, "copied", buffer),
            Token::copied(alloc, token.text(), token.kind()),
        )),
        Err(_) => Outcome::Refused((kind, "string", buffer)),
    }
}

/// Tries the cut of a quoted string of any kind.
pub fn try_cut(alloc: Global, text: &str, answer: &str) -> Outcome {
    let call = ("litrs_lex", "cut_quoted", "&str");
    match cut_of(text) {
        Some(cut) => {
            let body = if cut.has_escape { "escaped" } else { "plain" };
            let (len, start) = (cut.value_len, cut.start_suffix);
            let fields = format!(in alloc; "{len}\t{body}\t{start}");
            written(call, fields, answer.as_bytes())
        }
        None => agrees(call, false),
    }
}

/// Cuts a text that begins like a quoted string.
fn cut_of(text: &str) -> Option<QuotedCut> {
    match Front::of(text) {
        Front::Quoted(kind) => cut_of_kind(text, kind),
        _ => None,
    }
}

/// Cuts a quoted string of this kind.
fn cut_of_kind(text: &str, kind: StringKind) -> Option<QuotedCut> {
    let Switches {
        unicode,
        byte_escapes,
        allow_nul,
    } = kind.switches();
    let start = kind.front_len();
    if !text.is_char_boundary(start) {
        return None;
    }
    cut_quoted(text, start, unicode, byte_escapes, allow_nul).ok()
}

/// Tries the value that is taken out of a string of any kind, over both buffers.
pub fn try_taken(alloc: Global, text: &String, answer: &[u8]) -> Outcome {
    let owned = match text.copy(alloc) {
        Ok(copy) => match Literal::parse(alloc, copy) {
            Ok(lit) => agrees(
                ("Literal", "into_value", "String"),
                is_taken_owned(lit, answer),
            ),
            Err(e) => try_error(alloc, ("Literal", "parse", "String"), &e, answer),
        },
        Err(_) => Outcome::Refused(("String", "copy", "String")),
    };
    match Literal::parse(alloc, text.as_str()) {
        Ok(lit) => agrees(("Literal", "into_value", "&str"), is_taken(lit, answer)),
        Err(e) => try_error(alloc, ("Literal", "parse", "&str"), &e, answer),
    }
    .and(owned)
}

/// Returns `true` if `answer` says the value of a string, and whether it is owned.
fn is_taken(lit: Literal<&str>, answer: &[u8]) -> bool {
    match lit {
        Literal::String(lit) => is_text(&lit.into_value(), answer),
        Literal::ByteString(lit) => are_bytes(&lit.into_value(), answer),
        Literal::CString(lit) => after(answer, &["owned"]) == Some(lit.into_value().to_bytes()),
        _ => false,
    }
}

/// Returns `true` if `answer` says this text, and whether it is owned.
pub fn is_text(value: &CowStr, answer: &[u8]) -> bool {
    match value {
        CowStr::Borrowed(text) => after(answer, &["borrowed"]) == Some(text.as_bytes()),
        CowStr::Owned(text) => after(answer, &["owned"]) == Some(text.as_bytes()),
    }
}

fn are_bytes(value: &CowSlice<u8>, answer: &[u8]) -> bool {
    match value {
        CowSlice::Borrowed(bytes) => after(answer, &["borrowed"]) == Some(*bytes),
        CowSlice::Owned(bytes) => after(answer, &["owned"]) == Some(bytes.as_slice()),
    }
}

/// Returns `true` if `answer` says the value of a string that owns its text.
fn is_taken_owned(lit: Literal<String>, answer: &[u8]) -> bool {
    let value = after(answer, &["borrowed"]).or(after(answer, &["owned"]));
    match lit {
        Literal::String(lit) => value == Some(lit.into_value().as_bytes()),
        Literal::ByteString(lit) => value == Some(lit.into_value().as_slice()),
        Literal::CString(lit) => value == Some(lit.into_value().to_bytes()),
        _ => false,
    }
}
