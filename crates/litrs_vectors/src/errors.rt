//! Errors as the table writes them.
use crate::outcome::{Call, Outcome, agrees};
use litrs::{ParseError, ParseErrorKind};
use std::alloc::{AllocError, Global};

/// Tries that the row has the fields of the error of a call, and then its message or nothing.
pub fn try_error(alloc: Global, call: Call, error: &ParseError, answer: &[u8]) -> Outcome {
    match error.kind() {
        ParseErrorKind::OutOfMemory => Outcome::Refused(call),
        _ => match &fields_of(alloc, error) {
            Ok(fields) => agrees(call, are_said(fields.as_str(), answer)),
            Err(refusal) => Outcome::Ends(*refusal),
        },
    }
}

/// Returns `true` if a row has these fields, or all of them but the last, which is the message.
fn are_said(fields: &str, answer: &[u8]) -> bool {
    let (others, _) = fields.rsplit_once('\t').unwrap_or((fields, ""));
    answer == fields.as_bytes() || answer == others.as_bytes()
}

fn fields_of(alloc: Global, error: &ParseError) -> Result<String, AllocError> {
    let kind = error.kind();
    match (error.span(), error.char_span()) {
        (Some(span), Some(chars)) => {
            format!(in alloc; "refused\t{kind:?}\t{span:?}\t{chars:?}\t{error}")
        }
        _ => format!(in alloc; "refused\t{kind:?}\t-\t-\t{error}"),
    }
}
