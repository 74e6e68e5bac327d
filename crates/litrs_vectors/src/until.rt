//! Rows on the text before a delimiter, which is parsed as one literal.
use crate::errors::try_error;
use crate::fields::{size, split};
use crate::literals::are_fields;
use crate::outcome::{Call, Outcome, agrees};
use litrs_prefix::{MalformedPrefix, Prefix, parse_until};
use std::alloc::Global;

/// The fields of a row: the text before the delimiter, without the white space at its end, the text
/// from the delimiter on, and the literal or the error.
#[derive(Clone, Copy)]
struct Fields<'a> {
    before: &'a str,
    rest: &'a str,
    answer: &'a str,
}

/// Tries the text before a delimiter.
pub fn try_until(alloc: Global, source: &str, answer: &str) -> Outcome {
    let (start, fields) = split(answer);
    let (delimiters, fields) = split(fields);
    let (before, fields) = split(fields);
    let (rest, answer) = split(fields);
    let fields = Fields {
        before,
        rest,
        answer,
    };
    let start = size(Some(start));
    let call = ("litrs_prefix", "parse_until", "&str");
    if source.is_char_boundary(start) {
        let is_cut = source.ends_with(rest) && source.split_at(start).1.starts_with(before);
        let parsed = parse_until(alloc, source, start, delimiters);
        agrees(call, is_cut).and(try_parsed(alloc, call, &parsed, fields))
    } else {
        agrees(call, false)
    }
}

/// Tries the literal before a delimiter, or the error.
fn try_parsed(
    alloc: Global,
    call: Call,
    parsed: &Result<Prefix, MalformedPrefix>,
    fields: Fields,
) -> Outcome {
    match parsed {
        Ok(prefix) => agrees(call, is_literal(prefix, fields)),
        Err(malformed) => {
            let is_whole = malformed.len == fields.before.len();
            let outcome = try_error(alloc, call, &malformed.error, fields.answer.as_bytes());
            outcome.and(agrees(call, is_whole))
        }
    }
}

/// Returns `true` if this is the literal of a row, with this rest.
fn is_literal(prefix: &Prefix, fields: Fields) -> bool {
    prefix.literal.raw_input() == fields.before
        && prefix.rest == fields.rest
        && are_fields(fields.answer.as_bytes(), &prefix.literal)
}
