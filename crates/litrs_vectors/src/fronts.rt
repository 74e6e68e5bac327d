//! Rows on the literal at the front of a longer text.
use crate::outcome::{Call, Outcome, agrees};
use litrs::ParseErrorKind;
use litrs_prefix::{
    MalformedPrefix, Prefix, parse_prefix, parse_prefix_at, prefix_len, prefix_may_change,
};
use std::alloc::{AllocError, Global};

/// The part before the text in a longer one.
const BEFORE: &str = "é";

/// The crate whose calls are tried.
const KIND: &str = "litrs_prefix";

/// Tries the front of the text of a row.
pub fn try_front(alloc: Global, text: &str, answer: &str) -> Outcome {
    // Of `other` and `literal 4` the last field is the answer here, and the compiler has another.
    let (_, wanted) = answer.rsplit_once('\t').unwrap_or(("", answer));
    let len = wanted.parse::<usize>().ok();
    let front = &parse_prefix(alloc, text);
    try_prefix((KIND, "parse_prefix", "&str"), front, wanted)
        .and(agrees((KIND, "prefix_len", "&str"), prefix_len(text) == len))
        .and(try_source(alloc, &format!(in alloc; "{BEFORE}{text}"), wanted))
}

/// Tries the front of what follows `BEFORE` in a longer text, whose allocation may have failed.
fn try_source(alloc: Global, source: &Result<String, AllocError>, wanted: &str) -> Outcome {
    match source {
        Ok(source) => try_at(alloc, source.as_str(), wanted),
        Err(error) => Outcome::Ends(*error),
    }
}

/// Tries the front of what follows `BEFORE` in `source`.
fn try_at(alloc: Global, source: &str, wanted: &str) -> Outcome {
    let call = (KIND, "parse_prefix_at", "&str");
    let start = BEFORE.len();
    if source.is_char_boundary(start) {
        try_prefix(call, &parse_prefix_at(alloc, source, start), wanted)
    } else {
        agrees(call, false)
    }
}

/// Tries that the front is a literal of the wanted length, or malformed, or other text.
fn try_prefix(
    call: Call,
    answer: &Result<Option<Prefix>, MalformedPrefix>,
    wanted: &str,
) -> Outcome {
    let holds = match answer {
        Ok(Some(prefix)) => wanted.parse::<usize>().ok() == Some(prefix.literal.raw_input().len()),
        Ok(None) => matches!(wanted, "other" | "none"),
        Err(malformed) if malformed.error.kind() == ParseErrorKind::OutOfMemory => {
            return Outcome::Refused(call);
        }
        Err(malformed) => malformed.len != 0 && matches!(wanted, "refused" | "malformed"),
    };
    agrees(call, holds)
}

/// Tries if more text can change what is at the front of the text.
pub fn try_may_change(text: &str, answer: &str) -> Outcome {
    let is_known = matches!(answer, "yes" | "no");
    let holds = is_known && prefix_may_change(text) == (answer == "yes");
    agrees((KIND, "prefix_may_change", "&str"), holds)
}
