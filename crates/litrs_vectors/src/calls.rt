//! Calls on a text that allocate, and are not methods of its literal.
use crate::outcome::{Outcome, made};
use crate::rewritings::respelled;
use crate::{builds, lines};
use litrs::{Literal, ParseErrorKind};
use litrs_base::Unescape;
use litrs_build::{rewritten, unescaped};
use litrs_diagnostic::shown_refusal;
use litrs_explanation::explanation;
use litrs_lex::{EscapeContainer, Front, Switches, unescape_string, unescape_string_with};
use std::alloc::Global;

/// The longest text in bytes on which all calls are made.
pub const LONGEST: usize = 1000;

/// Tries the calls on a text, which is a literal or is rejected.
pub fn try_calls(alloc: Global, text: &str, is_literal: bool) -> Outcome {
    let outcome = if is_literal || text.len() <= LONGEST {
        try_parsed(alloc, text)
    } else {
        Outcome::Holds
    };
    outcome
        .and(lines::try_run(alloc, text))
        .and(lines::try_collector(alloc, text, is_literal))
}

/// Tries the calls on the literal of a text, or the message on a rejected one.
fn try_parsed(alloc: Global, text: &str) -> Outcome {
    let parsed = Literal::parse(alloc, text);
    let outcome = match &parsed {
        Ok(lit) => try_literal(alloc, lit),
        Err(e) => match e.kind() {
            ParseErrorKind::OutOfMemory => Outcome::Refused(("Literal", "parse", "&str")),
            _ => made(
                ("litrs_diagnostic", "shown_refusal", "&str"),
                shown_refusal(alloc, "row", text, e, 140),
            ),
        },
    };
    drop(parsed);
    outcome
}

/// Tries the calls on a literal and its value.
fn try_literal(alloc: Global, lit: &Literal<&str>) -> Outcome {
    let text = lit.raw_input();
    let outcome = try_value(alloc, lit).and(try_unescape(alloc, text));
    if text.len() > LONGEST {
        return outcome;
    }
    outcome
        .and(builds::try_build(alloc, lit))
        .and(made(builds::call("unescaped"), unescaped(alloc, lit)))
        .and(made(
            builds::call("rewritten"),
            rewritten(alloc, lit, &respelled()),
        ))
        .and(made(
            ("litrs_explanation", "explanation", "&str"),
            explanation(alloc, lit),
        ))
}

/// Tries a copy of the value of a C string, and the containers of the text of a string.
fn try_value(alloc: Global, lit: &Literal<&str>) -> Outcome {
    match lit {
        Literal::CString(lit) => made(("CString", "clone", "CString"), lit.value().clone(alloc)),
        Literal::String(lit) => {
            let text = lit.raw_input();
            let outcome = try_container::<String>(alloc, "String", text);
            outcome.and(try_container::<Vec<u8>>(alloc, "Vec<u8>", text))
        }
        _ => Outcome::Holds,
    }
}

/// Unescapes the body of a quoted string of any kind, by switches and by their type.
fn try_unescape(alloc: Global, text: &str) -> Outcome {
    match Front::of(text) {
        Front::Quoted(kind) => try_unescape_at(alloc, text, kind.front_len(), kind.switches()),
        _ => Outcome::Holds,
    }
}

/// Like [`try_unescape`], for the body from `start` on.
fn try_unescape_at(alloc: Global, text: &str, start: usize, switches: Switches) -> Outcome {
    if !text.is_char_boundary(start) {
        return Outcome::Holds;
    }
    let Switches {
        unicode,
        byte_escapes,
        allow_nul,
    } = switches;
    made(
        ("litrs_lex", "unescape_string", "&str"),
        unescape_string::<Vec<u8>>(alloc, text, start, unicode, byte_escapes, allow_nul),
    )
    .and(made(
        ("litrs_lex", "unescape_string_with", "&str"),
        unescape_string_with::<Vec<u8>, Switches>(alloc, text, start, switches),
    ))
}

/// Tries the calls of a container.
fn try_container<C: EscapeContainer>(alloc: Global, buffer: &'static str, text: &str) -> Outcome {
    let kind = "EscapeContainer";
    let mut container = C::new(alloc);
    made((kind, "push_str", buffer), container.push_str(text))
        .and(made(
            (kind, "push", buffer),
            container.push(Unescape::Unicode('é')),
        ))
        .and(made(
            (kind, "push_bytes", buffer),
            container.push_bytes(text.as_bytes()),
        ))
        .and(made(
            (kind, "reserve", buffer),
            // bounded by the length of the longest text that is tried so.
            container.reserve(LONGEST),
        ))
        .and(made(
            (kind, "with_capacity", buffer),
            // bounded by the length of the longest text that is tried so.
            C::with_capacity(alloc, LONGEST),
        ))
}
