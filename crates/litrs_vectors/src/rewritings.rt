//! Rows on literals that are rewritten in a style.
use crate::builds::call;
use crate::errors::try_error;
use crate::fields::{size, split};
use crate::outcome::{Call, Outcome, agrees, says};
use litrs::{Literal, ParseError, Text};
use litrs_build::{
    Case, Escapes, FloatGroupLens, FloatGroups, GroupLens, Groups, Lines, Style, rewritten,
};
use std::alloc::{AllocError, Global};

/// The style that changes nothing.
const KEPT: Style = Style {
    escapes: Escapes::Kept,
    escape_digits: Case::Lower,
    lines: Lines::Kept,
    digits: None,
    groups: Groups::Kept,
    exponents: None,
    float_groups: FloatGroups::Kept,
};

/// Returns a style in which a char, byte or string is not longer than before.
pub fn respelled() -> Style {
    Style {
        escapes: Escapes::Respelled,
        digits: Some(Case::Lower),
        groups: Groups::Grouped(GroupLens {
            binary: 4,
            octal: 4,
            decimal: 3,
            hexadecimal: 4,
        }),
        exponents: Some(Case::Lower),
        float_groups: FloatGroups::Grouped(FloatGroupLens {
            integer: 3,
            fraction: 3,
            exponent: 3,
        }),
        ..KEPT
    }
}

/// Tries the literal of a row, rewritten in the style of the row, over both buffers. Rewritten
/// again, it stays as it is.
pub fn try_rewritten(alloc: Global, text: &String, answer: &str) -> Outcome {
    let (words, answer) = split(answer);
    match style_of(words) {
        Some(style) => try_texts(alloc, text, &style, answer),
        None => agrees(("row", "style", "&str"), false),
    }
}

/// Tries the literal of a text over both buffers, and that of the answer.
fn try_texts(alloc: Global, text: &String, style: &Style, answer: &str) -> Outcome {
    try_text(alloc, call("rewritten"), text.as_str(), style, answer)
        .and(try_copy(alloc, text.copy(alloc), style, answer))
        .and(try_text(alloc, call("rewritten_again"), answer, style, answer))
}

/// Tries the literal of a text that it owns, unless its allocation failed.
fn try_copy(
    alloc: Global,
    copy: Result<String, AllocError>,
    style: &Style,
    answer: &str,
) -> Outcome {
    match copy {
        Ok(copy) => {
            let call = ("litrs_build", "rewritten", "String");
            try_text(alloc, call, copy, style, answer)
        }
        Err(_) => Outcome::Refused(("String", "copy", "String")),
    }
}

/// Tries the literal of a text, rewritten.
fn try_text<B: Text>(alloc: Global, call: Call, text: B, style: &Style, answer: &str) -> Outcome {
    let parsed = Literal::parse(alloc, text);
    let outcome = try_literal(alloc, call, &parsed, style, answer);
    drop(parsed);
    outcome
}

/// Tries a literal, rewritten.
fn try_literal<B: Text>(
    alloc: Global,
    call: Call,
    parsed: &Result<Literal<B>, ParseError>,
    style: &Style,
    answer: &str,
) -> Outcome {
    match parsed {
        Ok(lit) => says(call, rewritten(alloc, lit, style), answer.as_bytes()),
        Err(e) => try_error(alloc, ("Literal", "parse", call.2), e, b""),
    }
}

/// Returns the style that these words set, or `None` if one of them is unknown.
fn style_of(words: &str) -> Option<Style> {
    let mut style = KEPT;
    for word in words.split(' ') {
        style = with_word(style, word)?;
    }
    Some(style)
}

/// Returns a style with the field that a word sets.
fn with_word(mut style: Style, word: &str) -> Option<Style> {
    match word {
        "" => {}
        "respelled" => style.escapes = Escapes::Respelled,
        "needed" => style.escapes = Escapes::Needed,
        "upper" => style.escape_digits = Case::Upper,
        "joined" => style.lines = Lines::Joined,
        "digits=lower" => style.digits = Some(Case::Lower),
        "digits=upper" => style.digits = Some(Case::Upper),
        "exponents=lower" => style.exponents = Some(Case::Lower),
        "exponents=upper" => style.exponents = Some(Case::Upper),
        _ => return with_groups(style, word),
    }
    Some(style)
}

/// Returns a style with the groups that a word sets.
fn with_groups(mut style: Style, word: &str) -> Option<Style> {
    let (name, lens) = word.split_once('=').unwrap_or((word, ""));
    match name {
        "regrouped" => style.groups = Groups::Regrouped(lens_of(lens)),
        "grouped" => style.groups = Groups::Grouped(lens_of(lens)),
        "floats_regrouped" => style.float_groups = FloatGroups::Regrouped(float_lens_of(lens)),
        "floats_grouped" => style.float_groups = FloatGroups::Grouped(float_lens_of(lens)),
        _ => return None,
    }
    Some(style)
}

/// Returns the numbers of digits of a group in base 2, 8, 10 and 16, with commas between them.
fn lens_of(text: &str) -> GroupLens {
    let mut lens = text.split(',');
    GroupLens {
        binary: size(lens.next()),
        octal: size(lens.next()),
        decimal: size(lens.next()),
        hexadecimal: size(lens.next()),
    }
}

/// Returns the numbers of digits of a group in the integer part, the fraction and the exponent,
/// with commas between them.
fn float_lens_of(text: &str) -> FloatGroupLens {
    let mut lens = text.split(',');
    FloatGroupLens {
        integer: size(lens.next()),
        fraction: size(lens.next()),
        exponent: size(lens.next()),
    }
}
