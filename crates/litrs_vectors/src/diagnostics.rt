//! Rows on messages with labels, and on places in a text.
ghost use Rattle.std.specs.Prelude.{◌≡◌, IfOk, IfSome};
ghost use Rattle.std.specs.List.{All};

use crate::fields::{size, split};
use crate::outcome::{Outcome, agrees, made, says};
use litrs_diagnostic::{Diagnostic, Label, LineColumn, Lines, position, shown, shown_in_color};
use std::alloc::{AllocError, Global};

/// Tries places in the text of a row.
pub fn try_places(alloc: Global, text: &str, places: &str) -> Outcome {
    match &Lines::new(alloc, text) {
        Ok(lines) => {
            let mut holds = true;
            for place in places.split(' ') {
                holds = holds && is_place(text, lines, place);
            }
            agrees(("Lines", "position", "&str"), holds)
        }
        Err(_) => Outcome::Refused(("Lines", "new", "&str")),
    }
}

/// Returns `true` if a byte, a line and a column are a place of a text, by the index of its lines
/// and without it.
fn is_place(text: &str, lines: &Lines, place: &str) -> bool
    requires { lines.now ≡ text.now }
{
    let mut numbers = place.split(':');
    let at = size(numbers.next());
    let wanted = LineColumn {
        line: size(numbers.next()),
        column: size(numbers.next()),
    };
    text.is_char_boundary(at) && lines.position(at) == wanted && position(text, at) == wanted
}

/// Tries the message on the first range of a row. The other ranges are labels.
pub fn try_message(alloc: Global, text: &str, answer: &str) -> Outcome {
    try_placed(alloc, text, "1:1:140", answer)
}

/// Like [`try_message`], for a row whose first field is the line and the column of the first
/// character, and the width.
pub fn try_first(alloc: Global, text: &str, answer: &str) -> Outcome {
    let (place, answer) = split(answer);
    try_placed(alloc, text, place, answer)
}

/// Tries the message on a text that begins at this place.
fn try_placed(alloc: Global, text: &str, place: &str, answer: &str) -> Outcome {
    // A label may contain a tab, but no line of a message does.
    let (marks, wanted) = answer.rsplit_once('\t').unwrap_or((answer, ""));
    let (mark, others) = marks.split_once('|').unwrap_or((marks, ""));
    match label_of(text, mark) {
        Some(first) => try_labels(alloc, place, first, others, wanted),
        None => agrees(("litrs_diagnostic", "shown", "&str"), false),
    }
}

/// Tries the message on the range of the label `first`, with those of `marks`.
fn try_labels(alloc: Global, place: &str, first: Label, marks: &str, wanted: &str) -> Outcome {
    let mut numbers = place.split(':');
    let (line, column) = (number(numbers.next()), number(numbers.next()));
    match &labels_of(alloc, first.source, marks) {
        Ok(labels) => {
            let diagnostic = Diagnostic::new("row", first.source, first.start..first.end, "here")
                .with_first(line, column)
                .with_width(size(numbers.next()))
                .with_label(first.text)
                .with_labels(labels.as_slice());
            try_shown(alloc, &diagnostic, wanted)
        }
        Err(error) => Outcome::Ends(*error),
    }
}

/// Returns the number of a line or a column that a field writes.
fn number(field: Option<&str>) -> u32 {
    field.unwrap_or("").parse::<u32>().unwrap_or(0)
}

/// Tries the lines of a message.
fn try_shown(alloc: Global, diagnostic: &Diagnostic, wanted: &str) -> Outcome {
    let kind = "litrs_diagnostic";
    let lines = shown(alloc, diagnostic);
    let colored = shown_in_color(alloc, diagnostic);
    says((kind, "shown", "&str"), lines, wanted.as_bytes()).and(made(
        (kind, "shown_in_color", "&str"),
        colored,
    ))
}

/// Returns the ranges that are in a text, each with its label.
fn labels_of<'a>(alloc: Global, text: &'a str, marks: &'a str) -> Result<Vec<Label<'a>>, AllocError>
    ensures { IfOk result (λ labels. All (λ label. label.source.now ≡ text.now) labels.items) }
{
    let mut labels = Vec::new(alloc);
    for mark in marks.split('|') {
        if let Some(label) = label_of(text, mark) {
            labels.push(label)?;
        }
    }
    Ok(labels)
}

/// Returns a range of a text with its label, or `None` if the range is not in the text.
fn label_of<'a>(text: &'a str, mark: &'a str) -> Option<Label<'a>>
    ensures { IfSome result (λ label. label.source.now ≡ text.now) }
{
    let (range, label) = mark.split_once('=')?;
    let (start, end) = range.split_once("..")?;
    let (start, end) = (size(Some(start)), size(Some(end)));
    if start <= end && text.is_char_boundary(start) && text.is_char_boundary(end) {
        Some(Label::new(text, start..end, label))
    } else {
        None
    }
}
