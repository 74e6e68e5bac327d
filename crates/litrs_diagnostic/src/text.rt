//! The text of a message.
ghost use Rattle.std.specs.Prelude.{◌≡◌, IfOk, None};
ghost use Rattle.std.specs.Fmt.{HasWritten, IsPlainFormatter, WritesOnOk};
ghost use Rattle.std.specs.Str.{encode_utf8_all};
ghost use Rattle.litrs_diagnostic.specs.Diagnostic.{column_of, first_label, first_number, first_row, heading_text, is_long, last_number, last_row, margin_of, message_text, rows_of};
ghost use Rattle.litrs_diagnostic.specs.Row.{below_rows, row_if, rows_text};
ghost use Rattle.litrs_diagnostic.specs.Rows.{message_of, row_of};

use crate::colors::{Color, closing, opening};
use crate::labels::{greatest_number, write_labels};
use crate::lines::{end_line_at, place_at, start_line_at};
use crate::marks::{Blanks, Mark, Shown};
use crate::message::Diagnostic;
use crate::places::LineColumn;
use crate::remarks::Remarks;
use crate::row::{Above, Frame, Row, digit_count, write_row};
use crate::window::fitted;
use std::fmt;

/// Writes a message, in color or not.
pub(crate) fn write_message<W: fmt::Write>(
    f: &mut fmt::Formatter<W>,
    diagnostic: &Diagnostic<'_>,
    is_colored: bool,
) -> fmt::Result
    ensures { WritesOnOk W.write_str_gives f.old result
        (encode_utf8_all (message_text is_colored (message_of diagnostic.now))) f.new }
{
    let first = first_place(diagnostic);
    let last = last_number(diagnostic);
    let frame = Frame {
        margin: margin(diagnostic, last),
        is_colored,
    };
    write_heading(f, frame, diagnostic, first)?;
    write_rows(f, frame, diagnostic, first.line, last)?;
    let remarks = Remarks {
        frame,
        remarks: diagnostic.remarks,
    };
    write!(f, "{remarks}")
}

/// Returns the place of the start of the range.
fn first_place(diagnostic: &Diagnostic<'_>) -> LineColumn
    ensures line { result.line ≡ first_number (message_of diagnostic.now) }
    ensures column { result.column ≡ column_of (message_of diagnostic.now) }
{
    place_at(
        diagnostic.source,
        diagnostic.start,
        diagnostic.first_line,
        diagnostic.first_column,
    )
}

/// Returns the number of the line on which the range ends.
fn last_number(diagnostic: &Diagnostic<'_>) -> usize
    ensures { result ≡ last_number (message_of diagnostic.now) }
{
    place_at(diagnostic.source, diagnostic.end, diagnostic.first_line, 1).line
}

/// Returns the width of the margin. `last` is the number of the line on which the range ends.
fn margin(diagnostic: &Diagnostic<'_>, last: usize) -> usize
    requires { last ≡ last_number (message_of diagnostic.now) }
    ensures { result ≡ margin_of (message_of diagnostic.now) }
{
    digit_count(greatest_number(diagnostic.labels, diagnostic.first_line, last))
}

/// Writes the level, the message, the place `first` of the start of the range, and an empty line.
fn write_heading<W: fmt::Write>(
    f: &mut fmt::Formatter<W>,
    frame: Frame,
    diagnostic: &Diagnostic<'_>,
    first: LineColumn,
) -> fmt::Result
    requires margin { frame.margin ≡ margin_of (message_of diagnostic.now) }
    requires line { first.line ≡ first_number (message_of diagnostic.now) }
    requires column { first.column ≡ column_of (message_of diagnostic.now) }
    ensures { WritesOnOk W.write_str_gives f.old result
        (encode_utf8_all (heading_text frame.is_colored (message_of diagnostic.now))) f.new }
{
    let color = opening(frame.is_colored, diagnostic.level.color());
    let level = diagnostic.level.word();
    let plain = closing(frame.is_colored);
    let message = Shown(diagnostic.message);
    write!(f, "{color}{level}{plain}: {message}\n")?;
    let blue = opening(frame.is_colored, Color::BoldBlue);
    let margin = Blanks(frame.margin);
    let name = Shown(diagnostic.name);
    let LineColumn { line, column } = first;
    write!(f, "{blue}{margin}-->{plain} {name}:{line}:{column}\n")?;
    write!(f, "{blue}{margin} |{plain}\n")
}

/// Returns the label of the first line of a range: none if the range continues on a later line.
fn first_label(label: &str, is_long: bool) -> &str
    ensures { result.now ≡ first_label is_long label.now }
{
    if is_long { "" } else { label }
}

/// Returns the row of the line on which the range begins, which has the number `number`. `last` is
/// the number of the line on which it ends.
fn first_row<'a>(diagnostic: &Diagnostic<'a>, number: usize, last: usize) -> Row<'a>
    requires number { number ≡ first_number (message_of diagnostic.now) }
    requires last { last ≡ last_number (message_of diagnostic.now) }
    ensures { row_of result ≡ first_row (message_of diagnostic.now) }
{
    let line = start_line_at(diagnostic.source, diagnostic.start, diagnostic.end);
    Row {
        number,
        line: fitted(line, diagnostic.width),
        mark: Mark::Primary(diagnostic.level),
        label: first_label(diagnostic.label, number < last),
    }
}

/// Returns the row of the line on which the range ends, which has the number `number`.
fn last_row<'a>(diagnostic: &Diagnostic<'a>, number: usize) -> Row<'a>
    requires { number ≡ last_number (message_of diagnostic.now) }
    ensures { row_of result ≡ last_row (message_of diagnostic.now) }
{
    let line = end_line_at(diagnostic.source, diagnostic.start, diagnostic.end);
    Row {
        number,
        line: fitted(line, diagnostic.width),
        mark: Mark::Primary(diagnostic.level),
        label: diagnostic.label,
    }
}

/// Writes the lines of the range and of the labels, with the marks below them. The range begins on
/// the line `first`, and ends on the line `last`.
fn write_rows<W: fmt::Write>(
    f: &mut fmt::Formatter<W>,
    frame: Frame,
    diagnostic: &Diagnostic<'_>,
    first: usize,
    last: usize,
) -> fmt::Result
    requires first { first ≡ first_number (message_of diagnostic.now) }
    requires last { last ≡ last_number (message_of diagnostic.now) }
    ensures { WritesOnOk W.write_str_gives f.old result (encode_utf8_all (rows_text
        frame.is_colored frame.margin None (rows_of (message_of diagnostic.now)))) f.new }
{
    let before = write_labels(f, frame, diagnostic, 0, Some(first), None)?;
    let on_first = write_row(f, frame, before, first_row(diagnostic, first, last), true)?;
    let between = write_labels(f, frame, diagnostic, first, Some(last), on_first)?;
    let on_last = write_last_row(f, frame, diagnostic, first, last, between)?;
    write_labels(f, frame, diagnostic, last, None, on_last)?;
    Ok(())
}

/// Writes the row of the line `last` below the line `above`, if the range does not end on the line
/// `first`. Returns the last line that was written.
fn write_last_row<W: fmt::Write>(
    f: &mut fmt::Formatter<W>,
    frame: Frame,
    diagnostic: &Diagnostic<'_>,
    first: usize,
    last: usize,
    above: Option<Above>,
) -> Result<Option<Above>, fmt::Error>
    requires first { first ≡ first_number (message_of diagnostic.now) }
    requires last { last ≡ last_number (message_of diagnostic.now) }
    ensures below { IfOk result (λ below. below ≡ below_rows above (row_if
        (is_long (message_of diagnostic.now)) (last_row (message_of diagnostic.now)))) }
    ensures writes { IsPlainFormatter f.old → IfOk result (λ below.
        HasWritten W.write_str_gives f.old (encode_utf8_all (rows_text frame.is_colored
        frame.margin above (row_if (is_long (message_of diagnostic.now))
        (last_row (message_of diagnostic.now))))) f.new) }
{
    if first < last {
        write_row(f, frame, above, last_row(diagnostic, last), true)
    } else {
        Ok(above)
    }
}
