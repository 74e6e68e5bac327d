//! The rows of labels.
ghost use Rattle.std.specs.Prelude.{◌≡◌, IfOk, map};
ghost use Rattle.std.specs.Fmt.{HasWritten, IsPlainFormatter};
ghost use Rattle.std.specs.Str.{encode_utf8_all};
ghost use Rattle.litrs_diagnostic.specs.Label.{greatest_number, is_between, label_number, label_row, rows_between};
ghost use Rattle.litrs_diagnostic.specs.Row.{below_rows, rows_text};
ghost use Rattle.litrs_diagnostic.specs.Rows.{label_of, row_of};

use crate::label::Label;
use crate::lines::{place_at, start_line_at};
use crate::marks::Mark;
use crate::message::Diagnostic;
use crate::row::{Above, Frame, Row, write_row};
use crate::window::fitted;
use std::fmt;

/// Returns the number of the line on which `label` begins, in a text whose first line has the
/// number `first_line`.
fn label_number(label: &Label<'_>, first_line: u32) -> usize
    ensures { result ≡ label_number first_line (label_of label.now) }
{
    place_at(label.source, label.start, first_line, 1).line
}

/// Returns the row of `label`, of which `width` columns are shown.
fn label_row<'a>(label: &Label<'a>, first_line: u32, width: usize) -> Row<'a>
    ensures { row_of result ≡ label_row first_line width (label_of label.now) }
{
    let line = start_line_at(label.source, label.start, label.end);
    Row {
        number: label_number(label, first_line),
        line: fitted(line, width),
        mark: Mark::Secondary,
        label: label.text,
    }
}

/// Returns the greatest of `last` and the numbers of the lines of `labels`.
pub(crate) fn greatest_number(labels: &[Label<'_>], first_line: u32, last: usize) -> usize
    ensures { result ≡ greatest_number first_line last (map label_of labels.now) }
{
    let mut greatest = last;
    for label in labels {
        greatest = greatest.max(label_number(label, first_line));
    }
    greatest
}

/// Returns `true` if `number` is at least `from`, and less than `to` if there is such a bound.
fn is_between(from: usize, to: Option<usize>, number: usize) -> bool
    ensures { result ≡ is_between from to number }
{
    match to {
        Some(to) => from <= number && number < to,
        None => from <= number,
    }
}

/// Writes the rows of the labels of `diagnostic` on the lines from `from` up to `to`, below the
/// line `above`. Returns the last line that was written.
pub(crate) fn write_labels<W: fmt::Write>(
    f: &mut fmt::Formatter<W>,
    frame: Frame,
    diagnostic: &Diagnostic<'_>,
    from: usize,
    to: Option<usize>,
    above: Option<Above>,
) -> Result<Option<Above>, fmt::Error>
    ensures below { IfOk result (λ below. below ≡ below_rows above (rows_between
        diagnostic.now.first_line diagnostic.now.width from to
        (map label_of diagnostic.now.labels.now))) }
    ensures writes { IsPlainFormatter f.old → IfOk result (λ below.
        HasWritten W.write_str_gives f.old (encode_utf8_all (rows_text frame.is_colored
        frame.margin above (rows_between diagnostic.now.first_line diagnostic.now.width
        from to (map label_of diagnostic.now.labels.now)))) f.new) }
{
    let labels = diagnostic.labels;
    let mut below = above;
    for label in labels {
        let row = label_row(label, diagnostic.first_line, diagnostic.width);
        let is_shown = is_between(from, to, row.number);
        let next = write_row(f, frame, below, row, is_shown)?;
        below = next;
    }
    Ok(below)
}
