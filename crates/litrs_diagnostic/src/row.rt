//! Lines with their numbers, and the marks below them.
ghost use Rattle.std.specs.Prelude.{◌≡◌, IfOk, length};
ghost use Rattle.std.specs.Fmt.{HasWritten, IsPlainFormatter, WritesOnOk, decimal};
ghost use Rattle.std.specs.Str.{encode_utf8_all};
ghost use Rattle.litrs_diagnostic.specs.Row.{below_rows, dots, gap_text, is_line_above, is_whole, label_gap, line_below, line_text, marks_text, row_if, rows_text, skips_lines};
ghost use Rattle.litrs_diagnostic.specs.Rows.{row_of, window_of};

use crate::colors::{Color, closing, opening};
use crate::marks::{Below, Blanks, Mark, Marks, Shown};
use crate::window::Window;
use std::fmt;

/// The margin of a message, and if it is in color.
#[derive(Clone, Copy)]
pub(crate) struct Frame {
    /// The width of the margin.
    pub(crate) margin: usize,
    /// Set if the message is in color.
    pub(crate) is_colored: bool,
}

/// The last line that was written.
#[derive(Clone, Copy)]
pub(crate) struct Above {
    /// Its number.
    number: usize,
    /// Set if all of it is shown.
    is_whole: bool,
}

/// A line, the marks below a part of it, and a label after the marks.
#[derive(Clone, Copy)]
pub(crate) struct Row<'a> {
    pub(crate) number: usize,
    pub(crate) line: Window<'a>,
    pub(crate) mark: Mark,
    pub(crate) label: &'a str,
}

/// Writes `row` below the line `above`, if the row is shown. Returns the last line that was
/// written.
pub(crate) fn write_row<W: fmt::Write>(
    f: &mut fmt::Formatter<W>,
    frame: Frame,
    above: Option<Above>,
    row: Row<'_>,
    is_shown: bool,
) -> Result<Option<Above>, fmt::Error>
    ensures below { IfOk result (λ below.
        below ≡ below_rows above (row_if is_shown (row_of row.entry))) }
    ensures writes { IsPlainFormatter f.old → IfOk result (λ below.
        HasWritten W.write_str_gives f.old (encode_utf8_all (rows_text frame.is_colored
        frame.margin above (row_if is_shown (row_of row.entry)))) f.new) }
{
    if is_shown {
        write_line_below(f, frame, above, row)?;
        write_marks(f, frame, row)?;
        Ok(Some(Above {
            number: row.number,
            is_whole: is_whole(row.line),
        }))
    } else {
        Ok(above)
    }
}

/// Writes the line of `row`, unless it is the line `above`.
fn write_line_below<W: fmt::Write>(
    f: &mut fmt::Formatter<W>,
    frame: Frame,
    above: Option<Above>,
    row: Row<'_>,
) -> fmt::Result
    ensures { WritesOnOk W.write_str_gives f.old result (encode_utf8_all (
        line_below frame.is_colored frame.margin above (row_of row.entry))) f.new }
{
    if is_line_above(above, row) {
        Ok(())
    } else {
        write_gap(f, frame, skips_lines(above, row.number))?;
        write_line(f, frame, row)
    }
}

/// Writes `...` in a line of its own if lines are skipped.
fn write_gap<W: fmt::Write>(f: &mut fmt::Formatter<W>, frame: Frame, is_gap: bool) -> fmt::Result
    ensures { WritesOnOk W.write_str_gives f.old result
        (encode_utf8_all (gap_text frame.is_colored is_gap)) f.new }
{
    if is_gap {
        let blue = opening(frame.is_colored, Color::BoldBlue);
        let plain = closing(frame.is_colored);
        write!(f, "{blue}...{plain}\n")
    } else {
        Ok(())
    }
}

/// Writes the line of `row` after its number.
fn write_line<W: fmt::Write>(f: &mut fmt::Formatter<W>, frame: Frame, row: Row<'_>) -> fmt::Result
    ensures { WritesOnOk W.write_str_gives f.old result (encode_utf8_all (
        line_text frame.is_colored frame.margin (row_of row.entry))) f.new }
{
    let blue = opening(frame.is_colored, Color::BoldBlue);
    let number = row.number;
    let filling = Blanks(frame.margin.saturating_sub(digit_count(number)));
    let plain = closing(frame.is_colored);
    write!(f, "{blue}{number}{filling} |{plain} ")?;
    let line = row.line;
    let start = dots(line.is_cut_before);
    let before = Shown(line.before);
    let marked = Shown(line.marked);
    let after = Shown(line.after);
    let end = dots(line.is_cut_after);
    write!(f, "{start}{before}{marked}{after}{end}\n")
}

/// Writes the marks of `row` and its label.
fn write_marks<W: fmt::Write>(f: &mut fmt::Formatter<W>, frame: Frame, row: Row<'_>) -> fmt::Result
    ensures { WritesOnOk W.write_str_gives f.old result (encode_utf8_all (
        marks_text frame.is_colored frame.margin (row_of row.entry))) f.new }
{
    let blue = opening(frame.is_colored, Color::BoldBlue);
    let margin = Blanks(frame.margin);
    let plain = closing(frame.is_colored);
    write!(f, "{blue}{margin} |{plain}")?;
    let color = opening(frame.is_colored, row.mark.color());
    let line = row.line;
    let start = dots(line.is_cut_before);
    let indent = Blanks(start.len());
    let below = Below(line.before);
    let marks = Marks {
        mark: row.mark,
        text: line.marked,
    };
    let gap = label_gap(row.label);
    let label = Shown(row.label);
    write!(f, "{color} {indent}{below}{marks}{gap}{label}{plain}\n")
}

/// Returns `true` if `above` is the line of `row`, and all of it is shown.
fn is_line_above(above: Option<Above>, row: Row<'_>) -> bool
    ensures { result ≡ is_line_above above (row_of row.entry) }
{
    match above {
        Some(above) => above.number == row.number && above.is_whole && is_whole(row.line),
        None => false,
    }
}

/// Returns `true` if the line with the number `number` comes after `above`, and there are lines
/// between the two.
fn skips_lines(above: Option<Above>, number: usize) -> bool
    ensures { result ≡ skips_lines above number }
{
    match above {
        Some(above) => number.saturating_sub(above.number) > 1,
        None => false,
    }
}

/// Returns `true` if all of a line is shown.
fn is_whole(line: Window<'_>) -> bool
    ensures { result ≡ is_whole (window_of line.entry) }
{
    !(line.is_cut_before || line.is_cut_after)
}

/// Returns the text in place of the rest of a line.
fn dots(is_cut: bool) -> &'static str
    ensures { result.now ≡ dots is_cut }
{
    if is_cut { "..." } else { "" }
}

/// Returns the text between marks and `label`.
fn label_gap(label: &str) -> &'static str
    ensures { result.now ≡ label_gap label.now }
{
    if label.is_empty() { "" } else { " " }
}

/// Returns the number of decimal digits of `number`.
pub(crate) fn digit_count(number: usize) -> usize
    ensures { result ≡ length (decimal number) }
{
    let mut count = 1;
    let mut rest = number;
    while rest >= 10 {
        count += 1;
        rest /= 10;
    }
    count
}
