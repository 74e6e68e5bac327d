//! A message on a range of a text.
ghost use Rattle.std.specs.Prelude.{◌≡◌, ◌≤◌};
ghost use Rattle.std.specs.List.{All};
ghost use Rattle.std.specs.Str.{IsCharBoundary};

use crate::label::Label;
use crate::levels::Level;
use crate::remarks::Remark;
use crate::text::write_message;
use std::fmt;
use std::ops::Range;

/// A message on a range of a text.
///
/// The range is in bytes, and starts and ends on character boundaries of the text. It may be empty,
/// and at the end of the text. `Display` and [`shown`](crate::shown) write the line on which it
/// begins. If it ends on a later line, they write that line too. Below the part of the range in
/// each line there are carets, at least one. A CR before the LF of a line is not shown: a place
/// between them is taken as the end of the line. An LF at the end of the text ends its last line: a
/// range that ends after it is shown as if it ended with that line. If a line has more columns than
/// `width`, the range comes first, if it fits, and then the text around it.
///
/// [`Diagnostic::new`] makes an error on a whole text, and the methods `with_..` change it. A
/// [`Label`] marks a further range.
#[derive(Clone, Copy, Debug)]
pub struct Diagnostic<'a> {
    /// The severity of the message.
    pub level: Level,
    /// The name of the text, for example the path of its file.
    pub name: &'a str,
    /// The text.
    pub source: &'a str,
    /// The start of the range, in bytes.
    pub start: usize,
    /// The end of the range, in bytes.
    pub end: usize,
    /// The number of the first line of the text: 1, unless the text is a part of a longer one.
    pub first_line: u32,
    /// The column of the first character: 1, unless the text starts inside a line of a longer one.
    pub first_column: u32,
    /// The message on the range.
    pub message: &'a str,
    /// The greatest number of columns of a line that are shown. Its number, and the `...` in place
    /// of the rest, do not count. rustc uses 140 if it does not know the width of its terminal.
    pub width: usize,
    /// The label after the marks of the range, or an empty text.
    pub label: &'a str,
    /// The labels of further ranges.
    pub labels: &'a [Label<'a>],
    /// The remarks below the lines.
    pub remarks: &'a [Remark<'a>],
    /// The start is a character boundary of the text.
    pub ghost start_cuts: { IsCharBoundary source.now start },
    /// The end is a character boundary of the text.
    pub ghost end_cuts: { IsCharBoundary source.now end },
    /// The start is at most the end.
    pub ghost in_order: { start ≤ end },
    /// The labels are on this text.
    pub ghost labels_on_text: { All (λ label. label.source.now ≡ source.now) labels.now },
}

impl<'a> Diagnostic<'a> {
    ghost use Rattle.litrs_diagnostic.specs.Diagnostic.{error_on};
    ghost use Rattle.std.specs.Prelude.{map};
    ghost use Rattle.litrs_diagnostic.specs.Rows.{label_of, message_of, remark_of};

    /// Creates an error on a range of `source`, a whole text that is called `name`. The range is in
    /// bytes, in order, and has character boundaries at both ends. Of each line 140 columns are
    /// shown.
    pub fn new(
        name: &'a str,
        source: &'a str,
        range: Range<usize>,
        message: &'a str,
    ) -> Diagnostic<'a>
        requires start { IsCharBoundary source.now range.start }
        requires end { IsCharBoundary source.now range.end }
        requires in_order { range.start ≤ range.end }
        ensures { message_of result
            ≡ error_on name.now source.now range.start range.end message.now }
    {
        Diagnostic {
            level: Level::Error,
            name,
            source,
            start: range.start,
            end: range.end,
            first_line: 1,
            first_column: 1,
            message,
            width: 140,
            label: "",
            labels: &[],
            remarks: &[],
        }
    }

    /// Returns the diagnostic with this level.
    pub fn with_level(mut self, level: Level) -> Diagnostic<'a>
        ensures { message_of result ≡ record (message_of self.entry) { level = level } }
    {
        self.level = level;
        self
    }

    /// Returns the diagnostic with this width, the greatest number of columns of a line that are
    /// shown.
    pub fn with_width(mut self, width: usize) -> Diagnostic<'a>
        ensures { message_of result ≡ record (message_of self.entry) { width = width } }
    {
        self.width = width;
        self
    }

    /// Returns the diagnostic with this label after the marks of its range.
    pub fn with_label(self, label: &'a str) -> Diagnostic<'a>
        ensures { message_of result ≡ record (message_of self.entry) { label = label.now } }
    {
        Diagnostic {
            level: self.level,
            name: self.name,
            source: self.source,
            start: self.start,
            end: self.end,
            first_line: self.first_line,
            first_column: self.first_column,
            message: self.message,
            width: self.width,
            label,
            labels: self.labels,
            remarks: self.remarks,
        }
    }

    /// Returns the diagnostic with these labels, which are on further ranges of its text.
    ///
    /// Those on earlier lines are shown above the range, the others below its first line. If the
    /// labels are in the order of the text, all lines are.
    pub fn with_labels(self, labels: &'a [Label<'a>]) -> Diagnostic<'a>
        requires { All (λ label. label.source.now ≡ self.source.now) labels.now }
        ensures { message_of result
            ≡ record (message_of self.entry) { labels = map label_of labels.now } }
    {
        Diagnostic {
            level: self.level,
            name: self.name,
            source: self.source,
            start: self.start,
            end: self.end,
            first_line: self.first_line,
            first_column: self.first_column,
            message: self.message,
            width: self.width,
            label: self.label,
            labels,
            remarks: self.remarks,
        }
    }

    /// Returns the diagnostic with these remarks below its lines.
    pub fn with_remarks(self, remarks: &'a [Remark<'a>]) -> Diagnostic<'a>
        ensures { message_of result
            ≡ record (message_of self.entry) { remarks = map remark_of remarks.now } }
    {
        Diagnostic {
            level: self.level,
            name: self.name,
            source: self.source,
            start: self.start,
            end: self.end,
            first_line: self.first_line,
            first_column: self.first_column,
            message: self.message,
            width: self.width,
            label: self.label,
            labels: self.labels,
            remarks,
        }
    }

    /// Returns the diagnostic for a part of a longer text whose first character is at `line` and
    /// `column`.
    pub fn with_first(mut self, line: u32, column: u32) -> Diagnostic<'a>
        ensures { message_of result
            ≡ record (message_of self.entry) { first_line = line; first_column = column } }
    {
        self.first_line = line;
        self.first_column = column;
        self
    }
}

impl fmt::Display for Diagnostic<'_> {
    ghost use Rattle.std.specs.Prelude.{Some};
    ghost use Rattle.std.specs.Str.{encode_utf8_all};
    ghost use Rattle.litrs_diagnostic.specs.Diagnostic.{diagnostic_text};
    ghost use Rattle.litrs_diagnostic.specs.Rows.{message_of};

    ghost output = { λ d. Some (encode_utf8_all (diagnostic_text (message_of d))) };

    fn fmt<W: fmt::Write>(&self, f: &mut fmt::Formatter<W>) -> fmt::Result {
        write_message(f, self, false)
    }
}

/// A message in colors like those of rustc, for a terminal. `Display` writes it.
#[derive(Clone, Copy, Debug)]
pub struct Colored<'a>(pub Diagnostic<'a>);

impl fmt::Display for Colored<'_> {
    ghost use Rattle.std.specs.Prelude.{Some};
    ghost use Rattle.std.specs.Str.{encode_utf8_all};
    ghost use Rattle.litrs_diagnostic.specs.Diagnostic.{colored_text};
    ghost use Rattle.litrs_diagnostic.specs.Rows.{message_of};

    ghost output = { λ d. Some (encode_utf8_all (colored_text (message_of d.0))) };

    fn fmt<W: fmt::Write>(&self, f: &mut fmt::Formatter<W>) -> fmt::Result {
        write_message(f, &self.0, true)
    }
}
