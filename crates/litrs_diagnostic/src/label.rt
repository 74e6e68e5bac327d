//! Labels of further ranges.
ghost use Rattle.std.specs.Prelude.{◌≡◌, ◌≤◌};
ghost use Rattle.std.specs.Str.{IsCharBoundary};

use std::ops::Range;

/// A label on a further range of the text of a [`Diagnostic`](crate::Diagnostic).
///
/// The range is marked by `-` below the line on which it begins. That line is not shown again if it
/// is the line above and was shown whole. If the range continues in the next line, the rest of its
/// first line is marked.
#[derive(Clone, Copy, Debug)]
pub struct Label<'a> {
    /// The text, which is that of the diagnostic.
    pub source: &'a str,
    /// The start of the range, in bytes.
    pub start: usize,
    /// The end of the range, in bytes.
    pub end: usize,
    /// The label after the marks, or an empty text.
    pub text: &'a str,
    /// The start is a character boundary of the text.
    pub ghost start_cuts: { IsCharBoundary source.now start },
    /// The end is a character boundary of the text.
    pub ghost end_cuts: { IsCharBoundary source.now end },
    /// The start is at most the end.
    pub ghost in_order: { start ≤ end },
}

impl<'a> Label<'a> {
    /// Creates a label on a range of `source`, the text of a diagnostic. The range is in bytes, in
    /// order, and has character boundaries at both ends.
    pub fn new(source: &'a str, range: Range<usize>, text: &'a str) -> Label<'a>
        requires start { IsCharBoundary source.now range.start }
        requires end { IsCharBoundary source.now range.end }
        requires in_order { range.start ≤ range.end }
        ensures source { result.source.now ≡ source.now }
        ensures start { result.start ≡ range.start }
        ensures end { result.end ≡ range.end }
        ensures text { result.text.now ≡ text.now }
    {
        Label {
            source,
            start: range.start,
            end: range.end,
            text,
        }
    }
}
