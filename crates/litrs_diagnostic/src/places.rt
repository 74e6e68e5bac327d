//! Lines and columns.
ghost use Rattle.std.specs.Prelude.{◌≡◌, ◌≤◌, ◌+◌, ◌++◌, ◌^◌, ℕ, List, take, length, count_by};
ghost use Rattle.std.specs.Str.{chars, IsCharBoundary};
ghost use Rattle.litrs_diagnostic.specs.Position.{is_line_feed, last_line, line_number, column_number, column_in};

/// A place in a text.
#[derive(Clone, Copy, Debug, PartialEq, Eq)]
pub struct LineColumn {
    /// The line: one more than the number of LFs before the place.
    pub line: usize,
    /// The column: one more than the number of characters between the last LF before the place, or
    /// the start of the text, and the place.
    pub column: usize,
}

/// Returns the line and the column of the place `at` of `source`, which is in bytes and a character
/// boundary.
///
/// Lines end only at LF, and columns count characters. In the text `é = 1`, LF, `ü = 0b12` the
/// place 15, before the `2`, is column 8 of line 2.
pub fn position(source: &str, at: usize) -> LineColumn
    requires { IsCharBoundary source.now at }
    ensures line { result.line ≡ line_number 1 (chars (take at source.now)) }
    ensures column { result.column ≡ column_number (chars (take at source.now)) }
    ensures bound { result.line ≤ at + 1 }
    ensures column_bound { result.column ≤ at + 1 }
{
    let (before, _) = source.split_at(at);
    LineColumn {
        line: line_feeds(before) + 1,
        column: last_line(before).chars().count() + 1,
    }
}

/// Like [`position`], for a text whose first character is at `first_line` and `first_column`.
pub(crate) fn place_in(source: &str, at: usize, first_line: u32, first_column: u32) -> LineColumn
    requires { IsCharBoundary source.now at }
    ensures line { result.line ≡ line_number first_line (chars (take at source.now)) }
    ensures column { result.column ≡ column_in first_column (chars (take at source.now)) }
    ensures bound { result.line ≤ at + 2 ^ 32 }
{
    let LineColumn { line, column } = position(source, at);
    LineColumn {
        line: first_line as usize + (line - 1),
        column: if line == 1 {
            first_column as usize + (column - 1)
        } else {
            column
        },
    }
}

/// Returns the number of LFs in `text`.
fn line_feeds(text: &str) -> usize
    ensures value { result ≡ count_by is_line_feed (chars text.now) }
    ensures bound { result ≤ length text.now }
{
    text.chars().filter(|c| *c == '\n').count()
}

/// Returns the part of `text` after its last LF, or all of it if there is none.
pub(crate) fn last_line(text: &str) -> &str
    ensures line { chars result.now ≡ last_line (chars text.now) }
    ensures end { (front : List ℕ) × (text.now ≡ front ++ result.now) }
{
    match text.rsplit_once('\n') {
        Some((_, line)) => line,
        None => text,
    }
}
