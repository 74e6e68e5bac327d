//! An index of the lines of a text.
ghost use Rattle.std.specs.Prelude.{◌≡◌, take, count_by, IsOk, IfOk, IfSome, IfNone};
ghost use Rattle.std.specs.Str.{chars, IsCharBoundary};
ghost use Rattle.litrs_diagnostic.specs.Position.{is_line_feed, line_number, column_number};
ghost use Rattle.litrs_diagnostic.specs.Lines.{IsLineLen};

use crate::places::{LineColumn, position};
use memchr::memchr;
use std::alloc::{AllocError, Global};
use std::marker::Model;

/// An index of the lines of a text, for many places in it.
///
/// [`Lines::new`] reads the text once. [`Lines::position`] finds the line of a place by a binary
/// search, and reads the line up to the place to count its characters.
#[derive(Debug, Drop)]
pub struct Lines<'a> {
    source: &'a str,
    /// The starts of the lines after the first, in bytes.
    starts: Vec<usize>,
}

impl<'a> Model for Lines<'a> {
    ghost use Rattle.std.specs.Prelude.{ℕ, List};
    ghost use Rattle.std.specs.List.Sorted.{IsNonDecreasing};
    ghost use Rattle.std.specs.Str.{IsUtf8};
    ghost use Rattle.litrs_diagnostic.specs.Lines.{AreLineStarts, HasEachStart};

    // The text.
    ghost Value = { List ℕ };

    ghost view = { λ lines. lines.source.now };

    ghost invariant = { λ lines. IsUtf8 lines.source.now
        × AreLineStarts lines.source.now lines.starts.items
        × IsNonDecreasing lines.starts.items
        × HasEachStart lines.source.now lines.starts.items };
}

impl<'a> Lines<'a> {
    /// Returns the index of the lines of `source`. Its starts are allocated again while they grow.
    /// If there is no LF, nothing is allocated.
    ///
    /// # Errors
    ///
    /// Returns `AllocError` if an allocation fails.
    pub fn new(alloc: Global, source: &'a str) -> Result<Lines<'a>, AllocError>
        ensures ok { IfOk result (λ lines. lines ≡ source.now) }
        ensures succeeds { count_by is_line_feed (chars source.now) ≡ 0 → IsOk result }
    {
        let mut starts = Vec::new(alloc);
        let mut start = 0;
        while let Some(len) = line_len(&source[start..]) {
            start += len;
            starts.push(start)?;
        }
        Ok(Lines { source, starts })
    }

    /// Returns the line and the column of the character boundary `at` of the text, like
    /// [`position`](crate::position).
    pub fn position(&self, at: usize) -> LineColumn
        requires { IsCharBoundary self.now at }
        ensures line { result.line ≡ line_number 1 (chars (take at self.now)) }
        ensures column { result.column ≡ column_number (chars (take at self.now)) }
    {
        let number = self.starts.partition_point(|start| *start <= at);
        if number == 0 {
            return position(self.source, at);
        }
        let start = self.starts[number - 1];
        let LineColumn { line, column } = position(&self.source[start..], at - start);
        LineColumn {
            line: number + line,
            column,
        }
    }
}

/// Returns the number of bytes of the first line of `text` with its LF, or `None` if there is no
/// LF.
fn line_len(text: &str) -> Option<usize>
    ensures some { IfSome result (IsLineLen text.now) }
    ensures none { IfNone result (count_by is_line_feed (chars text.now) ≡ 0) }
{
    let at = memchr(b'\n', text.as_bytes())?;
    Some(at + 1)
}
