//! Places in a file.
ghost use Rattle.std.specs.Prelude.{◌≡◌, ◌<◌, ◌+◌, ◌^◌, length};
ghost use Rattle.std.specs.Str.{chars};
ghost use Rattle.litrs_diagnostic.specs.Position.{line_number, column_in};

use litrs_diagnostic::position;
use std::ops::Range;

/// A place in a file, as people count.
#[derive(Clone, Copy)]
pub(crate) struct Place {
    /// From 1.
    pub(crate) line: usize,
    /// In characters, from 1.
    pub(crate) column: usize,
}

impl Place {
    /// The start of a file.
    pub(crate) const START: Place = Place { line: 1, column: 1 };

    /// Returns the place after `text`, which begins at this place.
    pub(crate) fn after(self, text: &str) -> Place
        ensures line { self.line + length text.now < 2 ^ 64
            → result.line ≡ line_number self.line (chars text.now) }
        ensures column { self.column + length text.now < 2 ^ 64
            → result.column ≡ column_in self.column (chars text.now) }
    {
        let end = position(text, text.len());
        if end.line == 1 {
            Place {
                line: self.line,
                column: self.column.saturating_add(end.column - 1),
            }
        } else {
            Place {
                line: self.line.saturating_add(end.line - 1),
                column: end.column,
            }
        }
    }

    /// Returns the place one column further.
    pub(crate) fn next_column(self) -> Place {
        Place {
            line: self.line,
            column: self.column.saturating_add(1),
        }
    }

    /// Returns the start of the next line.
    pub(crate) fn next_line(self) -> Place {
        Place {
            line: self.line.saturating_add(1),
            column: 1,
        }
    }
}

/// A part of a file.
#[derive(Drop)]
pub(crate) struct Span {
    /// The place of its first character.
    pub(crate) start: Place,
    /// The place after its last character.
    pub(crate) end: Place,
    /// In bytes from the start of the file.
    pub(crate) bytes: Range<usize>,
}
