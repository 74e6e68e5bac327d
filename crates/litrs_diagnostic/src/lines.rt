//! The lines that a range marks.
ghost use Rattle.std.specs.Prelude.{◌≡◌, ◌++◌, ◌≤◌, length, take, drop, slice_range, List, ℕ};
ghost use Rattle.std.specs.Str.{chars, IsCharBoundary, IsUtf8};
ghost use Rattle.litrs_diagnostic.specs.Line.{first_line, without_line_end, before_line_end, place_on_line, start_line, end_line, start_line_at, end_line_at, line_at, column_at};
ghost use Rattle.litrs_diagnostic.specs.Rows.{line_of};

use crate::places::{LineColumn, last_line, place_in};

/// A line, cut at both ends of the marked part.
#[derive(Clone, Copy)]
pub(crate) struct Line<'a> {
    pub(crate) before: &'a str,
    pub(crate) marked: &'a str,
    pub(crate) after: &'a str,
}

/// Returns the line on which the bytes from `start` up to `end` begin.
pub(crate) fn start_line_at(source: &str, start: usize, end: usize) -> Line<'_>
    requires start { IsCharBoundary source.now start }
    requires end { IsCharBoundary source.now end }
    requires in_order { start ≤ end }
    ensures { line_of result ≡ start_line_at source.now start end }
{
    let from = place_on_line(source, start);
    let to = place_on_line(source, end);
    start_line(source, from, to)
}

/// Returns the line on which the bytes from `start` up to `end` end, a later one.
pub(crate) fn end_line_at(source: &str, start: usize, end: usize) -> Line<'_>
    requires start { IsCharBoundary source.now start }
    requires end { IsCharBoundary source.now end }
    requires in_order { start ≤ end }
    ensures { line_of result ≡ end_line_at source.now start end }
{
    let from = place_on_line(source, start);
    let to = place_on_line(source, end);
    end_line(source, from, to)
}

/// Returns the place of the byte `at`, in a text whose first character is at `first_line` and
/// `first_column`.
pub(crate) fn place_at(source: &str, at: usize, first_line: u32, first_column: u32) -> LineColumn
    requires { IsCharBoundary source.now at }
    ensures line { result.line ≡ line_at first_line source.now at }
    ensures column { result.column ≡ column_at first_column source.now at }
{
    place_in(source, place_on_line(source, at), first_line, first_column)
}

/// Returns the line on which a range begins.
fn start_line(source: &str, start: usize, end: usize) -> Line<'_>
    requires start { IsCharBoundary source.now start }
    requires end { IsCharBoundary source.now end }
    requires in_order { start ≤ end }
    ensures { line_of result ≡ start_line (chars (take start source.now))
        (chars (slice_range source.now start end)) (chars (drop end source.now)) }
{
    let (before, rest) = source.split_at(start);
    let (marked, after) = cut_first_line(rest, end - start);
    Line {
        before: last_line(before),
        marked,
        after,
    }
}

/// Returns the line on which a range ends that begins on an earlier line.
fn end_line(source: &str, start: usize, end: usize) -> Line<'_>
    requires start { IsCharBoundary source.now start }
    requires end { IsCharBoundary source.now end }
    requires in_order { start ≤ end }
    ensures { line_of result ≡ end_line
        (chars (slice_range source.now start end)) (chars (drop end source.now)) }
{
    let mark = last_line(&source[start..end]);
    let (_, rest) = source.split_at(end - mark.len());
    let (marked, after) = cut_first_line(rest, mark.len());
    Line {
        before: "",
        marked,
        after,
    }
}

/// Returns `text` up to its first LF, or CR and LF.
fn first_line(text: &str) -> &str
    ensures line { chars result.now ≡ first_line (chars text.now) }
    ensures front { (rest : List ℕ) × (text.now ≡ result.now ++ rest) }
{
    match text.split_once('\n') {
        Some((line, _)) => line.strip_suffix('\r').unwrap_or(line),
        None => text,
    }
}

/// Returns the first line of `text`, cut after its first `len` bytes, or at its end if it has
/// fewer.
fn cut_first_line(text: &str, len: usize) -> (&str, &str)
    requires { IsCharBoundary text.now len }
    ensures marked { chars result.0.now
        ≡ take (length (chars (take len text.now))) (first_line (chars text.now)) }
    ensures after { chars result.1.now
        ≡ drop (length (chars (take len text.now))) (first_line (chars text.now)) }
{
    let line = first_line(text);
    if len <= line.len() {
        line.split_at(len)
    } else {
        (line, "")
    }
}

/// Returns `place`, or the end of its line if `place` is in a line end or after the last line.
fn place_on_line(text: &str, place: usize) -> usize
    requires { IsCharBoundary text.now place }
    ensures value { result ≡ place_on_line text.now place }
    ensures boundary { IsCharBoundary text.now result }
{
    before_line_end(text, place.min(without_line_end(text).len()))
}

/// Returns `place`, or the place of the CR before it if `place` is between a CR and an LF.
fn before_line_end(text: &str, place: usize) -> usize
    requires { IsCharBoundary text.now place }
    ensures value { result ≡ before_line_end text.now place }
    ensures boundary { IsCharBoundary text.now result }
{
    let (before, after) = text.split_at(place);
    match before.strip_suffix('\r') {
        Some(line) if after.starts_with('\n') => line.len(),
        _ => place,
    }
}

/// Returns `text` without the LF, or CR and LF, at its end.
fn without_line_end(text: &str) -> &str
    ensures value { result.now ≡ without_line_end text.now }
    ensures front { (end : List ℕ) × IsUtf8 end × (text.now ≡ result.now ++ end) }
{
    match text.strip_suffix('\n') {
        Some(line) => line.strip_suffix('\r').unwrap_or(line),
        None => text,
    }
}
