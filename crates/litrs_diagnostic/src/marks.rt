//! Texts as they are shown, and the marks below them.
ghost use Rattle.std.specs.Prelude.{◌≡◌, ◌++◌, IsTrue, replicate};
ghost use Rattle.std.specs.Fmt.{WritesOnOk};
ghost use Rattle.std.specs.List.{list_all, prefix_len};
ghost use Rattle.std.specs.Str.{chars, encode_utf8_all, IsUtf8};
ghost use Rattle.litrs_diagnostic.specs.Row.{mark_color, mark_glyph, marks_below};
ghost use Rattle.litrs_diagnostic.specs.Shown.{blank, glyph_char, is_plain, shown_char, shown, columns};

use crate::colors::Color;
use crate::levels::Level;
use crate::printable::is_printable;
use litrs_base::split_first_char;
use std::fmt;
use unicode_width::UnicodeWidthChar;

/// The number of spaces in place of a tab.
const TAB_WIDTH: usize = 4;

/// The number of characters in the run of a [`Glyph`].
const RUN_LEN: usize = 32;

/// A character that is written once for each column.
#[derive(Clone, Copy)]
pub(crate) enum Glyph {
    Space,
    Caret,
    Dash,
}

impl Glyph {
    /// Returns [`RUN_LEN`] of these characters.
    fn run(self) -> &'static str
        ensures { result.now ≡ replicate 32 (glyph_char self) }
    {
        match self {
            Glyph::Space => "                                ",
            Glyph::Caret => "^^^^^^^^^^^^^^^^^^^^^^^^^^^^^^^^",
            Glyph::Dash => "--------------------------------",
        }
    }
}

/// A text as it is shown.
#[derive(Clone, Copy)]
pub(crate) struct Shown<'a>(pub(crate) &'a str);

impl fmt::Display for Shown<'_> {
    ghost use Rattle.std.specs.Prelude.{Some};

    ghost output = { λ text. Some (encode_utf8_all (shown (chars text.0.now))) };

    fn fmt<W: fmt::Write>(&self, f: &mut fmt::Formatter<W>) -> fmt::Result {
        write_text(f, self.0)
    }
}

/// A number of spaces.
#[derive(Clone, Copy)]
pub(crate) struct Blanks(pub(crate) usize);

impl fmt::Display for Blanks {
    ghost use Rattle.std.specs.Prelude.{Some};

    ghost output = { λ blanks. Some (encode_utf8_all (replicate blanks.0 blank)) };

    fn fmt<W: fmt::Write>(&self, f: &mut fmt::Formatter<W>) -> fmt::Result {
        write_times(f, Glyph::Space, self.0)
    }
}

/// Spaces as wide as a text is shown.
#[derive(Clone, Copy)]
pub(crate) struct Below<'a>(pub(crate) &'a str);

impl fmt::Display for Below<'_> {
    ghost use Rattle.std.specs.Prelude.{Some};

    ghost output = { λ text. Some (encode_utf8_all (
        replicate (columns (shown (chars text.0.now))) blank)) };

    fn fmt<W: fmt::Write>(&self, f: &mut fmt::Formatter<W>) -> fmt::Result {
        write_below(f, self.0, Glyph::Space)
    }
}

/// The marks below a part of a line.
#[derive(Clone, Copy)]
pub(crate) enum Mark {
    /// Those of the range of a message of this level.
    Primary(Level),
    /// Those of a label.
    Secondary,
}

impl Mark {
    /// Returns the character of the marks.
    fn glyph(self) -> Glyph
        ensures { glyph_char result ≡ mark_glyph self }
    {
        match self {
            Mark::Primary(_) => Glyph::Caret,
            Mark::Secondary => Glyph::Dash,
        }
    }

    /// Returns the color of the marks.
    pub(crate) fn color(self) -> Color
        ensures { result ≡ mark_color self }
    {
        match self {
            Mark::Primary(level) => level.color(),
            Mark::Secondary => Color::BoldBlue,
        }
    }
}

/// Marks as wide as a text is shown, but at least one.
#[derive(Clone, Copy)]
pub(crate) struct Marks<'a> {
    pub(crate) mark: Mark,
    pub(crate) text: &'a str,
}

impl fmt::Display for Marks<'_> {
    ghost use Rattle.std.specs.Prelude.{Some};

    ghost output = { λ it. Some (encode_utf8_all (
        marks_below (mark_glyph it.mark) (chars it.text.now))) };

    fn fmt<W: fmt::Write>(&self, f: &mut fmt::Formatter<W>) -> fmt::Result {
        write_marks(f, self.text, self.mark.glyph())
    }
}

/// Writes `text` as it is shown.
fn write_text<W: fmt::Write>(f: &mut fmt::Formatter<W>, text: &str) -> fmt::Result
    ensures { WritesOnOk W.write_str_gives f.old result
        (encode_utf8_all (shown (chars text.now))) f.new }
{
    let (plain, mut rest) = split_plain(text);
    f.write_str(plain)?;
    while let Some((c, more)) = split_first_char(rest) {
        write_shown(f, c)?;
        let (plain, next) = split_plain(more);
        f.write_str(plain)?;
        rest = next;
    }
    Ok(())
}

/// Writes the marks below `text`.
fn write_marks<W: fmt::Write>(f: &mut fmt::Formatter<W>, text: &str, glyph: Glyph) -> fmt::Result
    ensures { WritesOnOk W.write_str_gives f.old result
        (encode_utf8_all (marks_below (glyph_char glyph) (chars text.now))) f.new }
{
    if text.chars().all(|c| shown_width(c) == 0) {
        write_times(f, glyph, 1)
    } else {
        write_below(f, text, glyph)
    }
}

/// Splits `text` after the printable ASCII at its front, which is shown as it is.
fn split_plain(text: &str) -> (&str, &str)
    ensures plain { IsTrue (list_all is_plain result.0.now) }
    ensures parts { chars text.now ≡ result.0.now ++ chars result.1.now }
    ensures bytes { text.now ≡ result.0.now ++ result.1.now }
    ensures rest { IsUtf8 result.1.now }
{
    text.split_at(plain_len(text.as_bytes()))
}

/// Returns the number of bytes at the front of `bytes` that are printable ASCII.
fn plain_len(bytes: &[u8]) -> usize
    ensures { result ≡ prefix_len is_plain bytes.now }
{
    bytes.iter().take_while(|b| is_plain(**b)).count()
}

/// Returns `true` if `byte` is printable ASCII.
fn is_plain(byte: u8) -> bool
    ensures { result ≡ is_plain byte }
{
    matches!(byte, b' '..=b'~')
}

/// Writes `c` as it is shown.
fn write_shown<W: fmt::Write>(f: &mut fmt::Formatter<W>, c: char) -> fmt::Result
    ensures { WritesOnOk W.write_str_gives f.old result (encode_utf8_all (shown_char c)) f.new }
{
    if c == '\t' {
        return write_times(f, Glyph::Space, TAB_WIDTH);
    }
    if is_printable(c) {
        return f.write_char(c);
    }
    for part in c.escape_unicode() {
        f.write_char(part)?;
    }
    Ok(())
}

/// Returns the number of columns in which `c` is shown.
pub(crate) fn shown_width(c: char) -> usize
    ensures { result ≡ columns (shown_char c) }
{
    if matches!(c, ' '..='~') {
        return 1;
    }
    if c == '\t' {
        return TAB_WIDTH;
    }
    if is_printable(c) {
        return c.width().unwrap_or(0);
    }
    c.escape_unicode().count()
}

/// Writes `glyph` once for each column of `text`.
fn write_below<W: fmt::Write>(f: &mut fmt::Formatter<W>, text: &str, glyph: Glyph) -> fmt::Result
    ensures { WritesOnOk W.write_str_gives f.old result
        (encode_utf8_all (replicate (columns (shown (chars text.now))) (glyph_char glyph))) f.new }
{
    let (plain, mut rest) = split_plain(text);
    write_times(f, glyph, plain.len())?;
    while let Some((c, more)) = split_first_char(rest) {
        write_times(f, glyph, shown_width(c))?;
        let (plain, next) = split_plain(more);
        write_times(f, glyph, plain.len())?;
        rest = next;
    }
    Ok(())
}

fn write_times<W: fmt::Write>(f: &mut fmt::Formatter<W>, glyph: Glyph, count: usize) -> fmt::Result
    ensures { WritesOnOk W.write_str_gives f.old result
        (encode_utf8_all (replicate count (glyph_char glyph))) f.new }
{
    let run = glyph.run();
    let mut left = count;
    while left > 0 {
        let len = left.min(RUN_LEN);
        f.write_str(&run[..len])?;
        left -= len;
    }
    Ok(())
}
