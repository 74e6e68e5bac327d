//! Laws of lines.
ghost use Rattle.litrs_lines.specs.LinesLaws.{LinesSpellTheBytes, NoLineFeedInLines, LinesAreUnique, OneCrEndsALine, LinesWithoutCr};

/// Proves that the parts that an LF ends, with an LF after each, and the part after the last LF
/// spell the bytes.
pub fn lines_spell_the_bytes()
    ensures { LinesSpellTheBytes }
{}

/// Proves that no part contains an LF.
pub fn no_line_feed_in_lines()
    ensures { NoLineFeedInLines }
{}

/// Proves that no other parts spell the same bytes.
pub fn lines_are_unique()
    ensures { LinesAreUnique }
{}

/// Proves that one CR directly before an LF belongs to the line end, and nothing else does.
pub fn one_cr_ends_a_line()
    ensures { OneCrEndsALine }
{}

/// Proves that bytes without CR have the lines that an LF alone ends, and so the same reports.
pub fn lines_without_cr()
    ensures { LinesWithoutCr }
{}
