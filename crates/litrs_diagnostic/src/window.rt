//! The part of a line that is shown in a given width.
ghost use Rattle.std.specs.Prelude.{◌≡◌, ◌<◌, ◌≤◌, ◌-◌, ◌++◌, ◌∷◌, ◌⊎◌, [], IfSome, IfNone, List, ℕ, length};
ghost use Rattle.std.specs.Char.{encode_utf8};
ghost use Rattle.std.specs.Str.{chars, IsUtf8};
ghost use Rattle.litrs_diagnostic.specs.Shown.{shown, columns};
ghost use Rattle.litrs_diagnostic.specs.Window.{prefix_within, suffix_within, is_shorter, fitted};
ghost use Rattle.litrs_diagnostic.specs.Rows.{line_of, window_of};

use crate::lines::Line;
use crate::marks::shown_width;
use litrs_base::split_first_char;

/// The part of a line that is shown, and the ends at which the line is cut.
#[derive(Clone, Copy)]
pub(crate) struct Window<'a> {
    pub(crate) before: &'a str,
    pub(crate) marked: &'a str,
    pub(crate) after: &'a str,
    pub(crate) is_cut_before: bool,
    pub(crate) is_cut_after: bool,
}

/// Returns the part of `line` that is shown in `width` columns.
pub(crate) fn fitted(line: Line<'_>, width: usize) -> Window<'_>
    ensures { window_of result ≡ fitted width (line_of line.entry) }
{
    let (marked, rest) = prefix_within(line.marked, width);
    if is_shorter(marked, line.marked) {
        return Window {
            before: "",
            marked,
            after: "",
            is_cut_before: is_shorter("", line.before),
            is_cut_after: true,
        };
    }
    let (_, spare) = prefix_within(line.after, rest);
    let room = spare.max(rest / 2);
    let (before, left) = suffix_within(line.before, room);
    let (after, _) = prefix_within(line.after, rest - (room - left));
    Window {
        before,
        marked: line.marked,
        after,
        is_cut_before: is_shorter(before, line.before),
        is_cut_after: is_shorter(after, line.after),
    }
}

/// Returns `true` if `part`, a prefix or a suffix of `text`, has fewer characters than `text`. It
/// then has fewer bytes.
fn is_shorter(part: &str, text: &str) -> bool
    requires { (rest : List ℕ)
        × ((text.now ≡ part.now ++ rest) ⊎ (text.now ≡ rest ++ part.now)) }
    ensures { result ≡ is_shorter (chars part.now) (chars text.now) }
{
    part.len() < text.len()
}

/// Returns the longest prefix of `text` that is shown in `width` columns, and the number of columns
/// that are left.
fn prefix_within(text: &str, width: usize) -> (&str, usize)
    ensures cut { (rest : List ℕ) × (text.now ≡ result.0.now ++ rest) }
    ensures prefix { chars result.0.now ≡ prefix_within width (chars text.now) }
    ensures left { result.1 ≡ width - columns (shown (chars result.0.now)) }
    ensures fits { columns (shown (chars result.0.now)) ≤ width }
{
    let mut left = width;
    let mut rest = text;
    while let Some((c, more)) = split_first_char(rest) {
        let columns = shown_width(c);
        if columns > left {
            break;
        }
        left -= columns;
        rest = more;
    }
    let (prefix, _) = text.split_at(text.len() - rest.len());
    (prefix, left)
}

/// Returns the longest suffix of `text` that is shown in `width` columns, and the number of columns
/// that are left.
fn suffix_within(text: &str, width: usize) -> (&str, usize)
    ensures cut { (rest : List ℕ) × (text.now ≡ rest ++ result.0.now) }
    ensures suffix { chars result.0.now ≡ suffix_within width (chars text.now) }
    ensures left { result.1 ≡ width - columns (shown (chars result.0.now)) }
    ensures fits { columns (shown (chars result.0.now)) ≤ width }
{
    let mut left = width;
    let mut rest = text;
    while let Some((more, c)) = split_last_char(rest) {
        let columns = shown_width(c);
        if columns > left {
            break;
        }
        left -= columns;
        rest = more;
    }
    let (_, suffix) = text.split_at(rest.len());
    (suffix, left)
}

/// Returns the last character of `text` after the text before it, or `None` if `text` is empty.
fn split_last_char(text: &str) -> Option<(&str, char)>
    ensures empty { IfNone result (chars text.now ≡ []) }
    ensures parts { IfSome result (λ parts. chars text.now ≡ chars parts.0.now ++ parts.1 ∷ []) }
    ensures bytes { IfSome result (λ parts. text.now ≡ parts.0.now ++ encode_utf8 parts.1) }
    ensures rest { IfSome result (λ parts. IsUtf8 parts.0.now) }
    ensures shorter { IfSome result (λ parts. length parts.0.now < length text.now) }
{
    let mut chars = text.chars();
    let last = chars.next_back()?;
    Some((chars.as_str(), last))
}
