//! Strings whose bodies are open at the end of a line.
//!
//! The string that is open after some lines is open with more lines after them too, up to where it
//! was read. So only the next line is read.
ghost use Rattle.std.specs.Prelude.{⊤, drop};
ghost use Rattle.std.specs.Str.{chars, IsCharBoundary};
ghost use Rattle.litrs_base.specs.Quotes.{switches_of};
ghost use Rattle.litrs_lex.specs.BodyStop.{EndsWithin, StopsBy};
ghost use Rattle.litrs_lex.specs.Reading.{IsItemsEnd};
ghost use Rattle.litrs_lines.specs.Open.{IsAfter, IsOpen, IsKnown, IsQuotedTo, IsContinuedTo, IsRawTo};

use litrs_lex::body_stop::{BodyStop, Within, quoted_stop};
use litrs_lex::raw::{body_end, open_raw};
use litrs_lex::{Front, InByteString, InCString, InString, Run, StringKind, run_end};

/// The part of a string in which a place is.
#[derive(Clone, Copy)]
pub(crate) enum Body {
    /// A quoted body, between two of its items.
    Quoted,
    /// A continuation of a quoted body, which takes all spaces, tabs and LFs that follow.
    Continuation,
    /// A raw body, by the number of hashes around it.
    Raw(usize),
}

/// A string whose body is open, up to where it was read.
#[derive(Clone, Copy)]
pub(crate) struct Open {
    kind: StringKind,
    body: Body,
    /// The place up to which it was read, in bytes.
    place: usize,
}

/// Returns the string that is open after `text` and an LF, or `None` if they do not begin a
/// literal. If `known` is open in `text`, only what follows its place is read.
#[inline(always)]
pub(crate) fn open_after(text: &str, known: Option<Open>) -> Option<Open>
    requires { IsKnown text.now known }
    ensures { IsAfter text.now result }
{
    match known {
        Some(string) => next_line(text, string),
        None => first_line(text),
    }
}

/// Like [`open_after`], if nothing is known.
fn first_line(text: &str) -> Option<Open>
    ensures { IsAfter text.now result }
{
    match Front::of(text) {
        Front::Quoted(kind) => quoted_line(text, kind, kind.front_len()),
        Front::Raw(kind) => match open_raw(text, kind.front_len()) {
            Ok((hashes, place)) => raw_line(text, kind, hashes, place),
            Err(_) => None,
        },
        Front::Number => None,
        Front::Char => None,
        Front::Byte => None,
        Front::Empty => None,
        Front::Bool(_) => None,
        Front::Other => None,
    }
}

/// Like [`open_after`], if `string` is open.
#[inline(always)]
fn next_line(text: &str, string: Open) -> Option<Open>
    requires { IsOpen text.now string }
    ensures { IsAfter text.now result }
{
    match string.body {
        Body::Quoted => quoted_line(text, string.kind, string.place),
        Body::Continuation => continued_line(text, string.kind, string.place),
        Body::Raw(hashes) => raw_line(text, string.kind, hashes, string.place),
    }
}

/// Like [`next_line`], for a quoted body, with `place` between two of its items.
#[inline(always)]
fn quoted_line(text: &str, kind: StringKind, place: usize) -> Option<Open>
    requires { IsQuotedTo kind place text.now }
    ensures { IsAfter text.now result }
{
    let (end, stop) = stop_of(kind, text, place);
    match stop {
        BodyStop::Ended(within) => ended_line(text, kind, end, within),
        BodyStop::Quote => None,
        BodyStop::Refused => None,
    }
}

/// Like [`quoted_line`], if the text ends within the body.
#[inline(always)]
fn ended_line(text: &str, kind: StringKind, place: usize, within: Within) -> Option<Open>
    requires read { IsQuotedTo kind place text.now }
    requires ends { EndsWithin (switches_of kind) within (chars (drop place text.now)) }
    ensures { IsAfter text.now result }
{
    match within {
        Within::Items => Some(Open {
            kind,
            body: Body::Quoted,
            place,
        }),
        Within::Escape => Some(Open {
            kind,
            body: Body::Quoted,
            place,
        }),
        Within::Backslash => Some(Open {
            kind,
            body: Body::Continuation,
            place: text.len() + 1,
        }),
        Within::Continuation => Some(Open {
            kind,
            body: Body::Continuation,
            place: text.len() + 1,
        }),
        Within::PartOfEscape => None,
    }
}

/// Like [`quoted_stop`], for a body of `kind`, compiled for each.
#[inline(always)]
fn stop_of(kind: StringKind, text: &str, place: usize) -> (usize, BodyStop)
    requires { IsCharBoundary text.now place }
    ensures ends { IsItemsEnd (switches_of kind) text.now place (λ _. ⊤) result.0 }
    ensures stops { StopsBy (switches_of kind) (chars (drop result.0 text.now)) result.1 }
{
    match kind {
        StringKind::String => quoted_stop(text, place, InString),
        StringKind::ByteString => quoted_stop(text, place, InByteString),
        StringKind::CString => quoted_stop(text, place, InCString),
    }
}

/// Like [`next_line`], for a quoted body, with `place` in a continuation.
fn continued_line(text: &str, kind: StringKind, place: usize) -> Option<Open>
    requires { IsContinuedTo kind place text.now }
    ensures { IsAfter text.now result }
{
    let end = place + run_end(&text.as_bytes()[place..], Run::Blanks);
    if end == text.len() {
        Some(Open {
            kind,
            body: Body::Continuation,
            place: end + 1,
        })
    } else {
        quoted_line(text, kind, end)
    }
}

/// Like [`next_line`], for a raw body between `hashes` hashes.
#[inline(always)]
fn raw_line(text: &str, kind: StringKind, hashes: usize, place: usize) -> Option<Open>
    requires { IsRawTo kind hashes place text.now }
    ensures { IsAfter text.now result }
{
    let stop = body_end(text.as_bytes(), place, hashes, kind.switches());
    if stop == text.len() {
        Some(Open {
            kind,
            body: Body::Raw(hashes),
            place: stop + 1,
        })
    } else {
        None
    }
}
