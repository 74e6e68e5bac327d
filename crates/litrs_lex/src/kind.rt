//! The fronts of texts.
ghost use Rattle.litrs_lex.specs.Front.{IsFront};

use crate::bool::cut_bool;
use litrs_base::StringKind;

/// The front of a text, which decides as which kind of literal it is parsed. See
/// [the reference][ref].
///
/// [ref]: https://doc.rust-lang.org/reference/tokens.html#literals
#[derive(Clone, Copy, Debug, PartialEq, Eq)]
pub enum Front {
    /// The text is empty.
    Empty,
    /// The text is this bool.
    Bool(bool),
    /// A decimal digit.
    Number,
    /// `'`.
    Char,
    /// `b'`.
    Byte,
    /// The front of a quoted string: `"`, `b"` or `c"`.
    Quoted(StringKind),
    /// The front of a raw string: `r`, `br` or `cr`.
    Raw(StringKind),
    /// The text does not start like any literal.
    Other,
}

impl Front {
    /// Returns the front of `text`: for `b"a` that is the front of a quoted byte string.
    #[tactic(auto, unfolding(litrs_grammar::specs::LiteralRefusals::dispatch))]
    #[inline(always)]
    pub fn of(text: &str) -> Front
        ensures { IsFront result text.now }
    {
        match text.as_bytes() {
            [] => Front::Empty,
            // All letters have one branch, so a name is not compared with each quote and digit.
            [first, ..] if *first >= b'A' => match text.as_bytes() {
                [b't' | b'f', ..] => match cut_bool(text) {
                    Some(value) => Front::Bool(value),
                    None => Front::Other,
                },
                [b'r', ..] => Front::Raw(StringKind::String),
                [b'b', rest @ ..] => match rest {
                    [b'\'', ..] => Front::Byte,
                    [b'"', ..] => Front::Quoted(StringKind::ByteString),
                    [b'r', ..] => Front::Raw(StringKind::ByteString),
                    _ => Front::Other,
                },
                [b'c', rest @ ..] => match rest {
                    [b'"', ..] => Front::Quoted(StringKind::CString),
                    [b'r', ..] => Front::Raw(StringKind::CString),
                    _ => Front::Other,
                },
                _ => Front::Other,
            },
            [b'0'..=b'9', ..] => Front::Number,
            [b'\'', ..] => Front::Char,
            [b'"', ..] => Front::Quoted(StringKind::String),
            _ => Front::Other,
        }
    }
}
