//! Texts that begin a literal: they are one, or some longer text is one.
ghost use Rattle.std.specs.Prelude.{◌↔◌, IsTrue};
ghost use Rattle.std.specs.Str.{chars};
ghost use Rattle.litrs_grammar.specs.Literal.{literal_parse, Begins};

use char::{byte_goes_on, char_goes_on};
use litrs_lex::Front;
use number::number_goes_on;
use quoted::quoted_goes_on;
use raw::raw_goes_on;
use word::is_prefix_of_a_front;

mod char;
pub(crate) mod front;
mod number;
mod quoted;
mod raw;
mod suffix;
mod word;

/// Returns `true` if `text`, or `text` with some text appended, is a literal of any kind.
///
/// It is `true` for the empty text, `fals`, `12`, `1e+_`, `'a`, `"a"_` and `"\u{d800`, and `false`
/// for `cat`, `0xg`, `1e+x`, `'ab`, `"\q` and `"\u{00d800`. If it is `false`, no longer text is a
/// literal. It is `false` after each final error of [`Literal::parse`](crate::Literal::parse), and
/// `true` after each open one. It does not allocate. See [the reference][ref].
///
/// A list of literals may be cut at the first comma that is not within a literal, by
/// `!goes_on(&text[..comma + 1])`. Each call reads the text from its start, so this takes time
/// quadratic in the number of commas inside one string. The crate `litrs_prefix` finds the literal
/// at the front of a longer text in one pass; the program `uses_attributes` reads its lists with
/// it.
///
/// [ref]: https://doc.rust-lang.org/reference/tokens.html#literals
// Each kind is answered by a call, so a word is answered without the frames of the other kinds.
pub fn goes_on(text: &str) -> bool
    ensures { IsTrue result ↔ Begins literal_parse (chars text.now) }
{
    match Front::of(text) {
        Front::Empty | Front::Bool(_) => true,
        Front::Number => number_goes_on(text),
        Front::Char => char_goes_on(text),
        Front::Byte => byte_goes_on(text),
        Front::Quoted(kind) => quoted_goes_on(text, kind),
        Front::Raw(kind) => raw_goes_on(text, kind),
        Front::Other => is_prefix_of_a_front(text.as_bytes()),
    }
}
