//! The items of a body, read one by one.
ghost use Rattle.std.specs.Prelude.{◌≡◌, ◌==◌, ℕ, List, IsTrue, IsFalse, drop};
ghost use Rattle.litrs_base.specs.Characters.{backslash, line_feed};
ghost use Rattle.litrs_base.specs.Text.{first_passes};
ghost use Rattle.litrs_base.specs.declared.quotes.Switches.{Switches};
ghost use Rattle.litrs_grammar.specs.Escape.{Escape, escape_value};
ghost use Rattle.litrs_grammar.specs.Quoted.{Item};
ghost use Rattle.litrs_build.specs.BodyItem.{BeginsWithItem, IsItemRead, IsLetterOf};
ghost use Rattle.litrs_build.specs.Rewriting.{own_spelling};

use crate::spelling::Spelling;
use litrs_lex::{Run, Switches, Unescape, run_end, unescape_with};

/// An item of a body.
#[derive(Clone, Copy)]
pub(crate) enum BodyItem {
    /// A character.
    Plain(char),
    /// An escape: its spelling in its own form, and its value.
    Escape(Spelling, Unescape),
    /// A continuation.
    Continuation,
}

/// Reads the item at the front of `rest`. Returns it and its length in bytes.
pub(crate) fn read_item(rest: &str, allowed: Switches) -> (BodyItem, usize)
    requires { (item : Item) × (after : List ℕ) × BeginsWithItem allowed rest.now item after }
    ensures { (item : Item) (after : List ℕ) → BeginsWithItem allowed rest.now item after →
        IsItemRead result.0 result.1 item }
{
    let bytes = rest.as_bytes();
    if !starts_with(bytes, b'\\') {
        return read_plain(rest);
    }
    let after = &bytes[1..];
    if starts_with(after, b'\n') {
        (
            BodyItem::Continuation,
            2 + run_end(&after[1..], Run::Blanks),
        )
    } else {
        read_escape(rest, allowed)
    }
}

pub(crate) fn starts_with(bytes: &[u8], byte: u8) -> bool
    ensures { result ≡ first_passes (λ c. c == byte) bytes.now }
{
    match bytes {
        [first, ..] => *first == byte,
        [] => false,
    }
}

/// Reads the character at the front of `rest`.
fn read_plain(rest: &str) -> (BodyItem, usize)
    requires item { (w : Switches) × (item : Item) × (after : List ℕ)
        × BeginsWithItem w rest.now item after }
    requires plain { IsFalse (first_passes (λ c. c == backslash) rest.now) }
    ensures { (w : Switches) (item : Item) (after : List ℕ) →
        BeginsWithItem w rest.now item after → IsItemRead result.0 result.1 item }
{
    match rest.chars().next() {
        Some(c) => (BodyItem::Plain(c), c.len_utf8()),
        None => unreachable!(),
    }
}

/// Reads the escape at the front of `rest`.
fn read_escape(rest: &str, allowed: Switches) -> (BodyItem, usize)
    requires item { (item : Item) × (after : List ℕ) × BeginsWithItem allowed rest.now item after }
    requires escape { IsTrue (first_passes (λ c. c == backslash) rest.now) }
    requires letter { IsFalse (first_passes (λ c. c == line_feed) (drop 1 rest.now)) }
    ensures { (item : Item) (after : List ℕ) → BeginsWithItem allowed rest.now item after →
        IsItemRead result.0 result.1 item }
{
    match unescape_with(rest, allowed) {
        Ok((value, len)) => {
            let spelling = own_spelling(rest.as_bytes()[1], value);
            (BodyItem::Escape(spelling, value), len)
        }
        Err(_) => unreachable!(),
    }
}

/// Returns the spelling, in its own form, of an escape with this value and with this letter after
/// the backslash.
fn own_spelling(letter: u8, value: Unescape) -> Spelling
    ensures { (e : Escape) → IsLetterOf letter e → value ≡ escape_value e →
        result ≡ own_spelling e }
{
    match value {
        Unescape::Unicode(c) => Spelling::Unicode(c),
        Unescape::Byte(b) => {
            if letter == b'x' {
                Spelling::Hex(b)
            } else {
                Spelling::Simple(char::from(letter))
            }
        }
    }
}
