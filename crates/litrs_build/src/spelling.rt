//! The spelling of a character or a byte between quotes.
ghost use Rattle.std.specs.Prelude.{◌≡◌, ◌≤◌, ◌<◌, ◌++◌, OnOk, string_bytes, encode_utf8_all};
ghost use Rattle.std.specs.Fmt.{digits};
ghost use Rattle.litrs_grammar.specs.Quoted.{item_text};
ghost use Rattle.litrs_build.specs.Spelling.{char_spelling, byte_spelling, is_escaped, is_shown, shown_or_number, is_upper, cased_digit, cased_item};

use crate::printable::is_printable;
use crate::style::Case;
use std::alloc::AllocError;
use std::fmt::Write;
use unicode::properties::is_grapheme_extend;

/// The spelling of a character or a byte.
#[derive(Clone, Copy)]
pub(crate) enum Spelling {
    /// The character itself.
    Plain(char),
    /// A backslash and this character.
    Simple(char),
    /// `\x` and two digits.
    Hex(u8),
    /// `\u{..}`.
    Unicode(char),
}

impl Spelling {
    /// Returns the spelling of `c` between such quotes. A character that is not printable is
    /// escaped, and so is a combining one that follows the opening quote or an escape.
    pub(crate) fn of_char(c: char, quote: char, follows_mark: bool) -> Spelling
        ensures { result ≡ char_spelling quote follows_mark c }
    {
        match c {
            '\0' => Spelling::Simple('0'),
            '\t' => Spelling::Simple('t'),
            '\n' => Spelling::Simple('n'),
            '\r' => Spelling::Simple('r'),
            _ if c == quote || c == '\\' => Spelling::Simple(c),
            _ => shown_or_number(c, follows_mark),
        }
    }

    /// Returns the spelling of `b` between such quotes.
    pub(crate) fn of_byte(b: u8, quote: char) -> Spelling
        ensures { result ≡ byte_spelling quote b }
    {
        if b.is_ascii() {
            Spelling::of_char(char::from(b), quote, false)
        } else {
            Spelling::Hex(b)
        }
    }

    pub(crate) fn is_escaped(self) -> bool
        ensures { result ≡ is_escaped self }
    {
        match self {
            Spelling::Plain(_) => false,
            Spelling::Simple(_) | Spelling::Hex(_) | Spelling::Unicode(_) => true,
        }
    }

    /// Returns its length in bytes.
    pub(crate) fn len(self) -> usize
        ensures { result ≤ 10 }
    {
        match self {
            Spelling::Plain(c) => c.len_utf8(),
            Spelling::Simple(_) => 2,
            Spelling::Hex(_) => 4,
            Spelling::Unicode(c) => 4 + hex_len(c),
        }
    }

    /// Appends it to `text`, with its hex digits in this case.
    ///
    /// # Errors
    ///
    /// Returns `AllocError` if `text` has no room for it and an allocation fails.
    pub(crate) fn push_to(self, text: &mut String, case: Case) -> Result<(), AllocError>
        ensures { OnOk result (string_bytes text.new
            ≡ string_bytes text.old ++ encode_utf8_all (item_text (cased_item case self))) }
    {
        match self {
            Spelling::Plain(c) => text.push(c),
            Spelling::Simple(c) => {
                text.push('\\')?;
                text.push(c)
            }
            Spelling::Hex(b) => {
                text.push_str("\\x")?;
                text.push(hex_digit(b / 16, case))?;
                text.push(hex_digit(b % 16, case))?;
                Ok(())
            }
            Spelling::Unicode(c) => {
                text.push_str("\\u{")?;
                push_hex(text, u32::from(c), case)?;
                text.push('}')?;
                Ok(())
            }
        }
    }
}

/// Returns the spelling of a character that has no short escape. This is itself if it is printable
/// and does not combine with the opening quote or an escape before it, otherwise its number.
fn shown_or_number(c: char, follows_mark: bool) -> Spelling
    ensures { result ≡ shown_or_number follows_mark c }
{
    if is_shown(c, follows_mark) {
        Spelling::Plain(c)
    } else if c.is_ascii() {
        Spelling::Hex(c as u8)
    } else {
        Spelling::Unicode(c)
    }
}

/// Returns `true` if a character without a short escape is not escaped.
fn is_shown(c: char, follows_mark: bool) -> bool
    ensures { result ≡ is_shown follows_mark c }
{
    is_printable(c) && !(follows_mark && is_grapheme_extend(c))
}

/// Returns the hex digit of a number below 16, in this case.
fn hex_digit(number: u8, case: Case) -> char
    requires { number < 16 }
    ensures { result ≡ cased_digit case number }
{
    let ten = match case {
        Case::Lower => b'a',
        Case::Upper => b'A',
    };
    if number < 10 {
        char::from(b'0' + number)
    } else {
        char::from(ten + (number - 10))
    }
}

/// Appends the hex digits of a number, in this case.
fn push_hex(text: &mut String, number: u32, case: Case) -> Result<(), AllocError>
    ensures { OnOk result (string_bytes text.new
        ≡ string_bytes text.old ++ digits 16 (is_upper case) number) }
{
    match case {
        Case::Lower => write!(text, "{number:x}"),
        Case::Upper => write!(text, "{number:X}"),
    }
}

/// Returns the number of hex digits of a character's number.
fn hex_len(c: char) -> usize
    ensures { result ≤ 6 }
{
    match u32::from(c) {
        0..=0xf => 1,
        0x10..=0xff => 2,
        0x100..=0xfff => 3,
        0x1000..=0xffff => 4,
        0x1_0000..=0xf_ffff => 5,
        _ => 6,
    }
}
