//! The end of a run.
ghost use Rattle.std.specs.Prelude.{◌≡◌, ◌≤◌, ◌<◌, ◌+◌, ℕ, not, eqb, bit_and, get_or, length, drop, IsTrue};
ghost use Rattle.std.specs.List.{prefix_len};
ghost use Rattle.litrs_base.specs.Characters.{is_blank};
ghost use Rattle.litrs_lex.specs.Run.{is_in_run};
ghost use Rattle.litrs_lex.specs.declared.run.TheConstants.{CLASSES};

use litrs_base::IntegerBase;

/// A class of bytes that form a run.
#[derive(Clone, Copy, Debug, PartialEq, Eq)]
pub enum Run {
    /// Digits of the base and underscores.
    Digits(IntegerBase),
    /// ASCII letters, decimal digits and underscores.
    Identifier,
    /// Spaces, tabs and LFs.
    Blanks,
    /// `#`.
    Hashes,
}

/// The classes of each byte, one bit each: a digit of base 2, 8, 10 or 16, an ASCII letter, an
/// underscore, a blank, `#`.
static CLASSES: [u8; 256] = *b"\
    \0\0\0\0\0\0\0\0\0\x40\x40\0\0\0\0\0\0\0\0\0\0\0\0\0\0\0\0\0\0\0\0\0\
    \x40\0\0\x80\0\0\0\0\0\0\0\0\0\0\0\0\x0f\x0f\x0e\x0e\x0e\x0e\x0e\x0e\x0c\x0c\0\0\0\0\0\0\
    \0\x18\x18\x18\x18\x18\x18\x10\x10\x10\x10\x10\x10\x10\x10\x10\
    \x10\x10\x10\x10\x10\x10\x10\x10\x10\x10\x10\0\0\0\0\x20\
    \0\x18\x18\x18\x18\x18\x18\x10\x10\x10\x10\x10\x10\x10\x10\x10\
    \x10\x10\x10\x10\x10\x10\x10\x10\x10\x10\x10\0\0\0\0\0\
    \0\0\0\0\0\0\0\0\0\0\0\0\0\0\0\0\0\0\0\0\0\0\0\0\0\0\0\0\0\0\0\0\
    \0\0\0\0\0\0\0\0\0\0\0\0\0\0\0\0\0\0\0\0\0\0\0\0\0\0\0\0\0\0\0\0\
    \0\0\0\0\0\0\0\0\0\0\0\0\0\0\0\0\0\0\0\0\0\0\0\0\0\0\0\0\0\0\0\0\
    \0\0\0\0\0\0\0\0\0\0\0\0\0\0\0\0\0\0\0\0\0\0\0\0\0\0\0\0\0\0\0\0";

/// Returns bits of [`CLASSES`]: a byte has one of them if and only if it is in the run.
#[inline(always)]
fn classes(run: Run) -> u8
    ensures { (byte : ℕ) → byte < 256 →
        not (eqb (bit_and (get_or CLASSES byte 0) result) 0) ≡ is_in_run run byte }
{
    match run {
        Run::Digits(IntegerBase::Binary) => 0x21,
        Run::Digits(IntegerBase::Octal) => 0x22,
        Run::Digits(IntegerBase::Decimal) => 0x24,
        Run::Digits(IntegerBase::Hexadecimal) => 0x28,
        Run::Identifier => 0x34,
        Run::Blanks => 0x40,
        Run::Hashes => 0x80,
    }
}

#[inline(always)]
fn is_in_run(byte: u8, run: Run) -> bool
    ensures { result ≡ is_in_run run byte }
{
    CLASSES[byte as usize] & classes(run) != 0
}

/// Returns the length of the run at the front of `bytes`.
///
/// ```
/// use litrs_base::IntegerBase;
/// use litrs_lex::{Run, run_end};
///
/// assert_eq!(rt; run_end(b"1_0a2", Run::Digits(IntegerBase::Decimal)), 3);
/// assert_eq!(rt; run_end(b"1_0a2", Run::Digits(IntegerBase::Hexadecimal)), 5);
/// assert_eq!(rt; run_end("größe".as_bytes(), Run::Identifier), 2);
/// assert_eq!(rt; run_end(b" \t\na", Run::Blanks), 3);
/// assert_eq!(rt; run_end(b"##\"#", Run::Hashes), 2);
/// ```
///
/// The Rust Reference, Tokens, Integer literals, String literals and Raw string literals, and
/// Identifiers.
#[inline(always)]
pub fn run_end(bytes: &[u8], run: Run) -> usize
    ensures run { result ≡ prefix_len (is_in_run run) bytes.now }
    ensures within { result ≤ length bytes.now }
{
    bytes.iter().take_while(|b| is_in_run(**b, run)).count()
}

/// Returns the number of blanks at the front of `bytes`. Most are spaces, which are compared by
/// four, and the last of them one by one.
#[inline(always)]
pub(crate) fn blanks_len(bytes: &[u8]) -> usize
    ensures run { result ≡ prefix_len is_blank bytes.now }
    ensures within { result ≤ length bytes.now }
{
    if bytes.len() > 0 && bytes[0] > b' ' {
        return 0;
    }
    let mut len = 0;
    while bytes.len() - len >= 4 && are_spaces(bytes, len) {
        len += 4;
    }
    match &bytes[len..] {
        [b, ..] if *b > b' ' => len,
        [b' ', b, ..] if *b > b' ' => len + 1,
        [b' ', b' ', b, ..] if *b > b' ' => len + 2,
        [b' ', b' ', b' ', b, ..] if *b > b' ' => len + 3,
        rest => len + run_end(rest, Run::Blanks),
    }
}

/// Returns `true` if the four bytes from `at` on are spaces.
#[inline(always)]
fn are_spaces(bytes: &[u8], at: usize) -> bool
    requires { at + 4 ≤ length bytes.now }
    ensures { IsTrue result → prefix_len is_blank (drop at bytes.now)
        ≡ 4 + prefix_len is_blank (drop (at + 4) bytes.now) }
{
    u32::from_le_bytes([bytes[at], bytes[at + 1], bytes[at + 2], bytes[at + 3]]) == 0x2020_2020
}
