//! The style of a literal that is rewritten.

/// The style in which [`rewritten`](crate::rewritten) writes a literal.
#[derive(Clone, Copy, Debug, PartialEq, Eq)]
pub struct Style {
    /// The escapes of chars, bytes and quoted strings.
    pub escapes: Escapes,
    /// The case of the hex digits of an escape that is written anew.
    pub escape_digits: Case,
    /// The lines of quoted strings.
    pub lines: Lines,
    /// The case of the digits of integers, or `None` if each stays as it is.
    pub digits: Option<Case>,
    /// The groups of the digits of integers.
    pub groups: Groups,
    /// The case of the letter of exponents, or `None` if each stays as it is.
    pub exponents: Option<Case>,
    /// The groups of the digits of floats.
    pub float_groups: FloatGroups,
}

/// The escapes between quotes.
#[derive(Clone, Copy, Debug, PartialEq, Eq)]
pub enum Escapes {
    /// Characters and escapes stay as they are.
    Kept,
    /// Characters stay as they are. An escape keeps its form, and its digits are written anew: in
    /// the case of the style, and in `\u{..}` without `_` and leading zeros.
    Respelled,
    /// A character is escaped as [`char`](crate::char), [`byte`](crate::byte) or
    /// [`string`](crate::string) escapes it. An LF that `lines` keeps is not escaped, but a
    /// combining character after it is. So are a combining character and a blank after a kept
    /// continuation.
    Needed,
}

/// The case of hex digits, or of the letter of an exponent.
#[derive(Clone, Copy, Debug, PartialEq, Eq)]
pub enum Case {
    /// `a` to `f`.
    Lower,
    /// `A` to `F`.
    Upper,
}

/// The lines of a quoted string.
#[derive(Clone, Copy, Debug, PartialEq, Eq)]
pub enum Lines {
    /// Each LF and each continuation stays as it is.
    Kept,
    /// An LF is written as `\n`, and a continuation is left out.
    Joined,
}

/// The groups of digits.
#[derive(Clone, Copy, Debug, PartialEq, Eq)]
pub enum Groups {
    /// Each `_` stays where it is.
    Kept,
    /// The digits of an integer that has a `_` before its suffix are written in groups. Others stay
    /// as they are.
    Regrouped(GroupLens),
    /// All digits are written in groups.
    Grouped(GroupLens),
}

/// The number of digits of a group in each base, counted from the last digit. If it is 0, there are
/// no groups.
#[derive(Clone, Copy, Debug, PartialEq, Eq)]
pub struct GroupLens {
    /// The number in base two.
    pub binary: usize,
    /// The number in base eight.
    pub octal: usize,
    /// The number in base ten.
    pub decimal: usize,
    /// The number in base sixteen.
    pub hexadecimal: usize,
}

/// The groups of the digits of floats.
#[derive(Clone, Copy, Debug, PartialEq, Eq)]
pub enum FloatGroups {
    /// Each `_` stays where it is.
    Kept,
    /// The digits of a float with a `_` before the suffix are written in groups. Other floats stay.
    Regrouped(FloatGroupLens),
    /// The digits of all floats are written in groups.
    Grouped(FloatGroupLens),
}

/// The number of digits of a group in each part of a float. If it is 0, the part has no groups.
#[derive(Clone, Copy, Debug, PartialEq, Eq)]
pub struct FloatGroupLens {
    /// The number in the integer part, counted from the last digit.
    pub integer: usize,
    /// The number in the fraction, counted from the first digit.
    pub fraction: usize,
    /// The number in the exponent, counted from the last digit.
    pub exponent: usize,
}
