//! The words of a line, and its faults.
ghost use Rattle.std.specs.Prelude.{◌≡◌, ◌++◌};
ghost use Rattle.litrs.specs.CharEnd.{IsCutBy};

use litrs_value::ValueError;
use std::fmt;
use std::ops::Range;

/// The reason why a line is invalid.
#[derive(Debug, Drop)]
pub enum Problem {
    /// The line lacks this.
    Expected(&'static str),
    /// A block comment is not closed.
    OpenComment,
    /// The value is malformed or does not fit the setting.
    Value(ValueError),
}

impl fmt::Display for Problem {
    ghost use Rattle.std.specs.Prelude.{Some};
    ghost use Rattle.uses_attributes.specs.Settings.{problem_text};

    ghost output = { λ problem. Some (problem_text problem) };

    fn fmt<W: fmt::Write>(&self, f: &mut fmt::Formatter<W>) -> fmt::Result {
        match self {
            Problem::Expected(expected) => write!(f, "expected {expected}"),
            Problem::OpenComment => f.write_str("unterminated block comment"),
            Problem::Value(error) => write!(f, "{error}"),
        }
    }
}

/// A fault of a line.
#[derive(Drop)]
pub struct Fault<'a> {
    /// The reason why the line is invalid.
    pub problem: Problem,
    /// The end of the line at which the problem is.
    pub at: &'a str,
    /// The part of `at` to mark, in bytes.
    pub span: Range<usize>,
    ghost marks: { IsCutBy at.now span },
}

/// A token other than white space, a line comment and a whole block comment, or `""` at the end of
/// a line.
#[derive(Clone, Copy)]
pub struct Word<'a> {
    /// The text from the token on.
    pub at: &'a str,
    /// The token.
    pub text: &'a str,
    /// The text after the token.
    pub rest: &'a str,
    ghost spells: { text.now ++ rest.now ≡ at.now },
}
