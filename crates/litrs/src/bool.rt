//! Bool literals.
ghost use Rattle.std.specs.Prelude.{◌≡◌, IfOk, IfErr};
ghost use Rattle.std.specs.Str.{chars};
ghost use Rattle.litrs_base.specs.Derivations.{IsOnlyDerivation};
ghost use Rattle.litrs_grammar.specs.Literal.{kind_parse, bool_literal};
ghost use Rattle.litrs_grammar.specs.Refused.{IsRefused};

use litrs_lex::{ParseError, ParseErrorKind, cut_bool};
use std::fmt;

/// A bool literal: `true` or `false`. See [the reference][ref].
///
/// [ref]:
/// https://doc.rust-lang.org/reference/expressions/literal-expr.html#boolean-literal-expressions
#[derive(Clone, Copy, Debug, PartialEq, Eq)]
pub enum BoolLit {
    /// `false`.
    False,
    /// `true`.
    True,
}

impl BoolLit {
    ghost use Rattle.litrs.specs.BoolLiteral.{bool_value};
    ghost use Rattle.litrs_grammar.specs.Bool.{IsBool, bool_text};

    /// Parses `s` as a bool.
    ///
    /// # Errors
    ///
    /// Returns `InvalidLiteral` without a span if `s` is neither `true` nor `false`, for example
    /// `True` or the empty text.
    pub fn parse(s: &str) -> Result<BoolLit, ParseError>
        ensures ok { IfOk result (λ lit. IsOnlyDerivation (IsBool (chars s.now)) (bool_value lit)) }
        ensures refused { IfErr result (IsRefused (kind_parse bool_literal) (chars s.now)) }
    {
        match cut_bool(s) {
            Some(value) => Ok(BoolLit::new(value)),
            None => Err(ParseError::new(None, ParseErrorKind::InvalidLiteral)),
        }
    }

    /// Creates the literal of `value`: `BoolLit::True` for `true`.
    #[inline(always)]
    pub(crate) fn new(value: bool) -> BoolLit
        ensures { bool_value result ≡ value }
    {
        if value { BoolLit::True } else { BoolLit::False }
    }

    /// Returns the value: `true` for `BoolLit::True`.
    pub fn value(self) -> bool
        ensures { result ≡ bool_value self }
    {
        match self {
            BoolLit::False => false,
            BoolLit::True => true,
        }
    }

    /// Returns the text: `"true"` for `BoolLit::True`.
    pub fn as_str(&self) -> &'static str
        ensures { result.now ≡ bool_text (bool_value self.now) }
    {
        match self {
            BoolLit::False => "false",
            BoolLit::True => "true",
        }
    }
}

impl fmt::Display for BoolLit {
    ghost use Rattle.std.specs.Prelude.{Some};
    ghost use Rattle.litrs.specs.BoolLiteral.{bool_value};
    ghost use Rattle.litrs_grammar.specs.Bool.{bool_text};

    ghost output = { λ b. Some (bool_text (bool_value b)) };

    fn fmt<W: fmt::Write>(&self, f: &mut fmt::Formatter<W>) -> fmt::Result {
        f.pad(self.as_str())
    }
}
