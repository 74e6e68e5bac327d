//! Punctuation.
ghost use Rattle.std.specs.Prelude.{◌≡◌};
ghost use Rattle.litrs_token.specs.Place.{call_site};

use crate::span::Span;
use std::marker::Model;

/// The spacing between punctuation and the token after it.
#[derive(Clone, Copy, Debug, PartialEq, Eq)]
pub enum Spacing {
    /// More punctuation follows directly, for example after the `+` of `+=`.
    Joint,
    /// No punctuation follows directly.
    Alone,
}

/// A punctuation character, for example `+`.
#[derive(Debug, Drop)]
pub struct Punct {
    character: char,
    spacing: Spacing,
    span: Span,
}

impl Model for Punct {
    ghost use Rattle.litrs_token.specs.Tokens.{PunctToken};

    ghost Value = { PunctToken };

    ghost view = { λ p. record { character = p.character; spacing = p.spacing; span = p.span } };
}

impl Punct {
    /// Creates punctuation from `character`, with the call-site span. `character` is not checked.
    ///
    /// ```
    /// use litrs_token::{Punct, Spacing, Span};
    ///
    /// // The first character of `+=`.
    /// let plus = Punct::new('+', Spacing::Joint);
    /// assert_eq!(rt; plus.as_char(), '+');
    /// assert_eq!(rt; plus.span(), Span::call_site());
    /// ```
    pub fn new(character: char, spacing: Spacing) -> Punct
        ensures character { result.character ≡ character }
        ensures spacing { result.spacing ≡ spacing }
        ensures span { result.span ≡ call_site }
    {
        Punct {
            character,
            spacing,
            span: Span::call_site(),
        }
    }

    /// Returns the character, for example `+`.
    pub fn as_char(&self) -> char
        ensures { result ≡ self.now.character }
    {
        self.character
    }

    /// Returns the spacing: for the `+` in `+=` that is `Joint`.
    pub fn spacing(&self) -> Spacing
        ensures { result ≡ self.now.spacing }
    {
        self.spacing
    }

    /// Returns the span of this punctuation: for the `!` in `foo!` that is 3..4.
    pub fn span(&self) -> Span
        ensures { result ≡ self.now.span }
    {
        self.span
    }

    /// Sets the span of this punctuation.
    ///
    /// ```
    /// use litrs_token::{Punct, Spacing, Span};
    ///
    /// let mut mark = Punct::new('!', Spacing::Alone);
    /// mark.set_span(Span::new(3, 4));
    /// assert_eq!(rt; mark.span(), Span::new(3, 4));
    /// ```
    pub fn set_span(&mut self, span: Span)
        ensures span { self.new.span ≡ span }
        ensures character { self.new.character ≡ self.old.character }
        ensures spacing { self.new.spacing ≡ self.old.spacing }
    {
        self.span = span;
    }
}
