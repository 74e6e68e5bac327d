//! Spans of tokens.
ghost use Rattle.std.specs.Prelude.{◌≡◌, ◌≤◌};
ghost use Rattle.litrs_token.specs.Place.{call_site};

use std::marker::Model;

/// The range of bytes of a token in its source.
#[derive(Clone, Copy, Debug, PartialEq, Eq)]
pub struct Span {
    start: usize,
    end: usize,
}

impl Model for Span {
    ghost use Rattle.std.specs.Prelude.{◌≤◌};
    ghost use Rattle.litrs_token.specs.Place.{Place};

    ghost Value = { Place };

    ghost view = { λ s. record { start = s.start; end = s.end } };

    ghost inverse = { λ p. record { start = p.start; end = p.end } };

    ghost invariant = { λ s. s.start ≤ s.end };
}

impl Span {
    /// Creates a span of the bytes from `start` up to `end`. `start` is at most `end`.
    ///
    /// ```
    /// use litrs_token::Span;
    ///
    /// let span = Span::new(2, 5);
    /// assert_eq!(rt; (span.start(), span.end()), (2, 5));
    /// ```
    pub fn new(start: usize, end: usize) -> Span
        requires { start ≤ end }
        ensures start { result.start ≡ start }
        ensures end { result.end ≡ end }
    {
        Span { start, end }
    }

    /// Returns the span of a token that does not come from a source: 0..0.
    pub fn call_site() -> Span
        ensures { result ≡ call_site }
    {
        Span { start: 0, end: 0 }
    }

    /// Returns the place of the first byte, in bytes: 2 for 2..5.
    pub fn start(&self) -> usize
        ensures { result ≡ self.now.start }
    {
        self.start
    }

    /// Returns the place after the last byte, in bytes: 5 for 2..5.
    pub fn end(&self) -> usize
        ensures end { result ≡ self.now.end }
        ensures in_order { self.now.start ≤ result }
    {
        self.end
    }
}
