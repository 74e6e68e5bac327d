//! Kinds of tokens.
ghost use Rattle.std.specs.Prelude.{◌≡◌};
ghost use Rattle.litrs_lexer.specs.Token.{is_trivia};

/// The kind of a token.
#[derive(Clone, Copy, Debug, PartialEq, Eq)]
pub enum TokenKind {
    /// White space, for example a line feed and four spaces.
    Whitespace,
    /// A comment up to the end of its line, for example `// comment`. The line feed is not part
    /// of it.
    LineComment,
    /// A comment in `/*` and `*/`, for example `/* comment */`. Block comments nest.
    BlockComment,
    /// A block comment that is not closed: it extends to the end of the text.
    UnterminatedBlockComment,
    /// An identifier, a keyword or `_`, but not `true` and `false`.
    Ident,
    /// A raw identifier, for example `r#fn`.
    RawIdent,
    /// A reserved prefix: an identifier directly before `"`, `'` or `#`, for example `f` in `f"x"`.
    /// The quote or hash begins the next token.
    UnknownPrefix,
    /// A lifetime or loop label, for example `'a` or `'_`.
    Lifetime,
    /// A raw lifetime, for example `'r#fn`.
    RawLifetime,
    /// A reserved prefix: a lifetime directly before `#`, for example `'f` in `'f#`.
    UnknownPrefixLifetime,
    /// A literal with its suffix, for example `0xFF_u8`, `"a"` or `true`.
    Literal,
    /// The beginning of a literal that is invalid or not closed, for example `0b12` or `"a`.
    MalformedLiteral,
    /// One character of punctuation, for example `+`, `(` or `#`. `>>` is two tokens.
    Punctuation,
    /// One character that no token begins with, for example `\`, a backtick or an emoji.
    Unknown,
}

impl TokenKind {
    /// Returns `true` if the token is white space or a comment, a documentation comment or an
    /// unterminated one too.
    pub fn is_trivia(self) -> bool
        ensures { result ≡ is_trivia self }
    {
        match self {
            TokenKind::Whitespace => true,
            TokenKind::LineComment => true,
            TokenKind::BlockComment => true,
            TokenKind::UnterminatedBlockComment => true,
            _ => false,
        }
    }
}

/// The item that a documentation comment documents.
#[derive(Clone, Copy, Debug, PartialEq, Eq)]
pub enum DocStyle {
    /// The item that contains the comment: `//!` or `/*! */`.
    Inner,
    /// The item after the comment: `///` or `/** */`.
    Outer,
}
