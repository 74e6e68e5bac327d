//! The calls that the seven kinds of literals that are tokens have in common.
ghost use Rattle.std.specs.Prelude.{◌≡◌, ◌≢◌, ℕ, List, IfOk, IfErr, IsErr, string_bytes};
ghost use Rattle.std.specs.Str.{chars};
ghost use Rattle.litrs_base.specs.Refusal.{kind_of};
ghost use Rattle.litrs_grammar.specs.Refused.{MayLackMemory};
ghost use Rattle.litrs_token.specs.LiteralToken.{IsLiteralToken};
ghost use Rattle.litrs_token.specs.declared.kind.TokenKind.{TokenKind};

use crate::kind::TokenKind;
use litrs::{
    ByteLit, ByteStringLit, CStringLit, CharLit, FloatLit, IntegerLit, ParseError, ParseErrorKind,
    StringLit, Text,
};
use std::alloc::Global;

/// A literal of one kind, with a text of any type.
pub trait OneKind: Drop {
    /// The kind.
    ghost kind: { TokenKind };

    /// The bytes of the text.
    ghost raw: { Self → List ℕ };

    /// Returns the kind, for example `IntegerLit` for an integer.
    fn kind() -> TokenKind
        ensures kind { result ≡ kind }
        ensures one { kind ≢ TokenKind.Literal };

    /// Returns the text of the literal.
    fn text(&self) -> &str
        ensures text { result.now ≡ raw self.now }
        ensures literal { IsLiteralToken (chars result.now) kind };
}

/// A literal of one kind that owns its text.
pub trait OwnedKind: OneKind {
    /// Parses `text`, which is a literal of this kind.
    ///
    /// # Errors
    ///
    /// Returns `OutOfMemory` if the allocation of the value fails. `text` is then dropped.
    fn parse(alloc: Global, text: String) -> Result<Self, ParseError>
        requires { IsLiteralToken (chars (string_bytes text)) Self.kind }
        ensures raw { IfOk result (λ lit. Self.raw lit ≡ string_bytes text) }
        ensures memory { IfErr result (λ e. kind_of e ≡ ParseErrorKind.OutOfMemory) }
        ensures lack { IsErr result → MayLackMemory (chars (string_bytes text)) };
}

impl<B: Text> OneKind for IntegerLit<B> {
    ghost use Rattle.litrs_token.specs.declared.kind.TokenKind.TheVariants as token;

    ghost kind = { token.IntegerLit };

    ghost raw = { λ lit. lit.raw };

    fn kind() -> TokenKind {
        TokenKind::IntegerLit
    }

    fn text(&self) -> &str {
        IntegerLit::raw_input(self)
    }
}

impl OwnedKind for IntegerLit<String> {
    fn parse(_alloc: Global, text: String) -> Result<IntegerLit<String>, ParseError> {
        IntegerLit::parse(text)
    }
}

impl<B: Text> OneKind for FloatLit<B> {
    ghost use Rattle.litrs_token.specs.declared.kind.TokenKind.TheVariants as token;

    ghost kind = { token.FloatLit };

    ghost raw = { λ lit. lit.raw };

    fn kind() -> TokenKind {
        TokenKind::FloatLit
    }

    fn text(&self) -> &str {
        FloatLit::raw_input(self)
    }
}

impl OwnedKind for FloatLit<String> {
    fn parse(_alloc: Global, text: String) -> Result<FloatLit<String>, ParseError> {
        FloatLit::parse(text)
    }
}

impl<B: Text> OneKind for CharLit<B> {
    ghost use Rattle.litrs_token.specs.declared.kind.TokenKind.TheVariants as token;

    ghost kind = { token.CharLit };

    ghost raw = { λ lit. lit.raw };

    fn kind() -> TokenKind {
        TokenKind::CharLit
    }

    fn text(&self) -> &str {
        CharLit::raw_input(self)
    }
}

impl OwnedKind for CharLit<String> {
    fn parse(_alloc: Global, text: String) -> Result<CharLit<String>, ParseError> {
        CharLit::parse(text)
    }
}

impl<B: Text> OneKind for ByteLit<B> {
    ghost use Rattle.litrs_token.specs.declared.kind.TokenKind.TheVariants as token;

    ghost kind = { token.ByteLit };

    ghost raw = { λ lit. lit.raw };

    fn kind() -> TokenKind {
        TokenKind::ByteLit
    }

    fn text(&self) -> &str {
        ByteLit::raw_input(self)
    }
}

impl OwnedKind for ByteLit<String> {
    fn parse(_alloc: Global, text: String) -> Result<ByteLit<String>, ParseError> {
        ByteLit::parse(text)
    }
}

impl<B: Text> OneKind for StringLit<B> {
    ghost use Rattle.litrs_token.specs.declared.kind.TokenKind.TheVariants as token;

    ghost kind = { token.StringLit };

    ghost raw = { λ lit. lit.raw };

    fn kind() -> TokenKind {
        TokenKind::StringLit
    }

    fn text(&self) -> &str {
        StringLit::raw_input(self)
    }
}

impl OwnedKind for StringLit<String> {
    fn parse(alloc: Global, text: String) -> Result<StringLit<String>, ParseError> {
        StringLit::parse(alloc, text)
    }
}

impl<B: Text> OneKind for ByteStringLit<B> {
    ghost use Rattle.litrs_token.specs.declared.kind.TokenKind.TheVariants as token;

    ghost kind = { token.ByteStringLit };

    ghost raw = { λ lit. lit.raw };

    fn kind() -> TokenKind {
        TokenKind::ByteStringLit
    }

    fn text(&self) -> &str {
        ByteStringLit::raw_input(self)
    }
}

impl OwnedKind for ByteStringLit<String> {
    fn parse(alloc: Global, text: String) -> Result<ByteStringLit<String>, ParseError> {
        ByteStringLit::parse(alloc, text)
    }
}

impl<B: Text> OneKind for CStringLit<B> {
    ghost use Rattle.litrs_token.specs.declared.kind.TokenKind.TheVariants as token;

    ghost kind = { token.CStringLit };

    ghost raw = { λ lit. lit.raw };

    fn kind() -> TokenKind {
        TokenKind::CStringLit
    }

    fn text(&self) -> &str {
        CStringLit::raw_input(self)
    }
}

impl OwnedKind for CStringLit<String> {
    fn parse(alloc: Global, text: String) -> Result<CStringLit<String>, ParseError> {
        CStringLit::parse(alloc, text)
    }
}
