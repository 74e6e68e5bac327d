//! The kinds of tokens, and the kind of a text.
ghost use Rattle.std.specs.Prelude.{◌≡◌, codes, IsTrue, IfSome, IfNone};
ghost use Rattle.std.specs.Char.{is_ascii_digit};
ghost use Rattle.std.specs.Str.{chars};
ghost use Rattle.litrs_base.specs.Text.{first_passes, begins_with};
ghost use Rattle.litrs_base.specs.Quotes.{quoted_front, raw_front};
ghost use Rattle.litrs_grammar.specs.Literal.{string_literal_of};
ghost use Rattle.litrs_token.specs.LiteralToken.{token_kind, IsLiteralToken, IsNoLiteralToken};

use litrs_lex::{
    Front, NumberCut, StringKind, Switches, cut_byte, cut_char, cut_number, cut_quoted,
    scan_raw_string,
};

/// The kind of a token.
///
/// A [`Literal`](crate::Literal) has one of the last seven. `Literal` and `BoolLit` are kinds that
/// a conversion expects; no token has them.
#[derive(Clone, Copy, Debug, PartialEq, Eq)]
pub enum TokenKind {
    /// Punctuation, for example `+`.
    Punct,
    /// An identifier, for example `x`.
    Ident,
    /// A group, for example `(a, b)`.
    Group,
    /// A literal of any kind.
    Literal,
    /// The bool `true` or `false`, which as a token is an identifier.
    BoolLit,
    /// A byte literal, for example `b'r'`.
    ByteLit,
    /// A byte string literal, for example `b"fox"`.
    ByteStringLit,
    /// A character literal, for example `'P'`.
    CharLit,
    /// A float literal, for example `3.14`.
    FloatLit,
    /// An integer literal, for example `27`.
    IntegerLit,
    /// A string literal, for example `"Ferris"`.
    StringLit,
    /// A C string literal, for example `c"Ferris"`.
    CStringLit,
}

/// Returns the kind of the literal that `text` is, or `None` if it is a bool or not a literal.
/// Does not allocate.
pub(crate) fn literal_kind(text: &str) -> Option<TokenKind>
    ensures some { IfSome result (IsLiteralToken (chars text.now)) }
    ensures none { IfNone result (IsNoLiteralToken (chars text.now)) }
{
    match Front::of(text) {
        Front::Number => number_kind(text),
        Front::Char => char_kind(text),
        Front::Byte => byte_kind(text),
        Front::Quoted(kind) => quoted_kind(text, kind),
        Front::Raw(kind) => raw_kind(text, kind),
        Front::Empty | Front::Bool(_) | Front::Other => None,
    }
}

/// Like [`literal_kind`], for a text that starts with a digit.
fn number_kind(text: &str) -> Option<TokenKind>
    requires { IsTrue (first_passes is_ascii_digit text.now) }
    ensures some { IfSome result (IsLiteralToken (chars text.now)) }
    ensures none { IfNone result (IsNoLiteralToken (chars text.now)) }
{
    match cut_number(text) {
        Ok(NumberCut::Integer(_)) => Some(TokenKind::IntegerLit),
        Ok(NumberCut::Float(_)) => Some(TokenKind::FloatLit),
        Err(_) => None,
    }
}

/// Like [`literal_kind`], for a text that starts with `'`.
fn char_kind(text: &str) -> Option<TokenKind>
    requires { IsTrue (begins_with (codes "'") text.now) }
    ensures some { IfSome result (IsLiteralToken (chars text.now)) }
    ensures none { IfNone result (IsNoLiteralToken (chars text.now)) }
{
    match cut_char(text) {
        Ok(_) => Some(TokenKind::CharLit),
        Err(_) => None,
    }
}

/// Like [`literal_kind`], for a text that starts with `b'`.
fn byte_kind(text: &str) -> Option<TokenKind>
    requires { IsTrue (begins_with (codes "b'") text.now) }
    ensures some { IfSome result (IsLiteralToken (chars text.now)) }
    ensures none { IfNone result (IsNoLiteralToken (chars text.now)) }
{
    match cut_byte(text) {
        Ok(_) => Some(TokenKind::ByteLit),
        Err(_) => None,
    }
}

/// Like [`literal_kind`], for a text that starts like a quoted string of `kind`.
fn quoted_kind(text: &str, kind: StringKind) -> Option<TokenKind>
    requires { IsTrue (begins_with (quoted_front kind) text.now) }
    ensures some { IfSome result (IsLiteralToken (chars text.now)) }
    ensures none { IfNone result (IsNoLiteralToken (chars text.now)) }
{
    let Switches {
        unicode,
        byte_escapes,
        allow_nul,
    } = kind.switches();
    match cut_quoted(text, kind.front_len(), unicode, byte_escapes, allow_nul) {
        Ok(_) => Some(string_token_kind(kind)),
        Err(_) => None,
    }
}

/// Like [`literal_kind`], for a text that starts like a raw string of `kind`.
fn raw_kind(text: &str, kind: StringKind) -> Option<TokenKind>
    requires { IsTrue (begins_with (raw_front kind) text.now) }
    ensures some { IfSome result (IsLiteralToken (chars text.now)) }
    ensures none { IfNone result (IsNoLiteralToken (chars text.now)) }
{
    let switches = kind.switches();
    match scan_raw_string(text, kind.front_len(), switches.unicode, switches.allow_nul) {
        Ok(_) => Some(string_token_kind(kind)),
        Err(_) => None,
    }
}

fn string_token_kind(kind: StringKind) -> TokenKind
    ensures { result ≡ token_kind (string_literal_of kind) }
{
    match kind {
        StringKind::String => TokenKind::StringLit,
        StringKind::ByteString => TokenKind::ByteStringLit,
        StringKind::CString => TokenKind::CStringLit,
    }
}
