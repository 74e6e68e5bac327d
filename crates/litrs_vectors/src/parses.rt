//! The nine parses as one call.
use litrs::{
    BoolLit, ByteLit, ByteStringLit, CStringLit, CharLit, FloatLit, IntegerLit, Literal,
    ParseError, StringLit, Text,
};
use std::alloc::Global;

/// A parse of one kind, or of all.
#[derive(Clone, Copy, Drop)]
pub enum Parse {
    /// `Literal::parse`.
    Literal,
    /// `BoolLit::parse`.
    Bool,
    /// `IntegerLit::parse`.
    Integer,
    /// `FloatLit::parse`.
    Float,
    /// `CharLit::parse`.
    Char,
    /// `StringLit::parse`.
    String,
    /// `ByteLit::parse`.
    Byte,
    /// `ByteStringLit::parse`.
    ByteString,
    /// `CStringLit::parse`.
    CString,
}

impl Parse {
    /// Returns the parse of the type with this name, and the name.
    pub fn from_name(name: &str) -> Option<(Parse, &'static str)> {
        match name {
            "Literal" => Some((Parse::Literal, "Literal")),
            "BoolLit" => Some((Parse::Bool, "BoolLit")),
            "IntegerLit" => Some((Parse::Integer, "IntegerLit")),
            "FloatLit" => Some((Parse::Float, "FloatLit")),
            "CharLit" => Some((Parse::Char, "CharLit")),
            "StringLit" => Some((Parse::String, "StringLit")),
            "ByteLit" => Some((Parse::Byte, "ByteLit")),
            "ByteStringLit" => Some((Parse::ByteString, "ByteStringLit")),
            "CStringLit" => Some((Parse::CString, "CStringLit")),
            _ => None,
        }
    }
}

/// Converts the result of a call on a type of one kind to that of the call on `Literal`.
fn any<L: Into<Literal<B>>, B: Text>(
    answer: Result<L, ParseError>,
) -> Result<Literal<B>, ParseError> {
    match answer {
        Ok(lit) => Ok(lit.into()),
        Err(e) => Err(e),
    }
}

/// Parses the text.
pub fn parse_by<B: Text>(alloc: Global, parse: Parse, text: B) -> Result<Literal<B>, ParseError> {
    match parse {
        Parse::Literal => Literal::parse(alloc, text),
        Parse::Bool => any(BoolLit::parse(text.as_str())),
        Parse::Integer => any(IntegerLit::parse(text)),
        Parse::Float => any(FloatLit::parse(text)),
        Parse::Char => any(CharLit::parse(text)),
        Parse::String => any(StringLit::parse(alloc, text)),
        Parse::Byte => any(ByteLit::parse(text)),
        Parse::ByteString => any(ByteStringLit::parse(alloc, text)),
        Parse::CString => any(CStringLit::parse(alloc, text)),
    }
}
