//! The kinds of literals between quotes, and the characters and escapes that each allows.
ghost use Rattle.std.specs.Prelude.{◌≡◌, length};
ghost use Rattle.litrs_base.specs.Quotes.{quoted_front, raw_front, switches_of, char_switches_of};

/// The escapes and characters that a literal allows in its body.
#[derive(Clone, Copy, Debug, PartialEq, Eq)]
pub struct Switches {
    /// Set if `\u{..}` and characters that are not ASCII are allowed.
    pub unicode: bool,
    /// Set if `\x80` to `\xff` are allowed.
    pub byte_escapes: bool,
    /// Set if NUL and escapes with the value 0 are allowed.
    pub allow_nul: bool,
}

/// The two kinds of literals between single quotes. See [the reference][ref].
///
/// [ref]: https://doc.rust-lang.org/reference/tokens.html#characters-and-strings
#[derive(Clone, Copy, Debug, PartialEq, Eq)]
pub enum CharKind {
    /// A char, for example `'a'`.
    Char,
    /// A byte, for example `b'a'`.
    Byte,
}

/// The kinds of strings. See [the reference][ref].
///
/// [ref]: https://doc.rust-lang.org/reference/tokens.html#characters-and-strings
#[derive(Clone, Copy, Debug, PartialEq, Eq)]
pub enum StringKind {
    /// A string, for example `"a"` or `r"a"`.
    String,
    /// A byte string, for example `b"a"` or `br"a"`.
    ByteString,
    /// A C string, for example `c"a"` or `cr"a"`.
    CString,
}

impl CharKind {
    /// Returns the switches of this kind: a byte allows only ASCII characters, and `\x80` to
    /// `\xff`.
    #[inline(always)]
    pub fn switches(self) -> Switches
        ensures { result ≡ char_switches_of self }
    {
        let is_byte = matches!(self, CharKind::Byte);
        Switches {
            unicode: !is_byte,
            byte_escapes: is_byte,
            allow_nul: true,
        }
    }
}

impl StringKind {
    /// Returns the length in bytes of the front of a literal of this kind, quoted or raw: 2 for
    /// `b"` and `br`.
    #[inline(always)]
    pub fn front_len(self) -> usize
        ensures quoted { result ≡ length (quoted_front self) }
        ensures raw { result ≡ length (raw_front self) }
    {
        match self {
            StringKind::String => 1,
            StringKind::ByteString | StringKind::CString => 2,
        }
    }

    /// Returns the switches of this kind: a byte string allows only ASCII characters, byte strings
    /// and C strings allow `\x80` to `\xff`, and a C string allows no NUL.
    #[inline(always)]
    pub fn switches(self) -> Switches
        ensures { result ≡ switches_of self }
    {
        Switches {
            unicode: !matches!(self, StringKind::ByteString),
            byte_escapes: !matches!(self, StringKind::String),
            allow_nul: !matches!(self, StringKind::CString),
        }
    }
}
