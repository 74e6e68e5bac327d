//! Escapes.
ghost use Rattle.std.specs.Prelude.{◌≡◌, IsTrue};
ghost use Rattle.litrs_base.specs.Unescape.{unescaped_number, is_unescaped_char, is_unescaped_byte};

/// The value of an escape.
#[derive(Clone, Copy, Debug, PartialEq, Eq)]
pub enum Unescape {
    /// A byte: the value of every escape except `\u{..}`.
    Byte(u8),
    /// A character: the value of `\u{..}`.
    Unicode(char),
}

impl Unescape {
    /// Returns the character. For a byte, which is ASCII, that is the character with this code: for
    /// `Byte(0x41)` it is `'A'`.
    pub fn unwrap_char(self) -> char
        requires { IsTrue (is_unescaped_char self) }
        ensures { result ≡ unescaped_number self }
    {
        match self {
            Unescape::Byte(b) => char::from(b),
            Unescape::Unicode(c) => c,
        }
    }

    /// Returns the byte. The value is a byte: for `Byte(255)` it is 255.
    pub fn unwrap_byte(self) -> u8
        requires { IsTrue (is_unescaped_byte self) }
        ensures { result ≡ unescaped_number self }
    {
        match self {
            Unescape::Byte(b) => b,
            Unescape::Unicode(_) => unreachable!(),
        }
    }
}
