//! The colors of a terminal.
ghost use Rattle.std.specs.Prelude.{◌≡◌};
ghost use Rattle.litrs_diagnostic.specs.Colors.{color_code, opening, closing};

use std::fmt;

/// A color of a terminal, for a part of a message.
#[derive(Clone, Copy, Debug, PartialEq, Eq)]
pub enum Color {
    /// The color of errors.
    BoldRed,
    /// The color of warnings.
    BoldYellow,
    /// The color of notes.
    BoldGreen,
    /// The color of help.
    BoldCyan,
    /// The color of the margin, and of labels.
    BoldBlue,
    /// A green that is not bold.
    Green,
}

impl Color {
    /// Returns the code that begins the color.
    fn code(self) -> &'static str
        ensures { result.now ≡ color_code self }
    {
        match self {
            Color::BoldRed => "\x1b[1;31m",
            Color::BoldYellow => "\x1b[1;33m",
            Color::BoldGreen => "\x1b[1;32m",
            Color::BoldCyan => "\x1b[1;36m",
            Color::BoldBlue => "\x1b[1;34m",
            Color::Green => "\x1b[32m",
        }
    }
}

/// Returns the code before a part of a message.
pub(crate) fn opening(is_colored: bool, color: Color) -> &'static str
    ensures { result.now ≡ opening is_colored color }
{
    if is_colored { color.code() } else { "" }
}

/// Returns the code after a part of a message.
pub(crate) fn closing(is_colored: bool) -> &'static str
    ensures { result.now ≡ closing is_colored }
{
    if is_colored { "\x1b[0m" } else { "" }
}

/// A text in a color of the terminal.
///
/// `Display` writes the code that begins the color, the text as it is, and the code that ends the
/// color.
#[derive(Clone, Copy, Debug)]
pub struct Painted<'a> {
    /// The color.
    pub color: Color,
    /// The text.
    pub text: &'a str,
}

impl fmt::Display for Painted<'_> {
    ghost use Rattle.std.specs.Prelude.{Some, ◌++◌};
    ghost use Rattle.litrs_diagnostic.specs.Colors.{plain_code};

    ghost output = { λ it. Some (color_code it.color ++ (it.text.now ++ plain_code)) };

    fn fmt<W: fmt::Write>(&self, f: &mut fmt::Formatter<W>) -> fmt::Result {
        let start = opening(true, self.color);
        let text = self.text;
        let end = closing(true);
        write!(f, "{start}{text}{end}")
    }
}
