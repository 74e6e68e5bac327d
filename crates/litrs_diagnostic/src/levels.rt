//! The levels of messages.
ghost use Rattle.std.specs.Prelude.{◌≡◌};
ghost use Rattle.litrs_diagnostic.specs.Colors.{level_color};
ghost use Rattle.litrs_diagnostic.specs.Diagnostic.{level_text};

use crate::colors::Color;

/// The severity of a message, with which its first line begins.
#[derive(Clone, Copy, Debug, PartialEq, Eq)]
pub enum Level {
    /// `error: `.
    Error,
    /// `warning: `.
    Warning,
    /// `note: `.
    Note,
    /// `help: `.
    Help,
}

impl Level {
    /// Returns the word that a message begins with.
    pub(crate) fn word(self) -> &'static str
        ensures { result.now ≡ level_text self }
    {
        match self {
            Level::Error => "error",
            Level::Warning => "warning",
            Level::Note => "note",
            Level::Help => "help",
        }
    }

    /// Returns the color of that word.
    pub(crate) fn color(self) -> Color
        ensures { result ≡ level_color self }
    {
        match self {
            Level::Error => Color::BoldRed,
            Level::Warning => Color::BoldYellow,
            Level::Note => Color::BoldGreen,
            Level::Help => Color::BoldCyan,
        }
    }
}
