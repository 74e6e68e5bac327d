//! The command line.
ghost use Rattle.std.specs.Prelude.{◌≡◌, ◌↔◌, ◌&&◌, not, true, false, IsTrue};
ghost use Rattle.litrs_explain.specs.declared.find.Comments.TheVariants.{Rust};
ghost use Rattle.litrs_explain.specs.declared.options.ColorChoice.TheVariants.{Auto, Always, Never};

use crate::find::Comments;
use clap::{Arg, ArgAction, ArgMatches, Command};
use std::alloc::{AllocError, Global};

/// The version of the program, which is that of the library.
const VERSION: &str = "1.0.1-rattle.2";

/// The formats of reports.
const FORMATS: [&str; 2] = ["text", "json"];

/// The choices of color.
const COLORS: [&str; 3] = ["auto", "always", "never"];

/// The comments of a text.
const COMMENTS: [&str; 3] = ["none", "hash", "rust"];

/// The options for reading inputs and writing reports.
#[derive(Clone, Copy)]
pub(crate) struct Options {
    /// Set if literals are found in any text. Otherwise, lines are literals.
    pub(crate) prefix: bool,
    /// The comments that are skipped if literals are found in any text.
    pub(crate) comments: Comments,
    /// Set if reports are JSON.
    pub(crate) json: bool,
    /// Set if reports are colored.
    pub(crate) color: bool,
}

impl Options {
    /// Returns `true` if a shebang is skipped, as in Rust source.
    pub(crate) fn skips_shebang(self) -> bool
        ensures { IsTrue result ↔ IsTrue self.prefix × (self.comments ≡ Rust) }
    {
        self.prefix && self.comments == Comments::Rust
    }
}

/// A choice of when reports are colored.
#[derive(Clone, Copy)]
pub(crate) enum ColorChoice {
    /// Reports are colored if they go to a terminal that wants colors.
    Auto,
    Always,
    Never,
}

/// The destination of the reports, as the program knows it.
#[derive(Clone, Copy)]
pub(crate) struct Terminal {
    /// Set if it is a terminal.
    pub(crate) is_terminal: bool,
    /// Set if the environment asks for no colors.
    pub(crate) is_plain: bool,
}

/// Returns the command line of the program.
pub(crate) fn command<'a>(alloc: Global) -> Result<Command<'a>, AllocError> {
    let format = "Lines for a person, or one JSON object a line";
    let color = "Color the lines; auto: if they go to a terminal";
    let comments = "With --prefix: skip no comments, those from #, or those of Rust";
    let arguments = [
        prefix(alloc),
        choice(alloc, "comments", comments, &COMMENTS, "rust"),
        text(alloc),
        choice(alloc, "format", format, &FORMATS, "text"),
        choice(alloc, "color", color, &COLORS, "auto"),
        files(alloc),
    ];
    Command::new(alloc, "litrs_explain")
        .version(VERSION)
        .about("Explains the Rust literals in files")
        .args_override_self(true)
        .args(Vec::from_array(alloc, arguments)?)
}

/// Returns the option `--name`.
fn option<'a>(alloc: Global, name: &'a str, help: &'a str) -> Arg<'a> {
    Arg::new(alloc, name).long(name).help(help)
}

/// Returns the flag for any text.
fn prefix<'a>(alloc: Global) -> Arg<'a> {
    let help = "Find the literals in any text; without it, lines are literals";
    option(alloc, "prefix", help).action(ArgAction::SetTrue)
}

/// Returns the option for a text.
fn text<'a>(alloc: Global) -> Arg<'a> {
    option(alloc, "text", "Explain this text; may be repeated")
        .short('e')
        .value_name("TEXT")
        .action(ArgAction::Append)
        .allow_hyphen_values(true)
}

/// Returns an option with one of these values.
fn choice<'a>(
    alloc: Global,
    name: &'a str,
    help: &'a str,
    values: &'a [&'a str],
    default: &'a str,
) -> Arg<'a> {
    option(alloc, name, help)
        .value_parser(values)
        .default_value(default)
}

/// Returns the argument for files.
fn files<'a>(alloc: Global) -> Arg<'a> {
    Arg::new(alloc, "file")
        .value_name("FILE")
        .action(ArgAction::Append)
        .help("Files; -, or neither FILE nor TEXT: the standard input")
}

/// Returns what a command line asks for.
pub(crate) fn options_of(matches: &ArgMatches<'_>, terminal: Terminal) -> Options {
    let choice = match matches.get_str("color") {
        Some("always") => ColorChoice::Always,
        Some("never") => ColorChoice::Never,
        _ => ColorChoice::Auto,
    };
    let comments = match matches.get_str("comments") {
        Some("none") => Comments::None,
        Some("hash") => Comments::Hash,
        _ => Comments::Rust,
    };
    Options {
        comments,
        prefix: matches.get_flag("prefix"),
        json: matches.get_str("format") == Some("json"),
        color: is_colored(choice, terminal),
    }
}

fn is_colored(choice: ColorChoice, terminal: Terminal) -> bool
    ensures always { choice ≡ Always → result ≡ true }
    ensures never { choice ≡ Never → result ≡ false }
    ensures auto { choice ≡ Auto → result ≡ (terminal.is_terminal && not terminal.is_plain) }
{
    match choice {
        ColorChoice::Always => true,
        ColorChoice::Never => false,
        ColorChoice::Auto => terminal.is_terminal && !terminal.is_plain,
    }
}
