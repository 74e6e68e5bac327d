//! The program: arguments in, reports and a status out.
ghost use Rattle.std.specs.Prelude.{◌≡◌, IfOk, IsErrOf, IsTrue};
ghost use Rattle.litrs_explain.specs.Report.{status_of};

use crate::arguments::{arguments, is_utf8, shown};
use crate::error::Error;
use crate::explainer::Explainer;
use crate::options::{Options, Terminal, command, options_of};
use crate::output::Output;
use crate::text::first_line;
use clap::ArgMatches;
use litrs::Literal;
use litrs_lexer::strip_shebang;
use std::alloc::AllocError;
use std::env::VarError;
use std::fs::File;
use std::io::{BufRead, BufReader, ErrorKind, Read};
use std::{env, fmt, mem, str};

/// The hint if the name of a missing file is a literal.
const TEXT_HELP: &str = "help: the argument is a literal: -e explains it";

/// The hint after a text that is not a list of literals.
const PREFIX_HELP: &str = "help: --prefix finds the literals within lines";

/// Returns the status of a run: 2 if an input was not read to its end, else 1 if there was an
/// error in a text, else 0.
pub(crate) fn status(has_errors: bool, has_failed: bool) -> u8
    ensures { result ≡ status_of has_errors has_failed }
{
    if has_failed {
        2
    } else if has_errors {
        1
    } else {
        0
    }
}

/// Runs the program, and returns its status.
pub(crate) fn run_program(rt: &HostRuntime, is_terminal: bool) -> u8 {
    match run_arguments(rt, is_terminal) {
        Ok(status) => status,
        Err(error) => {
            tell(rt, &error);
            2
        }
    }
}

/// Does what the arguments ask for, and returns the status.
fn run_arguments(rt: &HostRuntime, is_terminal: bool) -> Result<u8, Error> {
    let words = arguments(rt)?;
    let parsed = command(rt.alloc())?.try_get_matches_from(words.as_slice());
    let ended = match &parsed {
        Ok(matches) => run_matches(rt, matches, is_terminal),
        Err(error) => answer(rt, &words, error),
    };
    drop(parsed);
    ended
}

/// Explains what a command line names, and returns the status.
fn run_matches(rt: &HostRuntime, matches: &ArgMatches<'_>, is_terminal: bool) -> Result<u8, Error> {
    let is_plain = is_plain(rt)?;
    let terminal = Terminal {
        is_terminal,
        is_plain,
    };
    let mut run = Run::new(*rt, options_of(matches, terminal), is_terminal);
    let texts = matches.get_strs("text").unwrap_or(&[]);
    let files = matches.get_strs("file").unwrap_or(&[]);
    let ended = run.explain_all(texts, files);
    run.finish(ended)
}

/// Prints the help or the version, or what is wrong with the arguments `words`.
fn answer(rt: &HostRuntime, words: &[String], error: &clap::Error) -> Result<u8, Error> {
    if error.exit_code() != 0 {
        tell_mistake(rt, words, error)?;
        return Ok(2);
    }
    match error.print(rt) {
        Err(error) if error.kind() != ErrorKind::BrokenPipe => Err(Error::Output(error)),
        _ => Ok(0),
    }
}

/// Tells the user what is wrong with the arguments. If the message would quote bytes that are not
/// UTF-8, names the first argument that has such bytes.
fn tell_mistake(rt: &HostRuntime, words: &[String], error: &clap::Error) -> Result<(), Error> {
    let message = format!(in rt.alloc(); "{error}")?;
    match words.iter().find(|word| !is_utf8(word.as_str())) {
        Some(word) if !is_utf8(message.as_str()) => {
            let name = shown(rt.alloc(), word.as_str())?;
            let error = Error::NotUtf8;
            tell(rt, format_args!("{name}: {error}"));
        }
        _ => {
            let _ = error.print(rt);
        }
    }
    Ok(())
}

/// Returns `true` if the environment asks for no colors: `NO_COLOR` is set and not empty, or the
/// terminal is `dumb`.
fn is_plain(rt: &HostRuntime) -> Result<bool, Error> {
    let no_color = variable(rt, "NO_COLOR")?;
    let terminal = variable(rt, "TERM")?;
    Ok(!no_color.is_empty() || terminal.as_str() == "dumb")
}

/// Returns the value of a variable of the environment: the empty text if it is not set, U+FFFD if
/// it is not UTF-8.
fn variable(rt: &HostRuntime, name: &str) -> Result<String, Error> {
    match env::var(rt, name) {
        Ok(value) => Ok(value),
        Err(VarError::NotPresent) => Ok(String::new(rt.alloc())),
        Err(VarError::NotUnicode) => Ok(String::from_str(rt.alloc(), "\u{fffd}")?),
        Err(VarError::OutOfMemory) => Err(Error::from(AllocError)),
    }
}

/// Tells the user something. The run continues if that cannot be written.
fn tell<D: fmt::Display + Drop>(rt: &HostRuntime, message: D) {
    let _ = rt.eprintln(format_args!("litrs_explain: {message}"));
}

/// An input.
#[derive(Clone, Copy)]
enum Source<'a> {
    /// The value of `-e`.
    Text(&'a str),
    /// The standard input.
    Stdin,
    /// The file of this name.
    File(&'a str),
}

impl<'a> Source<'a> {
    /// Returns what an argument names.
    fn of_argument(argument: &'a str) -> Source<'a> {
        match argument {
            "-" => Source::Stdin,
            _ => Source::File(argument),
        }
    }

    /// Returns the name in reports.
    fn name(self) -> &'a str {
        match self {
            Source::Text(_) => "<text>",
            Source::Stdin => "<stdin>",
            Source::File(name) => name,
        }
    }

    /// Returns the argument that names the source, or the words for the standard input.
    fn argument(self) -> &'a str {
        match self {
            Source::Text(argument) | Source::File(argument) => argument,
            Source::Stdin => "standard input",
        }
    }
}

/// A run over several sources.
#[derive(Drop)]
struct Run<'a> {
    rt: HostRuntime,
    explainer: Explainer<'a>,
    /// Set until the first line of a source is explained.
    is_first_line: bool,
    /// Set if a source was not read to its end.
    has_failed: bool,
    /// Set if the help on `--prefix` was written.
    was_told: bool,
}

impl<'a> Run<'a> {
    /// Creates a run without sources.
    fn new(rt: HostRuntime, options: Options, is_terminal: bool) -> Run<'a> {
        let output = Output::new(rt, is_terminal);
        Run {
            rt,
            explainer: Explainer::new(rt.alloc(), options, output),
            is_first_line: true,
            has_failed: false,
            was_told: false,
        }
    }

    /// Explains the texts and files of a command line, or the standard input if there is none.
    fn explain_all(&mut self, texts: &[&'a str], files: &[&'a str]) -> Result<(), Error> {
        if texts.is_empty() && files.is_empty() {
            return self.explain(Source::Stdin);
        }
        for text in texts {
            self.explain(Source::Text(*text))?;
        }
        for file in files {
            self.explain(Source::of_argument(*file))?;
        }
        Ok(())
    }

    /// Writes the reports so far, and returns the status of a run that ended so. If the reader of
    /// the output has closed it, that is the status of what was read. Returns another error of
    /// `ended`, or of the write.
    fn finish(&mut self, ended: Result<(), Error>) -> Result<u8, Error>
        ensures status { IfOk result (λ status.
            status ≡ status_of self.old.explainer.reports.has_errors self.old.has_failed) }
        ensures memory { IsErrOf ended Error.Memory → IsErrOf result Error.Memory }
    {
        let flushed = self.explainer.reports.output.flush();
        match ended.and(flushed) {
            Err(Error::Output(error)) if error.kind() == ErrorKind::BrokenPipe => {}
            other => other?,
        }
        Ok(status(self.explainer.reports.has_errors, self.has_failed))
    }

    /// Explains a source. If it cannot be read, the user is told, and the run continues.
    fn explain(&mut self, source: Source<'a>) -> Result<(), Error> {
        match self.open(source) {
            Err(error @ (Error::Input(_) | Error::NotUtf8)) => self.fail(source, &error),
            other => {
                other?;
                self.tell_of_prefix()
            }
        }
    }

    /// Opens a source, and explains it to its end.
    fn open(&mut self, source: Source<'a>) -> Result<(), Error> {
        if !is_utf8(source.argument()) {
            return Err(Error::NotUtf8);
        }
        self.explainer.start_file(source.name())?;
        match source {
            Source::Text(text) => self.explain_lines(text.as_bytes()),
            Source::Stdin => {
                let input = self.rt.reader();
                self.explain_lines(input)
            }
            Source::File(name) => {
                let file = File::open(&self.rt, name).map_err(Error::Input)?;
                self.explain_lines(file)
            }
        }
    }

    fn explain_lines<F: Read + Drop>(&mut self, input: F) -> Result<(), Error> {
        let mut reader = BufReader::new(self.rt.alloc(), input).map_err(Error::Input)?;
        let mut line = Vec::new(self.rt.alloc());
        self.is_first_line = true;
        self.explain_reader(&mut reader, &mut line)?;
        self.explainer.finish()
    }

    /// Explains the lines of a reader. The beginning of the next one is in `line`.
    fn explain_reader<R: BufRead>(
        &mut self,
        reader: &mut R,
        line: &mut Vec<u8>,
    ) -> Result<(), Error> {
        for _ in 0..u64::MAX {
            let len = match reader.fill_buf() {
                Ok(bytes) => self.explain_bytes(line, bytes)?,
                Err(error) if error.kind() == ErrorKind::Interrupted => continue,
                Err(error) => return Err(Error::Input(error)),
            };
            if len == 0 {
                break;
            }
            reader.consume(len);
        }
        if line.is_empty() {
            Ok(())
        } else {
            self.explain_line(line)
        }
    }

    /// Explains the lines that end in `bytes`, the first of them after its beginning in `line`.
    /// Leaves in `line` the beginning of the next one. Returns the number of bytes.
    fn explain_bytes(&mut self, line: &mut Vec<u8>, bytes: &[u8]) -> Result<usize, Error> {
        let mut rest = bytes;
        while let Some((ending, after)) = first_line(rest) {
            rest = after;
            if line.is_empty() {
                self.explain_line(ending)?;
            } else {
                line.extend_from_slice(ending)?;
                self.explain_line(line)?;
                line.clear();
            }
        }
        line.extend_from_slice(rest)?;
        Ok(bytes.len())
    }

    /// Explains what ends with this line.
    fn explain_line(&mut self, line: &[u8]) -> Result<(), Error> {
        let is_first = mem::replace(&mut self.is_first_line, false);
        if !is_first || !self.explainer.reports.options.skips_shebang() {
            return self.explainer.feed(line);
        }
        let mut line = Vec::from_slice(self.rt.alloc(), line)?;
        blank_shebang(&mut line);
        self.explainer.feed(&line)
    }

    /// Notes that a source was not read to its end, and tells the user why, after what was read
    /// before it.
    fn fail(&mut self, source: Source<'a>, error: &Error) -> Result<(), Error>
        ensures { IsTrue self.new.has_failed }
    {
        self.has_failed = true;
        self.explainer.reports.output.flush()?;
        let argument = source.argument();
        let name = shown(self.rt.alloc(), argument)?;
        tell(&self.rt, format_args!("{name}: {error}"));
        let parsed = Literal::parse(self.rt.alloc(), argument);
        if is_absent(error) && parsed.is_ok() {
            tell(&self.rt, TEXT_HELP);
        }
        drop(parsed);
        Ok(())
    }

    /// Tells the user of `--prefix`, once, after a text that is not a list of literals.
    fn tell_of_prefix(&mut self) -> Result<(), Error> {
        let options = self.explainer.reports.options;
        let is_wanted = !options.prefix && !options.json && !self.was_told;
        if is_wanted && self.explainer.reports.is_other_text() {
            self.was_told = true;
            self.explainer.reports.output.flush()?;
            tell(&self.rt, PREFIX_HELP);
        }
        Ok(())
    }
}

/// Replaces the ASCII of a shebang, the first line of a source, by blanks, so that nothing else
/// moves.
fn blank_shebang(line: &mut [u8]) {
    if !is_shebang(line) {
        return;
    }
    for byte in line.iter_mut() {
        if byte.is_ascii() && *byte != b'\n' {
            *byte = b' ';
        }
    }
}

/// Returns `true` if the first line of a source is a shebang, even if it is not UTF-8.
fn is_shebang(line: &[u8]) -> bool {
    let Some(chunk) = line.utf8_chunks().next() else {
        return false;
    };
    let text = chunk.valid();
    let rest = strip_shebang(text);
    text.contains("#!") && (rest.is_empty() || rest.starts_with('\n'))
}

/// Returns `true` if a file was not read because there is no such file.
fn is_absent(error: &Error) -> bool {
    match error {
        Error::Input(error) => {
            matches!(
                error.kind(),
                ErrorKind::NotFound | ErrorKind::InvalidFilename
            )
        }
        _ => false,
    }
}
