//! Reports on literals and errors, as text or as JSON.
ghost use Rattle.std.specs.Prelude.{◌≡◌, ◌≢◌, ◌≤◌, ◌<◌, ◌↔◌, ◌+◌, ◌^◌, [], ◌++◌, slice_range, Some, IfOk, OnOk, IsTrue, string_bytes};
ghost use Rattle.litrs_base.specs.CharEnd.{IsCutBy};
ghost use Rattle.litrs_base.specs.declared.err.ParseErrorKind.TheVariants.{InvalidLiteral};
ghost use Rattle.litrs.specs.LiteralDerivation.{derivation};
ghost use Rattle.litrs_explain.specs.Report.{place_text, message_text, note_text, narrowed, problem_message, IsLiteralReport, IsSignNote, IsProblemReport};

use crate::arguments;
use crate::error::Error;
use crate::json::{push_literal_object, push_problem_object};
use crate::options::Options;
use crate::output::Output;
use crate::place::{Place, Span};
use litrs::{Buffer, FloatLit, IntegerLit, Literal, ParseErrorKind};
use litrs_diagnostic::{Color, Colored, Diagnostic, Painted};
use litrs_explanation::push_explanation;
use std::alloc::{AllocError, Global};
use std::fmt::Write;
use std::ops::Range;

/// The number of columns of a line that are shown around an error.
const WIDTH: usize = 100;

/// The number of bytes before and after an error that are read to show [`WIDTH`] columns. A column
/// takes at most four; the others are for characters without a column.
pub(crate) const AROUND: usize = 1024;

/// An error in a text.
#[derive(Drop)]
pub(crate) struct Problem<'a> {
    /// The text, or a part of it around the error.
    pub(crate) source: &'a str,
    /// The place of the first character of `source`.
    pub(crate) place: Place,
    /// The error in `source`, in bytes.
    pub(crate) marked: Range<usize>,
    /// The error in the file, in bytes.
    pub(crate) bytes: Range<usize>,
    /// The kind of the error, or `None` for a byte that is not UTF-8.
    pub(crate) kind: Option<ParseErrorKind>,
    /// Set if more text can complete the literal.
    pub(crate) is_incomplete: bool,
    /// The text can be cut at both ends of the error.
    ghost cuts: { IsCutBy source.now marked },
}

impl Problem<'_> {
    /// Returns what is wrong.
    pub(crate) fn message(&self) -> &'static str
        ensures { result.now ≡ message_text self.now.kind }
    {
        match self.kind {
            Some(kind) => kind.description(),
            None => "byte that is not UTF-8",
        }
    }

    /// Returns the place of the error in the file. A byte that is not UTF-8 is one column wide.
    pub(crate) fn span(&self) -> Span {
        let start = self.place.after(&self.source[..self.marked.start]);
        let end = match self.kind {
            Some(_) => start.after(&self.source[self.marked.start..self.marked.end]),
            None => start.next_column(),
        };
        Span {
            start,
            end,
            bytes: self.bytes.start..self.bytes.end,
        }
    }

    /// Returns the line on the sign of the marked text if the error is `InvalidLiteral`, and an
    /// empty text otherwise.
    fn sign_note(&self) -> &'static str
        ensures is_sign { self.now.kind ≡ Some InvalidLiteral → IsSignNote
            (slice_range self.now.source.now self.now.marked.start self.now.marked.end)
            result.now }
        ensures no_sign { self.now.kind ≢ Some InvalidLiteral → result.now ≡ [] }
    {
        if self.kind == Some(ParseErrorKind::InvalidLiteral) {
            sign_note(&self.source[self.marked.start..self.marked.end])
        } else {
            ""
        }
    }
}

/// The reports of a run.
#[derive(Drop)]
pub(crate) struct Reports<'a> {
    alloc: Global,
    pub(crate) options: Options,
    pub(crate) output: Output,
    /// The name of the file that is read.
    name: &'a str,
    /// The name as messages show it.
    shown_name: String,
    /// The number of literals in it.
    literals: usize,
    /// The number of errors in it.
    errors: usize,
    /// Set if there was an error in any file.
    pub(crate) has_errors: bool,
}

impl<'a> Reports<'a> {
    /// Creates an empty list of reports, which are written to `output`.
    pub(crate) fn new(alloc: Global, options: Options, output: Output) -> Reports<'a> {
        Reports {
            alloc,
            options,
            output,
            name: "",
            shown_name: String::new(alloc),
            literals: 0,
            errors: 0,
            has_errors: false,
        }
    }

    /// Starts a file that is called `name`.
    pub(crate) fn start_file(&mut self, name: &'a str) -> Result<(), AllocError>
        ensures name { OnOk result (self.new.name.now ≡ name.now) }
        ensures counts { OnOk result ((self.new.literals ≡ 0) × (self.new.errors ≡ 0)) }
        ensures kept { self.new.has_errors ≡ self.old.has_errors }
    {
        self.shown_name = arguments::shown(self.alloc, name)?;
        self.name = name;
        self.literals = 0;
        self.errors = 0;
        Ok(())
    }

    /// Returns `true` if the file seems to be a text with literals in it, and not a list of
    /// literals.
    pub(crate) fn is_other_text(&self) -> bool {
        is_other_text(self.literals, self.errors)
    }

    /// Adds the lines on a literal that begins at `place`.
    pub(crate) fn add_literal<B: Buffer>(
        &mut self,
        place: Place,
        literal: &Literal<B>,
    ) -> Result<(), Error> {
        self.literals = self.literals.saturating_add(1);
        let out = &mut self.output.unwritten;
        if self.options.color {
            push_colored_place(self.alloc, out, self.shown_name.as_str(), place)?;
        } else {
            push_place(out, self.shown_name.as_str(), place)?;
        }
        push_literal(out, literal)?;
        self.output.end_report()
    }

    pub(crate) fn add_literal_object<B: Buffer>(
        &mut self,
        span: &Span,
        literal: &Literal<B>,
    ) -> Result<(), Error> {
        self.literals = self.literals.saturating_add(1);
        let out = &mut self.output.unwritten;
        push_literal_object(self.alloc, out, self.name, span, literal)?;
        self.output.end_report()
    }

    /// Adds the report on an error.
    pub(crate) fn add_problem(&mut self, problem: &Problem) -> Result<(), Error>
        ensures has_errors { IsTrue self.new.has_errors }
        ensures errors { self.old.errors + 1 < 2 ^ 64 → self.new.errors ≡ self.old.errors + 1 }
    {
        self.has_errors = true;
        self.errors = self.errors.saturating_add(1);
        let out = &mut self.output.unwritten;
        if self.options.json {
            push_problem_object(self.alloc, out, self.name, problem)?;
        } else {
            push_problem(out, self.shown_name.as_str(), problem, self.options.color)?;
        }
        self.output.end_report()
    }
}

/// Appends the name of a file, and a line and a column in it.
fn push_place(out: &mut String, name: &str, place: Place) -> Result<(), AllocError>
    ensures { OnOk result (string_bytes out.new
        ≡ string_bytes out.old ++ place_text name.now place) }
{
    let Place { line, column } = place;
    write!(out, "{name}:{line}:{column}:")
}

/// Like [`push_place`], in color.
fn push_colored_place(
    alloc: Global,
    out: &mut String,
    name: &str,
    place: Place,
) -> Result<(), AllocError> {
    let mut text = String::new(alloc);
    push_place(&mut text, name, place)?;
    let painted = Painted {
        color: Color::Green,
        text: text.as_str(),
    };
    write!(out, "{painted}")
}

/// Appends the explanation of a literal, after a blank.
fn push_literal<B: Buffer>(out: &mut String, literal: &Literal<B>) -> Result<(), AllocError>
    ensures { OnOk result (IsLiteralReport (string_bytes out.old) (derivation literal.now)
        (string_bytes out.new)) }
{
    out.push_str(" ")?;
    push_explanation(out, literal)
}

/// Appends the lines on an error in the file `name`, for a person.
fn push_problem(
    out: &mut String,
    name: &str,
    problem: &Problem,
    is_colored: bool,
) -> Result<(), AllocError>
    ensures { OnOk result (IsProblemReport (string_bytes out.old) is_colored
        (problem_message name.now problem.now.source.now problem.now.place
        problem.now.marked problem.now.kind)
        problem.now.kind problem.now.is_incomplete (slice_range problem.now.source.now
        problem.now.marked.start problem.now.marked.end) (string_bytes out.new)) }
{
    let marked = problem.marked.start..problem.marked.end;
    let diagnostic = Diagnostic::new(name, problem.source, marked, problem.message())
        .with_first(narrowed(problem.place.line), narrowed(problem.place.column))
        .with_width(WIDTH);
    if is_colored {
        let colored = Colored(diagnostic);
        write!(out, "{colored}")?;
    } else {
        write!(out, "{diagnostic}")?;
    }
    out.push_str(note(problem.is_incomplete))?;
    out.push_str(problem.sign_note())
}

/// Returns the line that says whether more text can complete the literal.
fn note(is_incomplete: bool) -> &'static str
    ensures { result.now ≡ note_text is_incomplete }
{
    if is_incomplete {
        "  this is incomplete: more text can complete it\n"
    } else {
        "  no continuation of this text is a literal\n"
    }
}

/// Returns the line on the sign of a text that is not a literal, or an empty text if it is not a
/// minus sign and a number.
fn sign_note(text: &str) -> &'static str
    ensures { IsSignNote text.now result.now }
{
    let Some(number) = text.strip_prefix('-') else {
        return "";
    };
    if IntegerLit::parse(number).is_ok() {
        "  a sign is not part of a literal: without it, this is an integer\n"
    } else if FloatLit::parse(number).is_ok() {
        "  a sign is not part of a literal: without it, this is a float\n"
    } else {
        ""
    }
}

/// Returns `true` if a file that was read line by line seems to be a text with literals in it,
/// given the numbers of literals and of errors.
fn is_other_text(literals: usize, errors: usize) -> bool
    ensures { IsTrue result ↔ ((2 ≤ errors) × (literals < errors)) }
{
    errors >= 2 && errors > literals
}

/// Returns the number, or the greatest that 32 bits hold.
fn narrowed(number: usize) -> u32
    ensures { result ≡ narrowed number }
{
    // bounded by the type: it is the number of a line or a column, not an amount of memory
    u32::try_from(number).unwrap_or(u32::MAX)
}
