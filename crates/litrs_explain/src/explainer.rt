//! Explains the literals of a file line by line.
ghost use Rattle.std.specs.Prelude.{◌≡◌, ◌≤◌, ◌<◌, ◌+◌, ◌-◌, ◌^◌, ◌↔◌, ◌++◌, [], ℕ, drop, length, IfOk, OnOk, IsTrue, slice_range, string_bytes};
ghost use Rattle.std.specs.Str.{chars, IsCharBoundary};
ghost use Rattle.litrs_base.specs.CharEnd.{IsCutBy};
ghost use Rattle.litrs_base.specs.Refusal.{marked_span};
ghost use Rattle.litrs_diagnostic.specs.Position.{line_number, column_in};
ghost use Rattle.litrs_grammar.specs.Literal.{literal_parse, Begins};
ghost use Rattle.litrs_grammar.specs.Refused.{IsRefusedOrOutOfMemory};
ghost use Rattle.litrs_explain.specs.Comments.{from_line_feed};
ghost use Rattle.litrs_explain.specs.Places.{IsTokenOf, IsMark, AreMarks};

use crate::error::Error;
use crate::find::next_token;
use crate::open::Open;
use crate::options::Options;
use crate::output::Output;
use crate::place::{Place, Span};
use crate::report::{AROUND, Problem, Reports};
use crate::text::without_line_end;
use litrs::{Literal, ParseError, ParseErrorKind};
use litrs_lexer::{Token, TokenKind, Tokens};
use litrs_lines::Collector;
use std::alloc::{AllocError, Global};
use std::ops::Range;
use std::{mem, str};

/// The byte order mark of UTF-8, which is skipped at the start of a file.
const BYTE_ORDER_MARK: &[u8] = b"\xef\xbb\xbf";

/// Explains the literals of a file, which is fed line by line.
#[derive(Drop)]
pub(crate) struct Explainer<'a> {
    alloc: Global,
    pub(crate) reports: Reports<'a>,
    /// The lines of an incomplete literal, if lines are literals.
    collector: Collector,
    /// The open last token of `held`, if literals are found in any text.
    open: Option<Open>,
    /// The lines of an incomplete token.
    held: String,
    /// A part of the line before it.
    before: String,
    /// The place in the file of the text that is read: the line, after what is held.
    place: Place,
    /// The start of what is incomplete, or of the line if nothing is.
    opening: Offset,
    /// The starts of the lines after it, but for those whose distance from the line before is the
    /// same in the text and in the file.
    lines: Vec<Offset>,
    /// The end of the last line of the text that is not UTF-8, in bytes. No literal before it is
    /// reported.
    unreadable: usize,
    /// The start of the next line.
    next: Place,
    next_in_file: usize,
}

impl<'a> Explainer<'a> {
    /// Creates an explainer whose reports go to `output`.
    pub(crate) fn new(alloc: Global, options: Options, output: Output) -> Explainer<'a> {
        Explainer {
            alloc,
            reports: Reports::new(alloc, options, output),
            collector: Collector::new(alloc),
            open: None,
            held: String::new(alloc),
            before: String::new(alloc),
            place: Place::START,
            opening: Offset::START,
            lines: Vec::new(alloc),
            unreadable: 0,
            next: Place::START,
            next_in_file: 0,
        }
    }

    /// Starts a file that is called `name`.
    pub(crate) fn start_file(&mut self, name: &'a str) -> Result<(), AllocError> {
        self.reports.start_file(name)?;
        self.collector.clear();
        self.open = None;
        self.held.clear();
        self.before.clear();
        self.unreadable = 0;
        self.next = Place::START;
        self.next_in_file = 0;
        Ok(())
    }

    /// Explains what ends with this line.
    ///
    /// # Errors
    ///
    /// Returns the errors of the output, and that of an allocation.
    pub(crate) fn feed(&mut self, line: &[u8]) -> Result<(), Error> {
        let text = match line.strip_prefix(BYTE_ORDER_MARK) {
            Some(text) if self.next_in_file == 0 => text,
            _ => line,
        };
        self.next_in_file = self
            .next_in_file
            .saturating_add(line.len().saturating_sub(text.len()));
        match str::from_utf8(text) {
            Ok(text) => self.feed_text(without_line_end(text))?,
            Err(_) => self.refuse_bytes(text)?,
        }
        self.next = self.next.next_line();
        self.next_in_file = self.next_in_file.saturating_add(text.len());
        Ok(())
    }

    /// Explains what is incomplete after the last line.
    ///
    /// # Errors
    ///
    /// Returns the errors of [`Explainer::feed`].
    pub(crate) fn finish(&mut self) -> Result<(), Error> {
        self.end_tokens()?;
        if self.collector.is_empty() {
            return Ok(());
        }
        let text = String::from_str(self.alloc, self.collector.text())?;
        self.collector.clear();
        self.explain_text(text.as_str(), false)
    }

    /// Explains the tokens of the text that is held, to which no further line belongs.
    fn end_tokens(&mut self) -> Result<(), Error> {
        if self.open.take().is_some() {
            let (text, start) = self.take_held()?;
            self.explain_tokens(text.as_str(), start, true)?;
        }
        Ok(())
    }

    /// Like [`Explainer::feed`], for a line that is UTF-8, without its end.
    fn feed_text(&mut self, line: &str) -> Result<(), Error> {
        if self.reports.options.prefix {
            self.feed_tokens(line)
        } else {
            self.feed_line(line)
        }
    }

    /// Like [`Explainer::feed_text`], for a line that is a literal or a part of one.
    fn feed_line(&mut self, line: &str) -> Result<(), Error> {
        if self.collector.is_empty() {
            self.start_text();
            return self.explain_text(line, true);
        }
        let len = self.collector.text().len();
        self.start_line(len.saturating_add(1))?;
        if self.collector.push(line)? {
            return Ok(());
        }
        let text = self.collector.take_with(line)?;
        self.explain_text(text.as_str(), false)
    }

    /// Explains a text that is to be a literal. It may also begin one if `is_first`, and is then
    /// held.
    fn explain_text(&mut self, text: &str, is_first: bool) -> Result<(), Error> {
        if text.is_empty() {
            return Ok(());
        }
        match Literal::parse(self.alloc, text) {
            Ok(literal) => self.add_literal(text, self.start(), text.len(), &literal),
            Err(error) => match error.kind() {
                ParseErrorKind::OutOfMemory => Err(Error::Memory),
                _ => self.explain_error(text, is_first, &error),
            },
        }
    }

    /// Like [`Explainer::explain_text`], for a text with this error.
    fn explain_error(&mut self, text: &str, is_first: bool, error: &ParseError) -> Result<(), Error>
        requires { IsRefusedOrOutOfMemory literal_parse (chars text.now) error.now }
    {
        if is_first && !error.is_final() && self.collector.push(text)? {
            return Ok(());
        }
        self.refuse(text, self.start(), 0..text.len(), error)
    }

    /// Like [`Explainer::feed_text`], for a line in which literals are found.
    fn feed_tokens(&mut self, line: &str) -> Result<(), Error> {
        let Some(open) = self.open else {
            self.start_text();
            return self.explain_lines(line, 0);
        };
        self.held.push('\n')?;
        self.start_line(self.held_len())?;
        self.held.push_str(line)?;
        self.open = open.after(line);
        if self.open.is_some() {
            self.unreadable = self.unreadable.min(self.held_len());
            return Ok(());
        }
        let (text, start) = self.take_held()?;
        self.explain_lines(text.as_str(), start)
    }

    /// Explains the literals in a text from `start` on, and holds what is incomplete at its end.
    fn explain_lines(&mut self, text: &str, start: usize) -> Result<(), Error>
        requires { IsCharBoundary text.now start }
    {
        self.unreadable = self.unreadable.min(text.len());
        self.explain_tokens(text, start, false)?;
        if self.open.is_none() {
            self.unreadable = 0;
        }
        Ok(())
    }

    /// Returns the length of the text that is held, in bytes.
    fn held_len(&self) -> usize {
        self.before.len().saturating_add(self.held.len())
    }

    /// Takes the text that is held. Returns it with the place where the incomplete token begins.
    fn take_held(&mut self) -> Result<(String, usize), AllocError>
        ensures text { IfOk result (λ held. string_bytes held.0
            ≡ string_bytes self.old.before ++ string_bytes self.old.held) }
        ensures start { IfOk result (λ held. held.1 ≡ length (string_bytes self.old.before)) }
        ensures taken { OnOk result ((string_bytes self.new.before ≡ [])
            × (string_bytes self.new.held ≡ [])) }
        ensures boundary { IfOk result (λ held. IsCharBoundary (string_bytes held.0) held.1) }
    {
        let mut text = mem::replace(&mut self.before, String::new(self.alloc));
        let start = text.len();
        text.push_str(self.held.as_str())?;
        self.held.clear();
        Ok((text, start))
    }

    /// Starts a text at the start of a line.
    fn start_text(&mut self) {
        self.place = self.next;
        self.opening = Offset {
            in_text: 0,
            in_file: self.next_in_file,
        };
        self.lines.clear();
    }

    /// Starts a line at the place `at` of the text that is held for it.
    fn start_line(&mut self, at: usize) -> Result<(), AllocError> {
        if self.in_file(at) != self.next_in_file {
            self.lines.push(Offset {
                in_text: at,
                in_file: self.next_in_file,
            })?;
        }
        Ok(())
    }

    /// Explains the literals in any text from `start` on. Holds what is incomplete at its end,
    /// unless no line follows.
    fn explain_tokens(&mut self, text: &str, start: usize, is_last: bool) -> Result<(), Error>
        requires { IsCharBoundary text.now start }
    {
        let mut marks = Marks {
            literal: self.start(),
            error: self.start(),
        };
        let mut left = Tokens {
            source: text,
            rest: &text[start..],
        };
        while let Some(token) = next_token(&mut left, self.reports.options.comments) {
            if left.rest.is_empty() && !is_last {
                self.open = Open::of(&token);
                if self.open.is_some() {
                    let mark = marks.error.moved_before(text, token.start);
                    return self.hold(text, mark, token.start);
                }
            }
            let is_literal = matches!(token.kind, TokenKind::Literal | TokenKind::MalformedLiteral);
            if is_literal && token.start >= self.unreadable {
                marks = self.explain_token(text, &token, marks)?;
            }
        }
        Ok(())
    }

    /// Reports on a token of the text that is a literal or a malformed one. Returns the marks that
    /// are moved to it.
    fn explain_token(&mut self, text: &str, token: &Token, marks: Marks) -> Result<Marks, Error>
        requires token { IsTokenOf text.now token.now }
        requires marks { AreMarks text.now token.now.start marks }
        ensures { IfOk result (AreMarks text.now token.now.start) }
    {
        let range = token.range();
        match Literal::parse(self.alloc, token.text) {
            Ok(literal) => {
                let mark = marks.literal.moved(text, range.start);
                self.add_literal(text, mark, range.end, &literal)?;
                Ok(Marks {
                    literal: mark,
                    error: marks.error,
                })
            }
            Err(error) => match error.kind() {
                ParseErrorKind::OutOfMemory => Err(Error::Memory),
                _ => {
                    let mark = marks.error.moved_before(text, range.start);
                    self.refuse(text, mark, range, &error)?;
                    Ok(Marks {
                        literal: marks.literal,
                        error: mark,
                    })
                }
            },
        }
    }

    /// Holds the text from `mark` on, for a token that begins at `at`.
    fn hold(&mut self, text: &str, mark: Mark, at: usize) -> Result<(), Error>
        requires mark { IsMark text.now at mark }
        requires at { IsCharBoundary text.now at }
    {
        if mark.at > 0 || self.opening.in_text != at {
            self.opening = Offset {
                in_text: at - mark.at,
                in_file: self.in_file(at),
            };
            self.place = mark.place;
            self.lines.clear();
        }
        self.unreadable = self.unreadable.saturating_sub(mark.at);
        self.before = String::from_str(self.alloc, &text[mark.at..at])?;
        self.held = String::from_str(self.alloc, &text[at..])?;
        Ok(())
    }

    /// Returns the start of the text.
    fn start(&self) -> Mark
        ensures at { result.at ≡ 0 }
        ensures place { result.place ≡ self.now.place }
    {
        Mark {
            at: 0,
            place: self.place,
        }
    }

    /// Returns where the byte at `at` of the text is in the file. The text lacks the CRs before
    /// LFs.
    fn in_file(&self, at: usize) -> usize {
        let mut start = self.opening;
        for line in self.lines.iter().rev() {
            if line.in_text <= at {
                start = *line;
                break;
            }
        }
        start
            .in_file
            .saturating_add(at.saturating_sub(start.in_text))
    }

    /// Returns the part of the file between two places of the text.
    fn span(&self, start: Mark, end: Mark) -> Span {
        Span {
            start: start.place,
            end: end.place,
            bytes: self.in_file(start.at)..self.in_file(end.at),
        }
    }

    /// Reports the literal from `start` to the place `end` of the text.
    fn add_literal(
        &mut self,
        text: &str,
        start: Mark,
        end: usize,
        literal: &Literal<&str>,
    ) -> Result<(), Error>
        requires start { IsMark text.now end start }
        requires end { IsCharBoundary text.now end }
    {
        if self.reports.options.json {
            let span = self.span(start, start.moved(text, end));
            self.reports.add_literal_object(&span, literal)
        } else {
            self.reports.add_literal(start.place, literal)
        }
    }

    /// Reports the error in the part `piece` of the text. The mark is before it.
    fn refuse(
        &mut self,
        text: &str,
        mark: Mark,
        piece: Range<usize>,
        error: &ParseError,
    ) -> Result<(), Error>
        requires piece { IsCutBy text.now piece }
        requires mark { IsMark text.now piece.start mark }
        requires refused { IsRefusedOrOutOfMemory literal_parse
            (chars (slice_range text.now piece.start piece.end)) error.now }
    {
        let marked = marked_part(text, &piece, error);
        let mark = mark.moved_before(text, marked.start);
        let end = line_end(text, marked.end, around_end(text, marked.end));
        let problem = Problem {
            source: &text[mark.at..end],
            place: mark.place,
            marked: marked.start - mark.at..marked.end - mark.at,
            bytes: self.in_file(marked.start)..self.in_file(marked.end),
            kind: Some(error.kind()),
            is_incomplete: is_incomplete(&text[piece.start..piece.end], error),
        };
        self.reports.add_problem(&problem)
    }

    /// Reports the first bytes of a line that are not UTF-8. If literals are found in any text, the
    /// line also closes and opens tokens.
    fn refuse_bytes(&mut self, line: &[u8]) -> Result<(), Error> {
        if self.reports.options.prefix {
            if matches!(self.open, Some(Open::SingleQuote)) && !line.starts_with(b"'") {
                self.end_tokens()?;
            }
            self.add_bytes_problem(line)?;
            let text = readable(self.alloc, line)?;
            // An LF may come between the two.
            self.unreadable = self.held_len().saturating_add(text.len()).saturating_add(1);
            self.feed_text(without_line_end(text.as_str()))
        } else {
            self.finish()?;
            self.add_bytes_problem(line)
        }
    }

    /// Adds the report on the first bytes of a line that are not UTF-8.
    fn add_bytes_problem(&mut self, line: &[u8]) -> Result<(), Error> {
        let Some(chunk) = line.utf8_chunks().next() else {
            return Ok(());
        };
        let source = chunk.valid();
        let at = self.next_in_file.saturating_add(source.len());
        let problem = Problem {
            source,
            place: self.next,
            marked: source.len()..source.len(),
            bytes: at..at.saturating_add(chunk.invalid().len()),
            kind: None,
            is_incomplete: false,
        };
        self.reports.add_problem(&problem)
    }
}

/// Returns a line with a `?` for each byte that is not UTF-8.
fn readable(alloc: Global, line: &[u8]) -> Result<String, AllocError> {
    let mut text = String::new(alloc);
    for chunk in line.utf8_chunks() {
        text.push_str(chunk.valid())?;
        for _ in chunk.invalid() {
            text.push('?')?;
        }
    }
    Ok(text)
}

/// Returns the part of `text` that `error`, the error of its part `piece`, marks.
fn marked_part(text: &str, piece: &Range<usize>, error: &ParseError) -> Range<usize>
    requires piece { IsCutBy text.now piece.now }
    requires refused { IsRefusedOrOutOfMemory literal_parse
        (chars (slice_range text.now piece.now.start piece.now.end)) error.now }
    ensures span { let span = marked_span
        (chars (slice_range text.now piece.now.start piece.now.end)) error.now in
        (result.start ≡ piece.now.start + span.start) × (result.end ≡ piece.now.start + span.end) }
    ensures cuts { IsCutBy text.now result }
{
    let marked = error.marked_span(&text[piece.start..piece.end]);
    piece.start + marked.start..piece.start + marked.end
}

/// Returns the last place at most [`AROUND`] bytes after `at` at which `text` can be cut.
fn around_end(text: &str, at: usize) -> usize
    requires { IsCharBoundary text.now at }
    ensures boundary { IsCharBoundary text.now result }
    ensures after { at ≤ result }
    ensures within { result ≤ at + 1024 }
    ensures last { (i : ℕ) → result < i → i ≤ at + 1024 → IsCharBoundary text.now i → ⊥ }
{
    text.floor_char_boundary(at.saturating_add(AROUND))
}

/// Returns the place of the first LF from `at` to `end`, or `end` if there is no LF. A message
/// leaves out a CR before an LF, but in `text` such a CR does not belong to the line end.
fn line_end(text: &str, at: usize, end: usize) -> usize
    requires at { IsCharBoundary text.now at }
    requires end { IsCharBoundary text.now end }
    requires order { at ≤ end }
    ensures boundary { IsCharBoundary text.now result }
    ensures after { at ≤ result }
    ensures before { result ≤ end }
    ensures line { from_line_feed (slice_range text.now at end)
        ≡ drop (result - at) (slice_range text.now at end) }
{
    match text[at..end].find('\n') {
        Some(len) => at + len,
        None => end,
    }
}

/// Returns `true` if more text can complete `text`, whose error is `error`, to a literal. Most
/// kinds of errors tell.
fn is_incomplete(text: &str, error: &ParseError) -> bool
    ensures { IsRefusedOrOutOfMemory literal_parse (chars text.now) error.now
        → (IsTrue result ↔ Begins literal_parse (chars text.now)) }
{
    error.is_open() || (!error.is_final() && litrs::goes_on(text))
}

/// A place in the text that is read, in bytes.
#[derive(Clone, Copy)]
struct Offset {
    /// From the start of the text.
    in_text: usize,
    /// From the start of the file.
    in_file: usize,
}

impl Offset {
    const START: Offset = Offset {
        in_text: 0,
        in_file: 0,
    };
}

/// The places from which the next literal and the next error are looked for.
#[derive(Clone, Copy)]
struct Marks {
    literal: Mark,
    error: Mark,
}

/// A place in a text whose line and column are known.
#[derive(Clone, Copy)]
struct Mark {
    /// In bytes from the start of the text.
    at: usize,
    place: Place,
}

impl Mark {
    /// Returns the mark at `at`, which is not before this one.
    fn moved(self, text: &str, at: usize) -> Mark
        requires from { IsMark text.now at self }
        requires to { IsCharBoundary text.now at }
        ensures at { result.at ≡ at }
        ensures line { self.place.line + (at - self.at) < 2 ^ 64 → result.place.line
            ≡ line_number self.place.line (chars (slice_range text.now self.at at)) }
        ensures column { self.place.column + (at - self.at) < 2 ^ 64 → result.place.column
            ≡ column_in self.place.column (chars (slice_range text.now self.at at)) }
    {
        Mark {
            at,
            place: self.place.after(&text[self.at..at]),
        }
    }

    /// Returns the mark at the last place at which `text` can be cut that is at least [`AROUND`]
    /// bytes before `at`, or this one if that is not after it.
    fn moved_before(self, text: &str, at: usize) -> Mark
        requires { IsMark text.now at self }
        ensures mark { IsMark text.now at result }
        ensures forward { self.at ≤ result.at }
        ensures near { self.at < result.at → result.at + 1024 ≤ at }
        ensures last { (i : ℕ) → result.at < i → i + 1024 ≤ at → IsCharBoundary text.now i → ⊥ }
        ensures line { self.place.line + (result.at - self.at) < 2 ^ 64 → result.place.line
            ≡ line_number self.place.line (chars (slice_range text.now self.at result.at)) }
        ensures column { self.place.column + (result.at - self.at) < 2 ^ 64 → result.place.column
            ≡ column_in self.place.column (chars (slice_range text.now self.at result.at)) }
    {
        let before = text.floor_char_boundary(at.saturating_sub(AROUND));
        if before > self.at {
            self.moved(text, before)
        } else {
            self
        }
    }
}
