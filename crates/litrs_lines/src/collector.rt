//! Collects lines until they are a literal.
//!
//! A literal may contain line breaks, for example a string that spans lines. A [`Collector`] is fed
//! one line after the other. After each it reports whether its lines are a literal, begin one, or
//! neither.
ghost use Rattle.std.specs.Prelude.{◌≡◌, ◌≢◌, ◌↔◌, ◌∷◌, ◌++◌, [], None, Some, IsNone, IsTrue, IsOk, IsErr, IfOk, OnOk, OnErr, IfSome, IfNone, MatchResult, string_bytes};
ghost use Rattle.std.specs.Str.{chars, IsUtf8};
ghost use Rattle.litrs_base.specs.Characters.{line_feed};
ghost use Rattle.litrs.specs.LiteralDerivation.{is_bool_literal};
ghost use Rattle.litrs_grammar.specs.Literal.{literal_parse};
ghost use Rattle.litrs_grammar.specs.Refused.{IsRefused};
ghost use Rattle.litrs_prefix.specs.Ends.{IsEndOf};
ghost use Rattle.litrs_lines.specs.Held.{IsHeld, IsRefusalOfHeld};
ghost use Rattle.litrs_lines.specs.Open.{IsAfter, IsReadToLastLine};
ghost use Rattle.litrs_lines.specs.PrefixSteps.{EndsInLine, HasFrontToCopy, IsAfterLiteral, IsFront, IsHeldBefore, IsPrefixStep, MayBeCopiedToFront, held_after_prefix};
ghost use Rattle.litrs_lines.specs.Steps.{BeginsByLine, MayBeCopied, IsLiteralStep, IsReadAs, IsStep, held_after, Feeds, Pushes};

use crate::collector::body::{Open, open_after};
use litrs::{Literal, ParseError, ParseErrorKind};
use litrs_prefix::{MalformedPrefix, parse_prefix};
use std::alloc::{AllocError, Global};
use std::marker::Model;
use std::mem;

mod body;
pub mod laws;

/// The result of feeding a line to a [`Collector`].
#[derive(Drop)]
pub enum Step {
    /// The lines are not a literal, and begin one that continues in the next line.
    More,
    /// The lines are this literal.
    Literal(Literal<String>),
    /// The lines are not a literal, and no line after them makes them one.
    Refused(ParseError),
}

/// The result of feeding a line to a [`Collector`] by [`Collector::feed_prefix`].
#[derive(Drop)]
pub enum PrefixStep<'a> {
    /// The lines are not a literal, and begin one that continues in the next line.
    More,
    /// The literal at the front of the lines, and the rest of the line.
    Literal(Literal<String>, &'a str),
    /// No literal begins at the front of the lines.
    NoLiteral,
    /// A literal begins at the front of the lines, and none is valid.
    Malformed(MalformedPrefix),
}

/// The lines that begin a literal, in the order in which they were fed.
///
/// ```
/// use litrs_lines::{Collector, Step};
/// use std::alloc::{AllocError, Global};
///
/// /// Returns `true` if two lines are one literal.
/// fn is_literal(alloc: Global, first: &str, second: &str) -> Result<bool, AllocError> {
///     let mut collector = Collector::new(alloc);
///     match collector.feed(first)? {
///         Step::More => {}
///         _ => return Ok(false),
///     }
///     match collector.feed(second)? {
///         Step::Literal(_) => Ok(true),
///         _ => Ok(false),
///     }
/// }
/// // For "a and b" it is Ok(true), for 'a and ' it is Ok(false).
/// ```
#[derive(Drop)]
pub struct Collector {
    held: String,
    /// The string that is open at the end of the lines, if it is known.
    known: Option<Open>,
}

impl Model for Collector {
    ghost use Rattle.std.specs.Prelude.{ℕ, List, string_bytes};
    ghost use Rattle.litrs_lines.specs.Held.{IsHeld};
    ghost use Rattle.litrs_lines.specs.Open.{IsReadToLastLine};

    // The lines that are held, with an LF after each.
    ghost Value = { List ℕ };

    ghost view = { λ c. string_bytes c.held };

    ghost invariant = { λ c.
        IsHeld (string_bytes c.held) × IsReadToLastLine (string_bytes c.held) c.known };
}

impl Collector {
    /// Creates a collector that holds no line. It does not allocate.
    pub fn new(alloc: Global) -> Collector
        ensures { result ≡ [] }
    {
        Collector {
            held: String::new(alloc),
            known: None,
        }
    }

    /// Adds `line` to the lines that are held. Returns what the lines then are, joined by LF.
    ///
    /// Returns `Literal` if and only if they are a literal. Returns `More` if and only if they are
    /// not a literal and, with an LF after them, begin one. Returns `Refused` if and only if
    /// neither holds. After `Literal` and `Refused` no line is held, after `More` all of them are.
    ///
    /// `line` has no LF at its end. An LF within it is part of the text. So the line `"a`, LF, `b"`
    /// is the same literal as the lines `"a` and `b"`.
    ///
    /// `More` and `Refused` take at most one allocation.
    ///
    /// While the lines are a string that continues, calls take time in proportion to their lines,
    /// amortized. Of the lines before `line`, at most the end of the last one is read again.
    /// `Literal` and `Refused` take time in proportion to all lines.
    ///
    /// # Errors
    ///
    /// Returns `AllocError` if an allocation fails. Then the lines held are unchanged. A first line
    /// is copied only if it is a literal other than a bool, or begins a literal.
    pub fn feed(&mut self, line: &str) -> Result<Step, AllocError>
        ensures step { IfOk result (IsStep (self.old ++ line.now)) }
        ensures utf8 { OnOk result (IsUtf8 (self.old ++ line.now)) }
        ensures held { IfOk result (λ step. self.new ≡ held_after (self.old ++ line.now) step) }
        ensures err { OnErr result (self.new ≡ self.old) }
        ensures copied { self.old ≡ [] → IsErr result → MayBeCopied line.now }
    {
        if self.is_empty() {
            self.feed_first(line)
        } else {
            self.feed_next(line)
        }
    }

    /// Like [`Collector::feed`], but ignores an empty line before a literal: returns `None` if no
    /// line is held and `line` is empty.
    ///
    /// # Errors
    ///
    /// Returns `AllocError` if an allocation fails. Then the lines held are unchanged.
    pub fn feed_skip_empty(&mut self, line: &str) -> Result<Option<Step>, AllocError>
        ensures empty { IfOk result (λ fed. IsNone fed ↔ (self.old ++ line.now ≡ [])) }
        ensures step { IfOk result (λ fed. IfSome fed (IsStep (self.old ++ line.now))) }
        ensures held { IfOk result (λ fed. IfSome fed (λ step.
            self.new ≡ held_after (self.old ++ line.now) step)) }
        ensures ignored { IfOk result (λ fed. IfNone fed (self.new ≡ self.old)) }
        ensures err { OnErr result (self.new ≡ self.old) }
        ensures copied { self.old ≡ [] → IsErr result → MayBeCopied line.now }
    {
        if self.is_empty() && line.is_empty() {
            return Ok(None);
        }
        Ok(Some(self.feed(line)?))
    }

    /// Like [`Collector::feed`], but more text may follow the literal: returns the literal at the
    /// front of the lines, and the rest of `line` after it. The literal is the one that
    /// [`parse_prefix`] finds.
    ///
    /// For `"a` the result is `More`. For `b" + 1` after it, the result is the literal, `"a` and
    /// `b"` joined by LF, and the rest ` + 1`.
    ///
    /// The result is `More` if and only if that of `feed` is. After the other results no line is
    /// held. If lines are held, all of `line` is copied. The literal is then copied without the
    /// rest.
    ///
    /// # Errors
    ///
    /// Returns `AllocError` if an allocation fails. Then the lines held are unchanged.
    pub fn feed_prefix<'a>(&mut self, line: &'a str) -> Result<PrefixStep<'a>, AllocError>
        ensures step { IfOk result (IsPrefixStep (self.old ++ line.now)) }
        ensures rest { IfOk result (EndsInLine line.now) }
        ensures held { IfOk result (λ step.
            self.new ≡ held_after_prefix (self.old ++ line.now) step) }
        ensures err { OnErr result (self.new ≡ self.old) }
        ensures copied { self.old ≡ [] → IsErr result → MayBeCopiedToFront line.now }
    {
        if self.push(line)? {
            return Ok(PrefixStep::More);
        }
        if self.is_empty() {
            return front(*self.held.allocator(), line, line);
        }
        front_of_added(&mut self.held, &mut self.known, line)
    }

    /// Like [`Collector::feed`], if no line is held. A literal is copied once it is known to be
    /// one, and a line is copied only if it continues.
    #[inline(never)]
    fn feed_first(&mut self, line: &str) -> Result<Step, AllocError>
        requires { self.old ≡ [] }
        ensures fed { IfOk result (Feeds (self.old ++ line.now) self.new) }
        ensures err { OnErr result (self.new ≡ self.old) }
        ensures copied { IsErr result → MayBeCopied line.now }
    {
        let alloc = *self.held.allocator();
        match Literal::parse(alloc, line) {
            Ok(lit) => literal_step(alloc, lit),
            Err(e) => match e.kind() {
                ParseErrorKind::OutOfMemory => Err(AllocError),
                _ => {
                    if self.push_refused(line, &e)? {
                        Ok(Step::More)
                    } else {
                        Ok(Step::Refused(e))
                    }
                }
            },
        }
    }

    /// Like [`Collector::feed`], if a line is held.
    #[inline(never)]
    fn feed_next(&mut self, line: &str) -> Result<Step, AllocError>
        ensures fed { IfOk result (Feeds (self.old ++ line.now) self.new) }
        ensures err { OnErr result (self.new ≡ self.old) }
    {
        if self.push_next(line)? {
            return Ok(Step::More);
        }
        read_added(&mut self.held, &mut self.known, line)
    }

    /// Adds `line` to the lines that are held and returns `true`, if [`Collector::feed`] returns
    /// `More`. Returns `false` and changes nothing if it returns `Literal` or `Refused`.
    ///
    /// The lines are not parsed. With [`Collector::take_with`] a caller gets their text, to parse
    /// it and to show it in an error.
    ///
    /// # Errors
    ///
    /// Returns `AllocError` if an allocation fails. Then the lines held are unchanged. A first line
    /// is copied only if it begins a literal.
    #[inline(always)]
    pub fn push(&mut self, line: &str) -> Result<bool, AllocError>
        ensures pushed { IfOk result (Pushes self.old line.now self.new) }
        ensures err { OnErr result (self.new ≡ self.old) }
        ensures utf8 { IsUtf8 (self.old ++ line.now) }
        ensures copied { self.old ≡ [] → IsErr result → BeginsByLine line.now }
    {
        if self.is_empty() {
            self.push_first(line)
        } else {
            self.push_next(line)
        }
    }

    /// Like [`Collector::push`], if no line is held and the parse of `line` returned `refusal`.
    pub(crate) fn push_refused(
        &mut self,
        line: &str,
        refusal: &ParseError,
    ) -> Result<bool, AllocError>
        requires none { self.old ≡ [] }
        requires refused { IsRefused literal_parse (chars line.now) refusal.now }
        ensures pushed { IfOk result (Pushes self.old line.now self.new) }
        ensures err { OnErr result (self.new ≡ self.old) }
        ensures copied { IsErr result → BeginsByLine line.now }
    {
        if refusal.is_final() {
            return Ok(false);
        }
        self.push_first(line)
    }

    /// Like [`Collector::push`], if no line is held. The line is copied only if it continues.
    fn push_first(&mut self, line: &str) -> Result<bool, AllocError>
        requires { self.old ≡ [] }
        ensures pushed { IfOk result (Pushes self.old line.now self.new) }
        ensures err { OnErr result (self.new ≡ self.old) }
        ensures copied { IsErr result → BeginsByLine line.now }
    {
        match open_after(line, None) {
            Some(string) => hold_line(&mut self.held, &mut self.known, line, string),
            None => Ok(false),
        }
    }

    /// Like [`Collector::push`], if a line is held.
    #[inline(always)]
    pub(crate) fn push_next(&mut self, line: &str) -> Result<bool, AllocError>
        ensures pushed { IfOk result (Pushes self.old line.now self.new) }
        ensures err { OnErr result (self.new ≡ self.old) }
        ensures utf8 { IsUtf8 (self.old ++ line.now) }
    {
        push_line(&mut self.held, &mut self.known, line)
    }

    /// Takes the text of the lines that are held, joined by LF, with `line` after them. Then no
    /// line is held. The text has no more memory than its length.
    ///
    /// # Errors
    ///
    /// Returns `AllocError` if an allocation fails. Then the lines held are unchanged.
    pub fn take_with(&mut self, line: &str) -> Result<String, AllocError>
        ensures text { IfOk result (λ text. string_bytes text ≡ self.old ++ line.now) }
        ensures held { OnOk result (self.new ≡ []) }
        ensures err { OnErr result (self.new ≡ self.old) }
    {
        take_text(&mut self.held, &mut self.known, line)
    }

    /// Returns `true` if no line is held.
    pub fn is_empty(&self) -> bool
        ensures { IsTrue result ↔ (self.now ≡ []) }
    {
        self.held.is_empty()
    }

    /// Returns the lines that are held, joined by LF, in the order in which they were fed. The text
    /// is empty only if no line is held.
    pub fn text(&self) -> &str
        ensures none { self.now ≡ [] → result.now ≡ [] }
        ensures lines { self.now ≢ [] → result.now ++ line_feed ∷ [] ≡ self.now }
    {
        lines_of_held(self.held.as_str())
    }

    /// Removes the lines that are held, so the next line is the first. Their memory is kept for the
    /// next lines.
    pub fn clear(&mut self)
        ensures { self.new ≡ [] }
    {
        self.held.clear();
        self.known = None;
    }

    /// Returns the error of the lines that are held, joined by LF, or `None` if none is held. It
    /// does not allocate.
    pub fn finish(self) -> Option<ParseError>
        ensures refusal { IfSome result (IsRefusalOfHeld self) }
        ensures none { IfNone result (self ≡ []) }
    {
        refusal_of_held(self.held)
    }
}

/// Returns the lines of a text that is held, without the LF after the last.
fn lines_of_held(held: &str) -> &str
    requires { IsHeld held.now }
    ensures none { held.now ≡ [] → result.now ≡ [] }
    ensures lines { held.now ≢ [] → result.now ++ line_feed ∷ [] ≡ held.now }
{
    if held.is_empty() {
        return "";
    }
    let (lines, _) = held.split_at(held.len() - 1);
    lines
}

/// Returns `lit` as a step, with an owned text.
///
/// It is not inlined, so a line that is not a literal does not need room for an owned one.
#[inline(never)]
fn literal_step(alloc: Global, lit: Literal<&str>) -> Result<Step, AllocError>
    ensures step { IfOk result (IsLiteralStep lit.entry) }
    ensures bool { IsTrue (is_bool_literal lit.entry) → IsOk result }
{
    Ok(Step::Literal(lit.into_owned(alloc)?))
}

/// Parses `text`. Returns the literal, or its error.
fn read(alloc: Global, text: &str) -> Result<Result<Literal<String>, ParseError>, AllocError>
    ensures { IfOk result (λ read.
        MatchResult read (IsReadAs text.now) (IsRefused literal_parse (chars text.now))) }
{
    match Literal::parse(alloc, text) {
        Ok(lit) => Ok(Ok(lit.into_owned(alloc)?)),
        Err(e) => match e.kind() {
            ParseErrorKind::OutOfMemory => Err(AllocError),
            _ => Ok(Err(e)),
        },
    }
}

/// Adds `line` and an LF to the held text and returns `true`, if they begin a literal. Else, and
/// after an error, the text is as before.
#[inline(always)]
fn push_line(held: &mut String, known: &mut Option<Open>, line: &str) -> Result<bool, AllocError>
    requires { IsReadToLastLine (string_bytes held.old) known.old }
    ensures pushed { IfOk result (Pushes (string_bytes held.old) line.now (string_bytes held.new)) }
    ensures err { OnErr result (string_bytes held.new ≡ string_bytes held.old) }
    ensures known { IsReadToLastLine (string_bytes held.new) known.new }
{
    let len = held.len();
    // bounded by the length of the line, with its LF.
    held.reserve(line.len() + 1)?;
    held.push_str(line)?;
    let Some(next) = open_after(held.as_str(), *known) else {
        held.truncate(len);
        return Ok(false);
    };
    held.push('\n')?;
    *known = Some(next);
    Ok(true)
}

/// Holds a first line, with an LF after it, if `string` is open after them. Returns `true`.
fn hold_line(
    held: &mut String,
    known: &mut Option<Open>,
    line: &str,
    string: Open,
) -> Result<bool, AllocError>
    requires none { string_bytes held.old ≡ [] }
    requires known { IsReadToLastLine (string_bytes held.old) known.old }
    requires after { IsAfter line.now (Some string) }
    ensures pushed { IfOk result (Pushes (string_bytes held.old) line.now (string_bytes held.new)) }
    ensures err { OnErr result (string_bytes held.new ≡ string_bytes held.old) }
    ensures known { IsReadToLastLine (string_bytes held.new) known.new }
{
    // bounded by the length of the line, with its LF.
    held.reserve(line.len() + 1)?;
    held.push_str(line)?;
    held.push('\n')?;
    *known = Some(string);
    Ok(true)
}

/// Adds `line` to the held text and parses all of it, if it does not begin a literal with an LF
/// after it. After an error the text is as before.
///
/// It is not inlined, so a line after which a string continues does not need room for a literal.
#[inline(never)]
fn read_added(held: &mut String, known: &mut Option<Open>, line: &str) -> Result<Step, AllocError>
    requires known { IsReadToLastLine (string_bytes held.old) known.old }
    requires shut { BeginsByLine (string_bytes held.old ++ line.now) → ⊥ }
    ensures fed { IfOk result (Feeds (string_bytes held.old ++ line.now) (string_bytes held.new)) }
    ensures err { OnErr result (string_bytes held.new ≡ string_bytes held.old) }
    ensures known { IsReadToLastLine (string_bytes held.new) known.new }
{
    let len = held.len();
    held.push_str(line)?;
    let alloc = *held.allocator();
    match read(alloc, held.as_str()) {
        Ok(Ok(lit)) => {
            held.clear();
            *known = None;
            Ok(Step::Literal(lit))
        }
        Ok(Err(e)) => {
            held.clear();
            *known = None;
            Ok(Step::Refused(e))
        }
        Err(error) => {
            held.truncate(len);
            Err(error)
        }
    }
}

/// Parses the literal at the front of `text`, which ends with `line`.
fn front<'a>(alloc: Global, text: &str, line: &'a str) -> Result<PrefixStep<'a>, AllocError>
    requires { IsHeldBefore line.now text.now }
    ensures step { IfOk result (IsFront text.now) }
    ensures rest { IfOk result (EndsInLine line.now) }
    ensures copied { IsErr result → HasFrontToCopy text.now }
{
    match parse_prefix(alloc, text) {
        Ok(Some(prefix)) => {
            let rest = end_of(line, prefix.rest);
            Ok(PrefixStep::Literal(prefix.literal.into_owned(alloc)?, rest))
        }
        Ok(None) => Ok(PrefixStep::NoLiteral),
        Err(malformed) => match malformed.error.kind() {
            ParseErrorKind::OutOfMemory => Err(AllocError),
            _ => Ok(PrefixStep::Malformed(malformed)),
        },
    }
}

/// Returns the end of `line` that is `rest`, the rest after a literal.
fn end_of<'a>(line: &'a str, rest: &str) -> &'a str
    requires { IsAfterLiteral line.now rest.now }
    ensures rest { result.now ≡ rest.now }
    ensures end { IsEndOf line.now result.now }
{
    let start = line.len() - rest.len();
    let (_, end) = line.split_at(start);
    end
}

/// Adds `line` to the held text and parses the literal at its front. Then the text is empty, but
/// after an error it is as before.
fn front_of_added<'a>(
    held: &mut String,
    known: &mut Option<Open>,
    line: &'a str,
) -> Result<PrefixStep<'a>, AllocError>
    requires held { IsHeld (string_bytes held.old) }
    requires known { IsReadToLastLine (string_bytes held.old) known.old }
    ensures step { IfOk result (IsFront (string_bytes held.old ++ line.now)) }
    ensures rest { IfOk result (EndsInLine line.now) }
    ensures held { OnOk result (string_bytes held.new ≡ []) }
    ensures err { OnErr result (string_bytes held.new ≡ string_bytes held.old) }
    ensures known { IsReadToLastLine (string_bytes held.new) known.new }
{
    let len = held.len();
    held.push_str(line)?;
    match front(*held.allocator(), held.as_str(), line) {
        Ok(step) => {
            held.clear();
            *known = None;
            Ok(step)
        }
        Err(error) => {
            held.truncate(len);
            Err(error)
        }
    }
}

/// Takes the text that is held, with `line` after it, in a block of no more bytes than it has.
fn take_text(held: &mut String, known: &mut Option<Open>, line: &str) -> Result<String, AllocError>
    requires { IsReadToLastLine (string_bytes held.old) known.old }
    ensures text { IfOk result (λ text. string_bytes text ≡ string_bytes held.old ++ line.now) }
    ensures held { OnOk result (string_bytes held.new ≡ []) }
    ensures err { OnErr result (string_bytes held.new ≡ string_bytes held.old) }
    ensures known { IsReadToLastLine (string_bytes held.new) known.new }
{
    held.push_str(line)?;
    *known = None;
    let alloc = *held.allocator();
    let mut text = mem::replace(held, String::new(alloc));
    text.shrink_to_fit();
    Ok(text)
}

/// Returns the error of the lines that are held.
fn refusal_of_held(mut held: String) -> Option<ParseError>
    requires { IsHeld (string_bytes held) }
    ensures refusal { IfSome result (IsRefusalOfHeld (string_bytes held)) }
    ensures none { IfNone result (string_bytes held ≡ []) }
{
    let alloc = *held.allocator();
    held.pop()?;
    match Literal::parse(alloc, held.as_str()) {
        Ok(_) => None,
        Err(e) => Some(e),
    }
}
