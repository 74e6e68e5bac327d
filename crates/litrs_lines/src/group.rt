//! The reports on the groups of lines.

use crate::collector::Collector;
use crate::device::Output;
use crate::report::{report_literal, report_refusal};
use crate::{RunError, write_all};
use litrs::{Literal, ParseError, ParseErrorKind};
use std::{mem, str};

/// The lines that are held, the reports that are not yet written, and the output for them.
#[derive(Drop)]
pub(crate) struct Reporter<'a, O> {
    pub(crate) collector: &'a mut Collector,
    pub(crate) unwritten: &'a mut String,
    pub(crate) writer: &'a mut O,
}

impl<O: Output> Reporter<'_, O> {
    ghost use Rattle.std.specs.Prelude.{◌≡◌, ◌≢◌, ◌∷◌, [], IsErrOf, OnOk, string_bytes};
    ghost use Rattle.std.specs.Str.{chars};
    ghost use Rattle.litrs_grammar.specs.Literal.{literal_parse};
    ghost use Rattle.litrs_grammar.specs.Refused.{IsRefused};
    ghost use Rattle.litrs_lines.specs.Ended.{AreEndedReports, IsHeldReport};
    ghost use Rattle.litrs_lines.specs.Groups.{IsNoText};
    ghost use Rattle.litrs_lines.specs.Sent.{Leaves, AreBytes};

    /// Adds the reports on the groups that end with `line`, with an LF after each. If a report is
    /// long, the reports up to it are written.
    pub(crate) fn process_line(&mut self, line: &[u8]) -> Result<(), RunError>
        ensures { Leaves O.contents O.has_failed O.write_failed result self.old self.new
            (AreEndedReports self.old.collector.now (line.now ∷ [])) }
    {
        match str::from_utf8(line) {
            Ok(text) => self.process_text(text),
            Err(_) => self.report_no_text(line),
        }
    }

    /// Like [`Reporter::process_line`], for a line that is UTF-8.
    fn process_text(&mut self, line: &str) -> Result<(), RunError>
        ensures { Leaves O.contents O.has_failed O.write_failed result self.old self.new
            (AreEndedReports self.old.collector.now (line.now ∷ [])) }
    {
        if self.collector.is_empty() {
            return self.process_first(line);
        }
        if self.collector.push_next(line)? {
            return Ok(());
        }
        let text = self.collector.take_with(line)?;
        self.process_first(text.as_str())
    }

    /// Like [`Reporter::process_text`], if no line is held, for a line or for the text of several.
    /// It is copied only if it continues in the next line.
    fn process_first(&mut self, line: &str) -> Result<(), RunError>
        requires { self.old.collector.now ≡ [] }
        ensures { Leaves O.contents O.has_failed O.write_failed result self.old self.new
            (AreEndedReports self.old.collector.now (line.now ∷ [])) }
    {
        let alloc = *self.unwritten.allocator();
        match Literal::parse(alloc, line) {
            Ok(lit) => report_literal(self, &lit),
            Err(e) if e.kind() == ParseErrorKind::OutOfMemory => Err(RunError::Memory),
            Err(e) => self.process_refused(line, &e),
        }
    }

    /// Like [`Reporter::process_first`], for a line of which the parse returned `refusal`.
    fn process_refused(&mut self, line: &str, refusal: &ParseError) -> Result<(), RunError>
        requires none { self.old.collector.now ≡ [] }
        requires refused { IsRefused literal_parse (chars line.now) refusal.now }
        ensures { Leaves O.contents O.has_failed O.write_failed result self.old self.new
            (AreEndedReports self.old.collector.now (line.now ∷ [])) }
    {
        if self.collector.push_refused(line, refusal)? {
            return Ok(());
        }
        Ok(report_refusal(self.unwritten, refusal)?)
    }

    /// Like [`Reporter::process_line`], for a line that is not UTF-8.
    fn report_no_text(&mut self, line: &[u8]) -> Result<(), RunError>
        requires { IsNoText line.now }
        ensures { Leaves O.contents O.has_failed O.write_failed result self.old self.new
            (AreEndedReports self.old.collector.now (line.now ∷ [])) }
    {
        self.report_held()?;
        self.unwritten.push_str("error input is not UTF-8\n")?;
        Ok(())
    }

    /// Adds the report on the lines that are held, if there are any. Then none is held.
    pub(crate) fn report_held(&mut self) -> Result<(), RunError>
        ensures adds { Leaves O.contents O.has_failed O.write_failed result self.old self.new
            (IsHeldReport self.old.collector.now) }
        ensures memory { IsErrOf result RunError.Memory → self.old.collector.now ≢ [] }
    {
        let alloc = *self.unwritten.allocator();
        match mem::replace(self.collector, Collector::new(alloc)).finish() {
            Some(e) => Ok(report_refusal(self.unwritten, &e)?),
            None => Ok(()),
        }
    }

    /// Writes the reports that are not yet written.
    pub(crate) fn write_unwritten(&mut self) -> Result<(), RunError>
        ensures adds { Leaves O.contents O.has_failed O.write_failed result self.old self.new
            (AreBytes self.old.collector.now []) }
        ensures written { OnOk result (string_bytes self.new.unwritten.now ≡ []) }
        ensures memory { IsErrOf result RunError.Memory → ⊥ }
    {
        write_all(self.writer, self.unwritten.as_bytes())?;
        self.unwritten.clear();
        Ok(())
    }
}
