//! Reads lines and writes a report on each literal in them, and on each text that is not one.
#![tactic(auto)]

ghost use Rattle.std.specs.Prelude.{◌≡◌, ◌≢◌, ◌↔◌, ◌⊎◌, ◌∷◌, [], ◌++◌, ◌-◌, ◌^◌, true, false, Some, IsSome, IfSome, IsErrOf, OnOk, OnErr, position, string_bytes};
ghost use Rattle.std.specs.Io.KnownBytes.{IsAtEnd};
ghost use Rattle.litrs_lines.specs.Stopped.{StopsWithin};
ghost use Rattle.litrs_lines.specs.Lines.{is_line_feed, HasNoLineFeed, strip_cr, ended_lines, open_line, unless_empty, lines_of};
ghost use Rattle.litrs_lines.specs.Ended.{AreEndedReports, AreLastReports};
ghost use Rattle.litrs_lines.specs.Reports.{AppendsReports};
ghost use Rattle.litrs_lines.specs.Sent.{NamesFailure, WritesBytes, Leaves};

pub use collector::{Collector, PrefixStep, Step};
pub use device::{Failed, Input, Output};
use group::Reporter;
pub use mem_input::MemInput;
pub use mem_output::MemOutput;
use memchr::memchr;
pub use program::run_program;
use std::alloc::{AllocError, Global};
use std::error::Error;
use std::fmt;
pub use std_input::StdInput;
pub use std_output::StdOutput;

pub mod collector;
mod device;
mod device_calls;
mod group;
pub mod laws;
mod mem_input;
mod mem_output;
mod program;
mod report;
mod std_input;
mod std_output;

/// The number of bytes that are read at a time.
const BUFFER_LEN: usize = 8192;

/// An error of [`run`].
#[derive(Clone, Copy, Debug, PartialEq, Eq)]
pub enum RunError {
    /// The input failed, or was read 2^64 - 1 times.
    Read,
    /// The output failed.
    Write,
    /// An allocation failed.
    Memory,
}

impl fmt::Display for RunError {
    ghost use Rattle.litrs_lines.specs.RunError.{run_error_text};

    ghost output = { λ error. Some (run_error_text error) };

    fn fmt<W: fmt::Write>(&self, f: &mut fmt::Formatter<W>) -> fmt::Result {
        f.write_str(match self {
            RunError::Read => "read failed",
            RunError::Write => "write failed",
            RunError::Memory => "out of memory",
        })
    }
}

impl Error for RunError {}

impl From<AllocError> for RunError {
    ghost use Rattle.litrs_lines.specs.declared.RunError.TheVariants.{Memory};

    ghost from_gives = { λ _ error. error ≡ Memory };

    fn from(_: AllocError) -> Self {
        RunError::Memory
    }
}

/// Returns the end of the first line in bytes, or `None` if there is no LF.
#[tactic(auto, using(crate::proofs::LineEnds::first_byte_is_position))]
fn line_end(bytes: &[u8]) -> Option<usize>
    ensures { result ≡ position is_line_feed bytes.now }
{
    memchr(b'\n', bytes)
}

/// Returns `line` without one CR at its end.
fn strip_cr(line: &[u8]) -> &[u8]
    ensures { result.now ≡ strip_cr line.now }
{
    match line {
        [front @ .., b'\r'] => front,
        _ => line,
    }
}

/// Processes the line that `end` completes, without one CR at its end, and clears `line`.
fn end_line<O: Output>(
    line: &mut Vec<u8>,
    reporter: &mut Reporter<O>,
    end: &[u8],
) -> Result<(), RunError>
    ensures line { OnOk result (line.new.items ≡ []) }
    ensures adds { Leaves O.contents O.has_failed O.write_failed result reporter.old reporter.new
        (AreEndedReports reporter.old.collector.now
        (strip_cr (line.old.items ++ end.now) ∷ [])) }
{
    if line.is_empty() {
        return reporter.process_line(strip_cr(end));
    }
    line.extend_from_slice(end)?;
    reporter.process_line(strip_cr(line))?;
    line.clear();
    Ok(())
}

/// Processes the lines that end in `piece`, and keeps the start of the next one in `line`.
fn gather<O: Output>(
    line: &mut Vec<u8>,
    reporter: &mut Reporter<O>,
    piece: &[u8],
) -> Result<(), RunError>
    requires { HasNoLineFeed line.old.items }
    ensures line { OnOk result (line.new.items ≡ open_line (line.old.items ++ piece.now)) }
    ensures adds { Leaves O.contents O.has_failed O.write_failed result reporter.old reporter.new
        (AreEndedReports reporter.old.collector.now (ended_lines (line.old.items ++ piece.now))) }
{
    let mut rest = piece;
    while let Some(end) = line_end(rest) {
        end_line(line, reporter, &rest[..end])?;
        rest = &rest[end + 1..];
    }
    line.extend_from_slice(rest)?;
    Ok(())
}

/// Writes all of `bytes`.
fn write_all<O: Output>(writer: &mut O, bytes: &[u8]) -> Result<(), RunError>
    ensures bytes { WritesBytes result bytes.now (O.contents writer.old) (O.contents writer.new) }
    ensures failure { NamesFailure result (O.has_failed writer.old) (O.has_failed writer.new)
        (O.write_failed writer.new) }
    ensures memory { IsErrOf result RunError.Memory → ⊥ }
{
    let mut rest = bytes;
    while !rest.is_empty() {
        match writer.write(rest) {
            Ok(count) => rest = &rest[count..],
            Err(Failed) => return Err(RunError::Write),
        }
    }
    Ok(())
}

/// Processes the next piece of the input: writes the reports on the groups that end in it.
fn process_piece<O: Output>(
    line: &mut Vec<u8>,
    reporter: &mut Reporter<O>,
    piece: &[u8],
) -> Result<(), RunError>
    requires { HasNoLineFeed line.old.items }
    ensures line { OnOk result (line.new.items ≡ open_line (line.old.items ++ piece.now)) }
    ensures adds { Leaves O.contents O.has_failed O.write_failed result reporter.old reporter.new
        (AreEndedReports reporter.old.collector.now (ended_lines (line.old.items ++ piece.now))) }
    ensures written { OnOk result (string_bytes reporter.new.unwritten.now ≡ []) }
{
    gather(line, reporter, piece)?;
    reporter.write_unwritten()
}

/// Processes the last line if it has no LF and is not empty.
fn process_open_line<O: Output>(line: &[u8], reporter: &mut Reporter<O>) -> Result<(), RunError>
    ensures adds { Leaves O.contents O.has_failed O.write_failed result reporter.old reporter.new
        (AreEndedReports reporter.old.collector.now (unless_empty line.now)) }
    ensures memory { IsErrOf result RunError.Memory → line.now ≢ [] }
{
    if line.is_empty() {
        return Ok(());
    }
    reporter.process_line(line)
}

/// Reports on the last line if it has no LF and is not empty, and on the lines that are then held.
fn report_last<O: Output>(line: &[u8], reporter: &mut Reporter<O>) -> Result<(), RunError>
    ensures adds { Leaves O.contents O.has_failed O.write_failed result reporter.old reporter.new
        (λ _. AreLastReports reporter.old.collector.now (unless_empty line.now)) }
    ensures memory { line.now ≡ [] → reporter.old.collector.now ≡ []
        → IsErrOf result RunError.Memory → ⊥ }
{
    process_open_line(line, reporter)?;
    reporter.report_held()
}

/// Processes the end of the input: writes the reports on a last line without an LF and on the lines
/// that are held.
fn finish<O: Output>(line: &[u8], reporter: &mut Reporter<O>) -> Result<(), RunError>
    ensures adds { Leaves O.contents O.has_failed O.write_failed result reporter.old reporter.new
        (λ _. AreLastReports reporter.old.collector.now (unless_empty line.now)) }
    ensures written { OnOk result (string_bytes reporter.new.unwritten.now ≡ []) }
    ensures memory { line.now ≡ [] → reporter.old.collector.now ≡ []
        → IsErrOf result RunError.Memory → ⊥ }
{
    report_last(line, reporter)?;
    reporter.write_unwritten()
}

/// Reads the input to its end, writes the report on each group of lines and an LF after it, and
/// flushes once at the end.
///
/// A line is the bytes before an LF, without one CR directly before the LF. The bytes after the
/// last LF are a line if there are any. A group is a line that is not UTF-8, or the least number of
/// next lines, all UTF-8, for which one of these holds:
///
/// - Joined by LF they are a literal.
/// - With an LF after them they do not begin a literal.
/// - They are the last lines, or the line after them is not UTF-8.
///
/// One group is held at a time, so the memory is in proportion to the longest group. The report on
/// a long value is written in pieces.
///
/// # Errors
///
/// Returns `Read` if the input failed, or was read 2^64 - 1 times, which an input whose bytes are
/// known never is. Returns `Write` if the output failed, and `Memory` if an allocation failed. The
/// bytes that were written then begin the reports on the groups of the whole lines that were read.
/// They also begin those on the groups of all lines.
///
/// A failed call is never made again, so an error of the kind `Interrupted` ends the run as well:
/// see [`StdInput`] and [`StdOutput`].
pub fn run<I: Input, O: Output>(
    alloc: Global,
    reader: &mut I,
    writer: &mut O,
) -> Result<(), RunError>
    requires reader_works { I.has_failed reader.old ≡ false }
    requires writer_works { O.has_failed writer.old ≡ false }

    // The whole input was read, and the reports on the groups of its lines were written and
    // flushed.
    ensures end { OnOk result (IsAtEnd (I.remaining reader.new)) }
    ensures ok { OnOk result (IfSome (I.remaining reader.old) (λ bytes.
        AppendsReports (lines_of bytes) (O.contents writer.old) (O.contents writer.new))) }
    ensures flushed { OnOk result (O.is_flushed writer.new ≡ true) }

    // The reader failed, or there were 2^64 - 1 reads; an input whose bytes are known ends earlier.
    ensures read { IsErrOf result RunError.Read →
        (I.has_failed reader.new ≡ true) ⊎ I.are_reads (2 ^ 64 - 1) reader.old reader.new }
    ensures read_known { IsErrOf result RunError.Read → IsSome (I.remaining reader.old)
        → I.has_failed reader.new ≡ true }
    ensures read_failed { I.has_failed reader.new ≡ true → IsErrOf result RunError.Read }
    ensures write { IsErrOf result RunError.Write ↔ (O.has_failed writer.new ≡ true) }

    // If the input is known to be empty, the error is not `Memory`.
    ensures memory { I.remaining reader.old ≡ Some [] → IsErrOf result RunError.Memory → ⊥ }

    // If no write has failed, the flush has, after all reports.
    ensures flush { IsErrOf result RunError.Write → O.write_failed writer.new ≡ false →
        IfSome (I.remaining reader.old) (λ bytes.
        AppendsReports (lines_of bytes) (O.contents writer.old) (O.contents writer.new)) }

    // The bytes written are a prefix of the reports on the whole lines that were read, and of those
    // on all lines, if the input is known.
    ensures err { OnErr result (StopsWithin (I.remaining reader.old) (I.remaining reader.new)
        (O.contents writer.old) (O.contents writer.new)) }
{
    let mut buffer = [0; BUFFER_LEN];
    let mut line = Vec::new(alloc);
    let mut collector = Collector::new(alloc);
    let mut unwritten = String::new(alloc);
    for _turn in 0..u64::MAX {
        let count = match reader.read(&mut buffer) {
            Ok(count) => count,
            Err(Failed) => return Err(RunError::Read),
        };
        let mut reporter = Reporter {
            collector: &mut collector,
            unwritten: &mut unwritten,
            writer,
        };
        if count == 0 {
            finish(line.as_slice(), &mut reporter)?;
            return match reporter.writer.flush() {
                Ok(()) => Ok(()),
                Err(Failed) => Err(RunError::Write),
            };
        }
        process_piece(&mut line, &mut reporter, &buffer[..count])?;
    }
    Err(RunError::Read)
}
