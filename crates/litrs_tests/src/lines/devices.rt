//! Runs over a reader and a writer that count their calls, one of which fails once.
use litrs_lines::{Input, Output, RunError, StdInput, StdOutput, run, run_program};
use std::alloc::Global;
use std::io::{self, ErrorKind, Read, Write};
use std::process::{Abort, ExitCode};

/// Lines that nine reads of two bytes give; the tenth is the end.
const LINES: &[u8] = b"true\n0b1_____2\nfoo";

/// The number of reads up to the end of the input.
const READS: u64 = 10;

/// The reports on `LINES`.
const REPORTS: &[u8] = b"bool true
error integer literal contains a digit invalid for its base (at 8..9)
error invalid literal
";

/// The number of writes of eight bytes, two, nine and three for the lines, and a flush.
const WRITES: u64 = 15;

/// A number greater than that of every call.
const NEVER: u64 = u64::MAX;

/// The number of calls of a device, and the number of the one that fails.
#[derive(Drop)]
struct Calls {
    made: u64,
    fail_at: u64,
}

impl Calls {
    fn new(fail_at: u64) -> Calls {
        Calls { made: 0, fail_at }
    }

    fn make(&mut self) -> io::Result<()> {
        let number = self.made;
        self.made = number.saturating_add(1);
        if number == self.fail_at {
            return Err(io::Error::from(ErrorKind::Interrupted));
        }
        Ok(())
    }
}

/// A reader that gives two bytes in a call.
#[derive(Drop)]
struct Reader {
    rest: &'static [u8],
    calls: Calls,
}

impl Read for Reader {
    fn read(&mut self, buf: &mut [u8]) -> io::Result<usize> {
        self.calls.make()?;
        let count = buf.len().min(2).min(self.rest.len());
        let (next, rest) = self.rest.split_at(count);
        buf[..count].copy_from_slice(next);
        self.rest = rest;
        Ok(count)
    }
}

/// A writer that takes eight bytes in a call.
#[derive(Drop)]
struct Writer {
    bytes: Vec<u8>,
    flushes: u64,
    calls: Calls,
}

impl Write for Writer {
    fn write(&mut self, buf: &[u8]) -> io::Result<usize> {
        self.calls.make()?;
        let count = buf.len().min(8);
        self.bytes.extend_from_slice(&buf[..count])?;
        Ok(count)
    }

    fn flush(&mut self) -> io::Result<()> {
        self.flushes = self.flushes.saturating_add(1);
        self.calls.make()
    }
}

fn make_reader(fail_at: u64) -> Reader {
    Reader {
        rest: LINES,
        calls: Calls::new(fail_at),
    }
}

fn make_writer(alloc: Global, fail_at: u64) -> Writer {
    Writer {
        bytes: Vec::new(alloc),
        flushes: 0,
        calls: Calls::new(fail_at),
    }
}

/// Runs over `reader` and `writer`.
fn run_over(alloc: Global, reader: &mut Reader, writer: &mut Writer) -> Result<(), RunError> {
    let mut input = StdInput::new(reader);
    let mut output = StdOutput::new(writer);
    run(alloc, &mut input, &mut output)
}

/// Returns `true` if every call of devices was made.
fn has_called_all(reader: &Reader, writer: &Writer) -> bool {
    writer.bytes.as_slice() == REPORTS
        && reader.calls.made == READS
        && writer.calls.made == WRITES
        && writer.flushes == 1
}

#[test]
fn a_run_calls_its_devices(rt: HostRuntime) {
    let mut reader = make_reader(NEVER);
    let mut writer = make_writer(rt.alloc(), NEVER);
    let result = run_over(rt.alloc(), &mut reader, &mut writer);
    assert!(rt; result.is_ok() && has_called_all(&reader, &writer));
}

/// Returns `true` if the read of this number, which fails, is the last call.
fn ends_at_read(alloc: Global, number: u64) -> bool {
    let mut reader = make_reader(number);
    let mut writer = make_writer(alloc, NEVER);
    let result = run_over(alloc, &mut reader, &mut writer);
    matches!(result, Err(RunError::Read))
        && reader.calls.made == number.saturating_add(1)
        && writer.flushes == 0
        && REPORTS.starts_with(&writer.bytes)
}

/// Returns `true` if the write of this number, or the flush, fails as the last call.
fn ends_at_write(alloc: Global, number: u64) -> bool {
    let mut reader = make_reader(NEVER);
    let mut writer = make_writer(alloc, number);
    let result = run_over(alloc, &mut reader, &mut writer);
    matches!(result, Err(RunError::Write))
        && writer.calls.made == number.saturating_add(1)
        && (writer.flushes == 1) == (writer.calls.made == WRITES)
        && REPORTS.starts_with(&writer.bytes)
        && (writer.flushes == 0 || writer.bytes.len() == REPORTS.len())
}

#[test]
fn a_failed_call_is_the_last(rt: HostRuntime) {
    for number in 0..READS {
        assert!(rt; ends_at_read(rt.alloc(), number), "read {number}");
    }
    for number in 0..WRITES {
        assert!(rt; ends_at_write(rt.alloc(), number), "write {number}");
    }
}

/// Returns `true` if a program over devices that fail at these calls has this status and this
/// message.
fn ends_with(alloc: Global, read: u64, write: u64, status: ExitCode, message: &str) -> bool {
    let mut input = StdInput::new(make_reader(read));
    let mut output = StdOutput::new(make_writer(alloc, write));
    let mut messages = Vec::new(alloc);
    let result = run_program(alloc, &mut input, &mut output, &mut messages);
    let has_failed = input.failed() || output.failed();
    result == status
        && has_failed == !message.is_empty()
        && messages.as_slice() == message.as_bytes()
}

#[test]
fn a_program_has_a_status_and_a_message(rt: HostRuntime) {
    let alloc = rt.alloc();
    let failed = ExitCode::FAILURE;
    assert!(rt; ends_with(alloc, NEVER, NEVER, ExitCode::SUCCESS, ""));
    assert!(rt; ends_with(alloc, 3, NEVER, failed, "litrs_lines: read failed\n"));
    assert!(rt; ends_with(alloc, NEVER, 3, failed, "litrs_lines: write failed\n"));
}

/// A reader that fills each buffer, and a writer that takes each piece whole.
#[derive(Drop)]
struct Plenty;

impl Read for Plenty {
    fn read(&mut self, buf: &mut [u8]) -> io::Result<usize> {
        Ok(buf.len())
    }
}

impl Write for Plenty {
    fn write(&mut self, buf: &[u8]) -> io::Result<usize> {
        Ok(buf.len())
    }

    fn flush(&mut self) -> io::Result<()> {
        Ok(())
    }
}

/// Returns `true` if a piece is written whole, and read whole.
fn is_passed_on(piece: &mut [u8]) -> bool {
    let len = piece.len();
    let is_written = match StdOutput::new(Plenty).write(piece) {
        Ok(count) => count == len,
        Err(_) => false,
    };
    let is_read = match StdInput::new(Plenty).read(piece) {
        Ok(count) => count == len,
        Err(_) => false,
    };
    is_written && is_read
}

#[test]
fn pieces_of_every_length_are_passed_on(rt: HostRuntime) {
    let mut bytes = [0; 10_000];
    for len in 0..bytes.len() {
        assert!(rt; is_passed_on(&mut bytes[..len]), "{len} bytes");
    }
}
