//! A run with an exit status and a message, for a program.
ghost use Rattle.std.specs.Prelude.{◌≡◌, ◌⊎◌, [], true, false, Some, IfSome};
ghost use Rattle.std.specs.Io.KnownBytes.{IsAtEnd, Keeps};
ghost use Rattle.std.specs.Process.{exit_status};
ghost use Rattle.litrs_lines.specs.Lines.{lines_of};
ghost use Rattle.litrs_lines.specs.Reports.{AppendsReports};
ghost use Rattle.litrs_lines.specs.Stopped.{StopsWithin};

use crate::{Input, Output, run};
use std::alloc::Global;
use std::io::Write;
use std::process::ExitCode;

/// Runs the program `litrs_lines_cli` over these devices: calls [`run`], and returns the exit
/// status. `Ok` is 0, without a message.
///
/// An error is 1, and one line is written to `messages`, for example `litrs_lines: read failed`. If
/// that write fails, its error is ignored, and the status is still 1.
pub fn run_program<I: Input, O: Output, M: Write>(
    alloc: Global,
    reader: &mut I,
    writer: &mut O,
    messages: &mut M,
) -> ExitCode
    requires reader_works { I.has_failed reader.old ≡ false }
    requires writer_works { O.has_failed writer.old ≡ false }
    ensures status { (exit_status result ≡ 0) ⊎ (exit_status result ≡ 1) }

    // On success the whole input was read, and the reports were written and flushed.
    ensures end { exit_status result ≡ 0 → IsAtEnd (I.remaining reader.new) }
    ensures reports { exit_status result ≡ 0 → IfSome (I.remaining reader.old) (λ bytes.
        AppendsReports (lines_of bytes) (O.contents writer.old) (O.contents writer.new)) }
    ensures flushed { exit_status result ≡ 0 → O.is_flushed writer.new ≡ true }
    ensures silent { exit_status result ≡ 0
        → Keeps (M.contents messages.old) (M.contents messages.new) }

    // Otherwise the bytes written are a prefix of the reports, as for `run`.
    ensures err { exit_status result ≡ 1 → StopsWithin (I.remaining reader.old)
        (I.remaining reader.new) (O.contents writer.old) (O.contents writer.new) }

    // If the input is known to be empty and no device failed, the status is 0.
    ensures succeeds { I.remaining reader.old ≡ Some [] → I.has_failed reader.new ≡ false
        → O.has_failed writer.new ≡ false → exit_status result ≡ 0 }

    // A device that failed is seen in the status.
    ensures read_failed { I.has_failed reader.new ≡ true → exit_status result ≡ 1 }
    ensures write_failed { O.has_failed writer.new ≡ true → exit_status result ≡ 1 }
{
    match run(alloc, reader, writer) {
        Ok(()) => ExitCode::from(0),
        Err(error) => {
            let _ = writeln!(messages, "litrs_lines: {error}");
            ExitCode::from(1)
        }
    }
}
