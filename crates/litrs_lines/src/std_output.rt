//! An output over a writer of the standard library. Contracts do not know its bytes.
ghost use Rattle.std.specs.Prelude.{◌≡◌, ◌≤◌, [], length, IfOk};
ghost use Rattle.std.specs.Io.KnownBytes.{Keeps, WriteAppends};
ghost use Rattle.litrs_lines.specs.Devices.{RecordsFailure};

use crate::device::{Failed, Output};
use std::io::Write;

/// An output over any writer. Each error of the writer is a failure, and so is a write that takes
/// no byte of a piece that is not empty.
///
/// This includes an error of the kind `Interrupted`, which the system returns if a signal handler
/// ran during a write. Unlike `write_all` of the standard library, `write` here does not try again.
/// A program with signal handlers installs them with `SA_RESTART`, so that the system continues the
/// call, or passes a writer that tries again.
#[derive(Debug, Drop)]
pub struct StdOutput<W> {
    writer: W,
    failed: bool,
}

impl<W> StdOutput<W> {
    ghost use Rattle.litrs_lines.specs.StdOutput.{unfailed_output};

    /// Creates an output over `writer`.
    pub fn new(writer: W) -> Self
        ensures { result ≡ unfailed_output writer }
    {
        StdOutput {
            writer,
            failed: false,
        }
    }
}

impl<W: Write> Output for StdOutput<W> {
    ghost use Rattle.litrs_lines.specs.StdOutput.{writer_of, failed_of};

    ghost has_failed = { failed_of };

    fn write(&mut self, piece: &[u8]) -> Result<usize, Failed>
        ensures bound { IfOk result (λ count. count ≤ length piece.now) }
        ensures some { IfOk result (λ count. count ≡ 0 → piece.now ≡ []) }
        ensures bytes { WriteAppends
            (W.contents (writer_of self.old)) (W.contents (writer_of self.new))
            result piece.now }
        ensures failed { RecordsFailure (failed_of self.old) (failed_of self.new) result }
    {
        match self.writer.write(piece) {
            Ok(count) if count > 0 || piece.is_empty() => Ok(count),
            _ => {
                self.failed = true;
                Err(Failed)
            }
        }
    }

    fn flush(&mut self) -> Result<(), Failed>
        ensures bytes { Keeps (W.contents (writer_of self.old)) (W.contents (writer_of self.new)) }
        ensures failed { RecordsFailure (failed_of self.old) (failed_of self.new) result }
    {
        match self.writer.flush() {
            Ok(()) => Ok(()),
            Err(_) => {
                self.failed = true;
                Err(Failed)
            }
        }
    }

    fn failed(&self) -> bool {
        self.failed
    }
}
