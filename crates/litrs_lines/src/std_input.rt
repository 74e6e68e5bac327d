//! An input over a reader of the standard library. Contracts do not know its bytes.
ghost use Rattle.std.specs.Prelude.{◌≡◌, ◌≤◌, length, IfOk};
ghost use Rattle.std.specs.Io.KnownBytes.{ReadConsumes};
ghost use Rattle.litrs_lines.specs.Devices.{RecordsFailure};

use crate::device::{Failed, Input};
use std::io::Read;

/// An input over any reader. Each error of the reader is a failure.
///
/// This includes an error of the kind `Interrupted`, which the system returns if a signal handler
/// ran during a read. Unlike `read_to_end` of the standard library, `read` here does not try again.
/// A program with signal handlers installs them with `SA_RESTART`, so that the system continues the
/// call, or passes a reader that tries again.
#[derive(Debug, Drop)]
pub struct StdInput<R> {
    reader: R,
    failed: bool,
}

impl<R> StdInput<R> {
    ghost use Rattle.litrs_lines.specs.StdInput.{unfailed_input};

    /// Creates an input over `reader`.
    pub fn new(reader: R) -> Self
        ensures { result ≡ unfailed_input reader }
    {
        StdInput {
            reader,
            failed: false,
        }
    }
}

impl<R: Read> Input for StdInput<R> {
    ghost use Rattle.litrs_lines.specs.StdInput.{reader_of, failed_of};

    ghost has_failed = { failed_of };

    ghost few = { λ _. tt };

    fn read(&mut self, buffer: &mut [u8]) -> Result<usize, Failed>
        ensures bound { IfOk result (λ count. count ≤ length buffer.new) }
        ensures bytes { ReadConsumes
            (R.remaining (reader_of self.old)) (R.remaining (reader_of self.new))
            result buffer.new }
        ensures failed { RecordsFailure (failed_of self.old) (failed_of self.new) result }
    {
        match self.reader.read(buffer) {
            Ok(count) => Ok(count),
            Err(_) => {
                self.failed = true;
                Err(Failed)
            }
        }
    }

    fn failed(&self) -> bool {
        self.failed
    }
}
