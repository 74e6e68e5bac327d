//! The devices from which lines are read, and to which reports are written.
ghost use Rattle.std.specs.Prelude.{◌≡◌, ℕ, ◌≤◌, ◌+◌, ◌<◌, ◌^◌, ⊤, Bool, true, [], List, Option, None, length, IfOk, IfSome, OnOk, OnErr};
ghost use Rattle.std.specs.Io.KnownBytes.{Keeps, ReadConsumes, WriteAppends};
ghost use Rattle.litrs_lines.specs.Devices.{RecordsFailure};

use std::error::Error;
use std::fmt;

/// An error: a call of a device failed.
#[derive(Clone, Copy, Debug, PartialEq, Eq)]
pub struct Failed;

impl fmt::Display for Failed {
    ghost use Rattle.std.specs.Prelude.{Some, codes};

    ghost output = { λ _. Some (codes "device failed") };

    fn fmt<W: fmt::Write>(&self, f: &mut fmt::Formatter<W>) -> fmt::Result {
        f.write_str("device failed")
    }
}

impl Error for Failed {}

/// A source of bytes.
pub trait Input {
    /// The bytes that are left to read, if they are known.
    ghost remaining: { Self → Option (List ℕ) } = { λ _. None };

    /// A call has failed.
    ghost has_failed: { Self → Bool };

    /// As far as is known, the given number of reads, at least one, turns the first input into the
    /// second.
    ghost are_reads: { ℕ → Self → Self → Type 0 } = { λ _ _ _. ⊤ };

    /// Reads bytes into the front of `buffer` and returns their number.
    ///
    /// If the bytes of the input are known, these are the next of them. The number is 0 only at the
    /// end, or if `buffer` is empty.
    ///
    /// # Errors
    ///
    /// Returns [`Failed`] if the device failed. Then nothing was read, and `failed` returns `true`
    /// from now on.
    fn read(&mut self, buffer: &mut [u8]) -> Result<usize, Failed>
        ensures bound { IfOk result (λ count. count ≤ length buffer.new) }
        ensures bytes { ReadConsumes (remaining self.old) (remaining self.new) result buffer.new }
        ensures failed { RecordsFailure (has_failed self.old) (has_failed self.new) result }
        ensures one_read { are_reads 1 self.old self.new }
        ensures one_more { (count : ℕ) (first : Self) →
            are_reads count first self.old → are_reads (count + 1) first self.new };

    /// Returns `true` if a call has failed.
    fn failed(&self) -> bool
        ensures { result ≡ has_failed self.now };

    /// A known input is shorter than 2^63 bytes.
    ghost few: { (input : Self) → IfSome (remaining input) (λ bytes. length bytes < 2 ^ 63) };
}

/// A destination of bytes.
pub trait Output {
    /// The bytes that were written, if they are known.
    ghost contents: { Self → Option (List ℕ) } = { λ _. None };

    /// A call has failed.
    ghost has_failed: { Self → Bool };

    /// A write has failed, as far as is known. A flush does not count.
    ghost write_failed: { Self → Bool } = { λ _. true };

    /// Nothing was written after the last flush, as far as is known.
    ghost is_flushed: { Self → Bool } = { λ _. true };

    /// Writes bytes from the front of `piece` and returns their number, which is at least 1 if
    /// `piece` is not empty.
    ///
    /// # Errors
    ///
    /// Returns [`Failed`] if the device failed. Then nothing was written, and `failed` returns
    /// `true` from now on.
    fn write(&mut self, piece: &[u8]) -> Result<usize, Failed>
        ensures bound { IfOk result (λ count. count ≤ length piece.now) }
        ensures some { IfOk result (λ count. count ≡ 0 → piece.now ≡ []) }
        ensures bytes { WriteAppends (contents self.old) (contents self.new) result piece.now }
        ensures failed { RecordsFailure (has_failed self.old) (has_failed self.new) result }
        ensures write_failed { OnErr result (write_failed self.new ≡ true) };

    /// Flushes the bytes that were written. Does not write a byte itself.
    ///
    /// # Errors
    ///
    /// Returns [`Failed`] if the device failed. Then `failed` returns `true` from now on.
    fn flush(&mut self) -> Result<(), Failed>
        ensures bytes { Keeps (contents self.old) (contents self.new) }
        ensures flushed { OnOk result (is_flushed self.new ≡ true) }
        ensures failed { RecordsFailure (has_failed self.old) (has_failed self.new) result };

    /// Returns `true` if a call has failed.
    fn failed(&self) -> bool
        ensures { result ≡ has_failed self.now };
}
